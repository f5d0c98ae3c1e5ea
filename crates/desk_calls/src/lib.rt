// The calls on plans with desks: each checks its plan, takes it apart into its plain plan and the two tables of its layout (the crate desk_layout), and
// hands these to the functions for any layout of rows. What the calls mean is the crate desks's. No public function has a `requires`.
// A step is three numbers, the count stands beside the entries and the names beside the places: so C programs hand them in (vulcedar_desk_point_undo).
#![tactic(auto)]

ghost use Rattle.std.specs.Prelude.{◌≡◌, true};
ghost use Rattle.fault.specs.Number.{number_of};
ghost use Rattle.event.specs.Event.{known};
ghost use Rattle.retention.specs.Record.{recorded};
ghost use Rattle.site.specs.Verdict.{verdict_of};
ghost use Rattle.site.specs.Step.{stepped};
ghost use Rattle.job.specs.Simulation.{simulated};
ghost use Rattle.points.specs.Points.{points};
ghost use Rattle.rewind.specs.Return.{returned};
ghost use Rattle.desks.specs.Desk.{plain, DeskAccepted};
ghost use Rattle.desks.specs.Calls.{own_desk, at_desk, desk_step_of, desk_simulate_of, desk_point_undo_of, desk_point_back_of, desk_record_by_into, desk_record_into};
ghost use Rattle.desk_calls.specs.Entries.{DeskKeeps, DeskUndoes};

use desk_layout::Desks;
use fault::Fault;
use journal::Entry;
use keeping::Kept;
use site::{PassedEvent, Refusal, Verdict};

// The desk that decides an event of the plan. Of what is none it is 0, and no `Option`, since no verdict on such an event names a desk.
fn own_desk(plan: &[u8], two: &[u8], code: u32, node: u32) -> u8
    requires { DeskAccepted plan.now × (two.now ≡ plain plan.now) }
    ensures { known (plain plan.now) code node ≡ true → result ≡ own_desk plan.now code node }
{
    if !event::known(two, code, node) {
        return 0;
    }
    let host = event::host(two, code as u8, node as u8);
    plan::byte_at(plan, 3 * usize::from(host) + 2)
}

// The verdict that names the event's desk where it named its row.
#[tactic(auto, unfolding(desks::specs::Calls::at_desk))]
fn at_desk(desk: u8, v: Verdict) -> Verdict
    ensures { verdict_of result ≡ at_desk desk (verdict_of v) }
{
    match v {
        Verdict::Passed(e) => Verdict::Passed(PassedEvent { site: desk, ..e }),
        Verdict::Refused(Refusal::Barred(_)) => Verdict::Refused(Refusal::Barred(desk)),
        Verdict::Refused(Refusal::Unmet(_)) => Verdict::Refused(Refusal::Unmet(desk)),
        _ => v,
    }
}

// A desk's step on its row. It is made of the check alone, without `prepare`, since no row is numbered for it.
pub fn step(plan: &[u8], code: u32, node: u32, row: &mut [u8]) -> Verdict
    ensures { desk_step_of plan.now code node row.old ≡ stepped row.new (verdict_of result) }
{
    let mut two = [0u8; 320];
    let mut marks = [255u8; 256];
    if let Err(fault) = desk_layout::check_into(plan, &mut two, &mut marks) {
        return Verdict::Refused(Refusal::Invalid(u8::from(fault)));
    }
    let n = desk_layout::node_count(plan);
    if row.len() != n {
        return Verdict::Refused(Refusal::Invalid(u8::from(Fault::BadBuffer)));
    }
    let two = &two[..2 * n];
    if let Err(fault) = event::check(two, true, code, node) {
        return Verdict::Refused(Refusal::Invalid(u8::from(fault)));
    }
    let desk = own_desk(plan, two, code, node);
    site::decide(two, desk, code as u8, node as u8, row)
}

// A step of a simulation. Desk 255: the event happens; any other desk is told of it.
pub fn simulate(plan: &[u8], code: u32, node: u32, desk: u32, state: &mut [u8]) -> Verdict
    ensures { desk_simulate_of plan.now code node desk state.old ≡ simulated state.new (verdict_of result) }
{
    let mut desks = Desks::new();
    if let Err(fault) = desks.prepare(plan) {
        return Verdict::Refused(Refusal::Invalid(u8::from(fault)));
    }
    if !desks.fits(state) {
        return Verdict::Refused(Refusal::Invalid(u8::from(Fault::BadBuffer)));
    }
    let lay = desks.layout();
    let own = own_desk(plan, lay.plan, code, node);
    at_desk(own, layout::simulate(lay, code, node, desk, state))
}

// A step, and the entry that keeps it.
pub fn keep(
    plan: &[u8],
    code: u32,
    node: u32,
    desk: u32,
    state: &mut [u8],
    len: usize,
    count: &mut usize,
) -> Kept
    ensures { DeskKeeps plan.now state.old len count.old code node desk (verdict_of result.verdict) result.at result.entry state.new count.new }
{
    let mut desks = Desks::new();
    if let Err(fault) = desks.prepare(plan) {
        return Kept {
            verdict: Verdict::Refused(Refusal::Invalid(u8::from(fault))),
            at: len,
            entry: keeping::no_entry(),
        };
    }
    if !(desks.fits(state) & (*count < len)) {
        return Kept {
            verdict: Verdict::Refused(Refusal::Invalid(u8::from(Fault::BadBuffer))),
            at: len,
            entry: keeping::no_entry(),
        };
    }
    let lay = desks.layout();
    let own = own_desk(plan, lay.plan, code, node);
    let was = keeping::is_repeat(lay, code, node, desk, state);
    let v = layout::simulate(lay, code, node, desk, state);
    keeping::kept_by(at_desk(own, v), was, code, node, desk, len, count)
}

// The last entry taken back.
pub fn undo(
    plan: &[u8],
    state: &mut [u8],
    len: usize,
    count: &mut usize,
    e: Entry,
) -> Result<(), Fault>
    ensures { DeskUndoes plan.now state.old len count.old e (number_of result) state.new count.new }
{
    let mut desks = Desks::new();
    desks.prepare(plan)?;
    if !(desks.fits(state) & (*count <= len)) {
        return Err(Fault::BadBuffer);
    }
    if *count == 0 {
        return Err(Fault::NothingToUndo);
    }
    let lay = desks.layout();
    keeping::entry_fault(lay, e)?;
    keeping::take_back(lay, state, e);
    *count -= 1;
    Ok(())
}

// The last entry taken back, and the points that it passes dropped.
pub fn point_undo(
    plan: &[u8],
    state: &mut [u8],
    entries: &[Entry],
    count: &mut usize,
    names: &mut [u8],
    places: &mut [u64],
) -> Result<(), Fault>
    ensures { desk_point_undo_of plan.now state.old entries.now count.old names.old places.old ≡ returned (number_of result) state.new count.new (points names.new places.new) }
{
    let mut desks = Desks::new();
    desks.prepare(plan)?;
    let long = desks.fits(state) & (*count <= entries.len());
    let right = points::points_fit(names, places, *count);
    if !(long & right) {
        return Err(Fault::BadBuffer);
    }
    rewind::point_undo_on(desks.layout(), state, entries, count, names, places)
}

// Steps taken back to the place of a name's point, and the points past it dropped.
pub fn point_back(
    plan: &[u8],
    name: &[u8],
    state: &mut [u8],
    entries: &[Entry],
    count: &mut usize,
    names: &mut [u8],
    places: &mut [u64],
) -> Result<(), Fault>
    ensures { desk_point_back_of plan.now name.now state.old entries.now count.old names.old places.old ≡ returned (number_of result) state.new count.new (points names.new places.new) }
{
    let mut desks = Desks::new();
    desks.prepare(plan)?;
    let long = (name.len() == 8) & desks.fits(state) & (*count <= entries.len());
    let right = points::points_fit(names, places, *count);
    if !(long & right) {
        return Err(Fault::BadBuffer);
    }
    rewind::point_back_on(desks.layout(), name, state, entries, count, names, places)
}

// The record by the house's own table: every node's mark by its own desk's row, and its class.
pub fn record_by(
    plan: &[u8],
    tab: &[u8],
    state: &[u8],
    marks: &mut [u8],
    classes: &mut [u8],
) -> Result<(), Fault>
    ensures { desk_record_by_into plan.now tab.now state.now marks.old classes.old ≡ recorded (number_of result) marks.new classes.new }
{
    retention::check_table(tab)?;
    let mut desks = Desks::new();
    desks.prepare(plan)?;
    let n = desks.nodes;
    if !(desks.fits(state) & (marks.len() == n) & (classes.len() == n)) {
        return Err(Fault::BadBuffer);
    }
    let lay = desks.layout();
    layout::write_marks(lay, state, marks);
    retention::classify(lay.plan, tab, marks, classes);
    Ok(())
}

// The record by the common table.
pub fn record(plan: &[u8], state: &[u8], marks: &mut [u8], classes: &mut [u8]) -> Result<(), Fault>
    ensures { desk_record_into plan.now state.now marks.old classes.old ≡ recorded (number_of result) marks.new classes.new }
{
    let tab = retention::common_table();
    record_by(plan, &tab, state, marks, classes)
}
