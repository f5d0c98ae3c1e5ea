// The simulation of a whole job on a plan of two bytes a node: all sites' rows in one lent state, steps that happen or are told, the record, and
// lists of steps in frames. Every node has its own row, which is the layout without tables. What each function answers and leaves is
// specs/Run.antt; what a step means, and what holds of every list of steps, is the crate job's.
// A step is three numbers, code, node and site, and no struct: so C programs hand it in (`vulcedar_simulate`).
#![tactic(auto)]

ghost use Rattle.std.specs.Prelude.{◌≡◌, ◌&&◌, ◌+◌, ◌*◌, ◌/◌, ◌%◌, ◌<◌, eqb, length};
ghost use Rattle.fault.specs.Number.{number_of};
ghost use Rattle.event.specs.Site.{own};
ghost use Rattle.site.specs.Verdict.{verdict_of};
ghost use Rattle.retention.specs.Record.{recorded};
ghost use Rattle.job.specs.Simulation.{simulated, replay_from, numbers_from, end_marks};
ghost use Rattle.layout.specs.Layout.{Laid};
ghost use Rattle.plan.specs.Plan.{size};
ghost use Rattle.simulation.specs.Run.{simulate_of, record_by_into, record_into, steps_of, ran, run_of};

use fault::Fault;
use layout::Layout;
use site::{Refusal, Report, Verdict};

// len is n times n.
pub fn is_square(n: usize, len: usize) -> bool
    ensures { result ≡ eqb len (n * n) }
{
    n.checked_mul(n) == Some(len)
}

// One step on a plan and a state that have been tested.
fn advance(plan: &[u8], code: u32, node: u32, site: u32, state: &mut [u8]) -> Verdict
    requires { Laid plan.now (own plan.now) state.old }
    ensures { simulate_of plan.now code node site state.old ≡ simulated state.new (verdict_of result) }
{
    layout::simulate(Layout::own(plan), code, node, site, state)
}

// One step. Site 255: the event happens; any other site is told of it.
pub fn simulate(plan: &[u8], code: u32, node: u32, site: u32, state: &mut [u8]) -> Verdict
    ensures { simulate_of plan.now code node site state.old ≡ simulated state.new (verdict_of result) }
{
    let n = plan::node_count(plan);
    if let Err(fault) = checker::fit(plan, is_square(n, state.len())) {
        return Verdict::Refused(Refusal::Invalid(u8::from(fault)));
    }
    advance(plan, code, node, site, state)
}

fn record_fits(n: usize, state: usize, marks: usize, classes: usize) -> bool
    ensures { result ≡ (eqb state (n * n) && eqb marks n && eqb classes n) }
{
    is_square(n, state) && marks == n && classes == n
}

// Every node's mark, of a plan and a state that have been tested.
fn write_marks(plan: &[u8], state: &[u8], marks: &mut [u8])
    requires laid { Laid plan.now (own plan.now) state.now }
    requires marks_len { length marks.old ≡ size plan.now }
    ensures { marks.new ≡ end_marks plan.now (own plan.now) state.now }
{
    layout::write_marks(Layout::own(plan), state, marks)
}

// The record: every node's mark by its own site's row, and its class by the house's own table.
pub fn record_by(
    plan: &[u8],
    tab: &[u8],
    state: &[u8],
    marks: &mut [u8],
    classes: &mut [u8],
) -> Result<(), Fault>
    ensures { record_by_into plan.now tab.now state.now marks.old classes.old ≡ recorded (number_of result) marks.new classes.new }
{
    retention::check_table(tab)?;
    let n = plan::node_count(plan);
    let fits = record_fits(n, state.len(), marks.len(), classes.len());
    checker::fit(plan, fits)?;
    write_marks(plan, state, marks);
    retention::classify(plan, tab, marks, classes);
    Ok(())
}

// The record by the common table.
pub fn record(plan: &[u8], state: &[u8], marks: &mut [u8], classes: &mut [u8]) -> Result<(), Fault>
    ensures { record_into plan.now state.now marks.old classes.old ≡ recorded (number_of result) marks.new classes.new }
{
    let tab = retention::common_table();
    record_by(plan, &tab, state, marks, classes)
}

fn run_fits(n: usize, state: usize, steps: usize, numbers: usize) -> bool
    ensures { result ≡ (eqb state (n * n) && eqb (steps % 3) 0 && eqb numbers (steps / 3)) }
{
    is_square(n, state) && steps % 3 == 0 && numbers == steps / 3
}

fn run_all(plan: &[u8], steps: &[u8], state: &mut [u8], numbers: &mut [u8])
    requires laid { Laid plan.now (own plan.now) state.old }
    requires numbers_len { length numbers.old ≡ length steps.now / 3 }
    ensures state_after { state.new ≡ replay_from plan.now (own plan.now) state.old (steps_of steps.now) }
    ensures numbers_after { numbers.new ≡ numbers_from plan.now (own plan.now) state.old (steps_of steps.now) }
{
    for (i, number) in numbers.iter_mut().enumerate() {
        let f = 3 * i;
        let v = advance(
            plan,
            u32::from(steps[f]),
            u32::from(steps[f + 1]),
            u32::from(steps[f + 2]),
            state,
        );
        let report = Report::from(v);
        *number = report.number;
    }
}

// A list of steps in frames of three bytes, code, node and site: the state that they leave, and the number of each.
pub fn run(plan: &[u8], steps: &[u8], state: &mut [u8], numbers: &mut [u8]) -> Result<(), Fault>
    ensures { run_of plan.now steps.now state.old numbers.old ≡ ran (number_of result) state.new numbers.new }
{
    let n = plan::node_count(plan);
    let fits = run_fits(n, state.len(), steps.len(), numbers.len());
    checker::fit(plan, fits)?;
    run_all(plan, steps, state, numbers);
    Ok(())
}
