// The simulation over any layout of rows, written once: a step, and the marks. A layout is two tables of bytes (specs/Layout.antt); empty ones give
// every node its own row. What a step means is the crate job's. Callers have checked the plan and the state's length before (`Laid`).
// A step is three numbers, code, node and site, and no struct: so C programs hand it in (`vulcedar_simulate`).
#![tactic(auto)]

ghost use Rattle.std.specs.Prelude.{◌≡◌, [], ◌+◌, ◌*◌, ◌<◌, length};
ghost use Rattle.lists.specs.Seq.{table};
ghost use Rattle.plan.specs.Plan.{size};
ghost use Rattle.event.specs.Site.{own};
ghost use Rattle.site.specs.Verdict.{verdict_of};
ghost use Rattle.job.specs.Simulation.{step_by, simulated, happen, tell, simulate, end_marks};
ghost use Rattle.layout.specs.Layout.{via, layout_by, Laid, mark_byte};

use site::{Refusal, Verdict};

// A plan of two bytes a node, the tables of its layout, and how many rows it has. Empty tables give every node its own row.
#[derive(Clone, Copy)]
pub struct Layout<'a> {
    pub plan: &'a [u8],
    pub home: &'a [u8],
    pub row: &'a [u8],
    pub rows: usize,
}

impl<'a> Layout<'a> {
    // The layout without tables: every node has its own row.
    pub fn own(plan: &'a [u8]) -> Layout<'a>
        ensures plan { result.plan.now ≡ plan.now }
        ensures own { layout_by result.rows result.home.now ≡ own plan.now }
        ensures row { via result.row.now ≡ (λ q. q) }
        ensures no_tables { (result.home.now ≡ []) × (result.row.now ≡ []) }
    {
        Layout {
            plan,
            home: &[],
            row: &[],
            rows: plan::node_count(plan),
        }
    }
}

// The entry of a table; past its end a number stands for itself.
pub fn via(table: &[u8], i: usize) -> usize
    ensures { result ≡ via table.now i }
{
    if i < table.len() {
        usize::from(table[i])
    } else {
        i
    }
}

// An event happens: its site decides on its own row.
fn happen(lay: Layout, code: u32, node: u32, state: &mut [u8]) -> Verdict
    requires { Laid lay.plan.now (layout_by lay.rows lay.home.now) state.old }
    ensures { happen lay.entry.plan.now (layout_by lay.entry.rows lay.entry.home.now) state.old code node ≡ simulated state.new (verdict_of result) }
{
    let plan = lay.plan;
    if let Err(fault) = event::check(plan, true, code, node) {
        return Verdict::Refused(Refusal::Invalid(u8::from(fault)));
    }
    let n = plan::node_count(plan);
    let k = code as u8;
    let v = node as u8;
    let q = via(lay.home, usize::from(event::host(plan, k, v)));
    let a = q * n;
    let e = a + n;
    site::decide(plan, q as u8, k, v, &mut state[a..e])
}

// Row q is told of an event that happened.
fn tell(lay: Layout, code: u32, node: u32, q: usize, state: &mut [u8]) -> Verdict
    requires { Laid lay.plan.now (layout_by lay.rows lay.home.now) state.old }
    ensures { tell lay.entry.plan.now (layout_by lay.entry.rows lay.entry.home.now) state.old code node q ≡ simulated state.new (verdict_of result) }
{
    let plan = lay.plan;
    if let Err(fault) = event::check(plan, q < lay.rows, code, node) {
        return Verdict::Refused(Refusal::Invalid(u8::from(fault)));
    }
    let n = plan::node_count(plan);
    let v = node as usize;
    let h = via(
        lay.home,
        usize::from(event::host(plan, code as u8, node as u8)),
    );
    if !event::has_bit(state[h * n + v], code as u8) {
        return Verdict::Refused(Refusal::Untrue);
    }
    let at = q * n + v;
    state[at] = event::with_bit(state[at], code as u8);
    Verdict::Heard
}

// One step. Site 255: the event happens; any other number names, by the table `row`, the row that is told of it.
pub fn simulate(lay: Layout, code: u32, node: u32, site: u32, state: &mut [u8]) -> Verdict
    requires { Laid lay.plan.now (layout_by lay.rows lay.home.now) state.old }
    ensures { simulate lay.entry.plan.now (layout_by lay.entry.rows lay.entry.home.now) state.old (step_by (via lay.entry.row.now) code node site) ≡ simulated state.new (verdict_of result) }
{
    if site == 255 {
        return happen(lay, code, node, state);
    }
    tell(lay, code, node, via(lay.row, site as usize), state)
}

// The mark that a byte of the row of a node's own site shows: the first bit that is set, in the order of rule B6. A table of pairs would be no plainer.
fn mark_byte(b: u8) -> u8
    ensures { result ≡ mark_byte b }
{
    if event::has_bit(b, 3) {
        return 3;
    }
    if event::has_bit(b, 4) {
        return 4;
    }
    if event::has_bit(b, 8) {
        return 5;
    }
    if event::has_bit(b, 2) {
        return 2;
    }
    if event::has_bit(b, 1) {
        return 1;
    }
    0
}

// Every node's mark, one byte a node.
pub fn write_marks(lay: Layout, state: &[u8], marks: &mut [u8])
    requires laid { Laid lay.plan.now (layout_by lay.rows lay.home.now) state.now }
    requires marks_len { length marks.old ≡ size lay.plan.now }
    ensures { marks.new ≡ end_marks lay.entry.plan.now (layout_by lay.entry.rows lay.entry.home.now) state.now }
{
    let n = plan::node_count(lay.plan);
    for v in 0..n {
        marks[v] = mark_byte(state[via(lay.home, v) * n + v]);
    }
}
