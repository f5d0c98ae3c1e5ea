// A whole simulation as a function from text to text: reads a table of classes, a plan and steps, runs them from zeros and prints the numbers and the record.
// A text's number and what it prints are specs/Script.antt. No public function has a `requires`.
#![tactic(auto)]

ghost use Rattle.std.specs.Prelude.{◌≡◌, ◌+◌, ◌*◌, ◌%◌, ◌≤◌, length};
ghost use Rattle.fault.specs.Number.{number_of};
ghost use Rattle.lists.specs.Put.{Put};
ghost use Rattle.plan.specs.Plan.{size};
ghost use Rattle.plan.specs.Check.{check_number};
ghost use Rattle.event.specs.Site.{own};
ghost use Rattle.retention.specs.Record.{table_number, record_of};
ghost use Rattle.job.specs.Simulation.{end_marks};
ghost use Rattle.simulation.specs.Run.{steps_of};
ghost use Rattle.text.specs.Calls.{printing};
ghost use Rattle.script.specs.Script.{number_line, node_line, number_lines, node_lines, simulation_lines, rehearse_into, text_run, text_result, lines_into, run_text_into, read_number, AllZero};

use fault::Fault;

// The line of a number.
fn put_number(number: u8, out: &mut [u8], at: usize) -> usize
    requires { at + 3 ≤ length out.old }
    ensures { Put (number_line number) out.old at out.new result }
{
    let line = [number];
    text::put_line(&line, out, at)
}

// A line for each number.
fn put_numbers(numbers: &[u8], out: &mut [u8]) -> usize
    requires { 3 * length numbers.now ≤ length out.old }
    ensures { Put (number_lines numbers.now) out.old 0 out.new result }
{
    let mut w = 0;
    for &number in numbers {
        w = put_number(number, out, w);
    }
    w
}

// The line of a node.
fn put_node(plan: &[u8], marks: &[u8], classes: &[u8], v: u8, out: &mut [u8], at: usize) -> usize
    requires { at + 9 ≤ length out.old }
    ensures { Put (node_line plan.now (record { marks = marks.entry.now; classes = classes.now }) v) out.old at out.new result }
{
    let i = usize::from(v);
    let k = plan::kind(plan, v);
    let mark = plan::byte_at(marks, i);
    let class = plan::byte_at(classes, i);
    let line = [v, k, mark, class];
    text::put_line(&line, out, at)
}

// A line for each node.
fn put_nodes(plan: &[u8], marks: &[u8], classes: &[u8], out: &mut [u8], at: usize) -> usize
    requires plan_bound { size plan.now ≤ 160 }
    requires plan_in_bounds { at + 9 * size plan.now ≤ length out.old }
    ensures { Put (node_lines plan.now (record { marks = marks.entry.now; classes = classes.now })) out.old at out.new result }
{
    let n = plan::node_count(plan);
    let mut w = at;
    for v in 0..n {
        w = put_node(plan, marks, classes, v as u8, out, w);
    }
    w
}

// Zeros, as many as their place has room for.
fn zeros<const N: usize>() -> [u8; N]
    ensures { AllZero N result }
{
    [0; N]
}

// A line for each node, by the record of a state and a table.
fn put_record(plan: &[u8], tab: &[u8], state: &[u8], out: &mut [u8], at: usize) -> usize
    requires tab_value { (table_number tab.now ≡ 0) × (check_number plan.now ≡ 0) }
    requires state_len { length state.now ≡ size plan.now * size plan.now }
    requires at_in_bounds { at + 1440 ≤ length out.old }
    ensures { Put (node_lines plan.now (record_of plan.now tab.now (end_marks plan.now (own plan.now) state.now))) out.old at out.new result }
{
    let n = plan::node_count(plan);
    let mut marks = zeros::<NODES>();
    let mut classes = zeros::<NODES>();
    // no fault: the table, the plan and the lengths are right
    let _ = simulation::record_by(plan, tab, state, &mut marks[..n], &mut classes[..n]);
    put_nodes(plan, &marks[..n], &classes[..n], out, at)
}

// A plan has at most 160 nodes, and a text of 32,768 bytes at most 4,681 steps.
const NODES: usize = 160;

const STEPS: usize = 4681;

// A plan and steps in frames of three bytes, by a table: the plan's fault, or `out` is too short, or the lines at its front and their length.
fn run_plan(plan: &[u8], tab: &[u8], steps: &[u8], out: &mut [u8]) -> Result<usize, Fault>
    requires tab_value { table_number tab.now ≡ 0 }
    requires plan_len_bound { length plan.now ≤ 320 }
    requires steps_len_bound { (length steps.now ≤ 14043) × (length steps.now % 3 ≡ 0) }
    ensures { lines_into (check_number plan.now) (simulation_lines tab.now plan.now (steps_of steps.now)) out.old ≡ text_run (text_result result) out.new }
{
    let n = plan::node_count(plan);
    let cells = n * n;
    let m = steps.len() / 3;
    let mut state = zeros::<25600>();
    let mut numbers = zeros::<STEPS>();
    simulation::run(plan, steps, &mut state[..cells], &mut numbers[..m])?;
    if out.len() < 16384 {
        return Err(Fault::BadBuffer);
    }
    let w = put_numbers(&numbers[..m], out);
    Ok(put_record(plan, tab, &state[..cells], out, w))
}

// A table that was read into 12 bytes is checked, by its bytes in the text: none, or six lines.
fn check_table(head: usize, tab: &[u8]) -> Result<(), Fault>
    ensures { number_of result ≡ read_number head tab.now }
{
    if head != 0 && head != 33 {
        return Err(Fault::BadTable);
    }
    retention::check_table(tab)
}

// Runs a text: its fault, 15, 21 or 1 to 6, then 7 where `out` is shorter than 16,384 bytes; these leave `out`. Else its lines stand at the front
// of `out`, and their length is told.
pub fn run_text(text: &[u8], out: &mut [u8]) -> Result<usize, Fault>
    ensures { run_text_into text.now out.old ≡ text_run (text_result result) out.new }
{
    let mut tab = retention::common_table();
    let mut plan = zeros::<320>();
    let mut steps = zeros::<14043>();
    let Some(counts) = text::read(text, &mut tab, &mut plan, &mut steps) else {
        return Err(Fault::BadText);
    };
    check_table(counts.head, &tab)?;
    let n = counts.plan;
    let m = counts.steps;
    if NODES < n {
        return Err(Fault::BadLength);
    }
    let a = 2 * n;
    let b = 3 * m;
    run_plan(&plan[..a], &tab, &steps[..b], out)
}

// Prints what a text gives at the front of `out`, a refused text's number alone, and answers its length; where `out` is shorter than 16,384 bytes,
// leaves it and answers 0.
pub fn rehearse(text: &[u8], out: &mut [u8]) -> usize
    ensures { rehearse_into text.now out.old ≡ printing result out.new }
{
    if out.len() < 16384 {
        return 0;
    }
    match run_text(text, out) {
        Ok(length) => length,
        Err(fault) => put_number(u8::from(fault), out, 0),
    }
}
