// The record of the single pass: its marks, and their classes by a table. What the call answers and leaves is specs/PassRecord.antt. The
// public function has no `requires`; the pass runs once.
#![tactic(auto)]

ghost use Rattle.std.specs.Prelude.{◌≡◌};
ghost use Rattle.fault.specs.Number.{number_of};
ghost use Rattle.retention.specs.Record.{recorded};
ghost use Rattle.pass_record.specs.PassRecord.{pass_record_into};

use fault::Fault;

// Every node's mark by the pass over these answers, and its class by the house's own table.
pub fn pass_record(
    plan: &[u8],
    table: &[u8],
    answers: &[u8],
    marks: &mut [u8],
    classes: &mut [u8],
) -> Result<(), Fault>
    ensures { pass_record_into plan.now table.now answers.now marks.old classes.old ≡ recorded (number_of result) marks.new classes.new }
{
    retention::check_table(table)?;
    if classes.len() != plan::node_count(plan) {
        return checker::fit(plan, false);
    }
    pass::pass(plan, answers, marks)?;
    retention::classify(plan, table, marks, classes);
    Ok(())
}
