// Exported functions (include/vulcedar.h): a site and its guards, and the central rule.
// Nothing else: numbers are 32 bits wide and are not cut, a slice is a pointer and a length, and every length is tested inside. What a result
// holds is the crate results's.
#![tactic(auto)]

ghost use Rattle.std.specs.Prelude.{◌≡◌};
ghost use Rattle.guard.specs.Rule.{rule_answer};
ghost use Rattle.writer.specs.Written.{write_of};
ghost use Rattle.site.specs.Step.{step_of, hear_of};
ghost use Rattle.central.specs.Rule.{rule_of};
ghost use Rattle.results.specs.Result.{of_written, of_found_rule, of_verdict, of_ruling};

#[unsafe(no_mangle)]
pub extern "C" fn vulcedar_guard(plan: &[u8], code: u32, node: u32, buf: &mut [u8]) -> u32
    ensures value { result ≡ of_written (write_of plan.now code node buf.old).answer }
    ensures buf_after { buf.new ≡ (write_of plan.now code node buf.old).buffer }
{
    match writer::write_guard(plan, code, node, buf) {
        Ok(guard) => results::packed(0, guard.rule) + 65536 * u32::from(guard.length),
        Err(fault) => results::of_fault(fault),
    }
}

#[unsafe(no_mangle)]
pub extern "C" fn vulcedar_rule(plan: &[u8], code: u32, node: u32) -> u32
    ensures { result ≡ of_found_rule (rule_answer plan.now code node) }
{
    results::of_value(guard::rule(plan, code, node))
}

#[unsafe(no_mangle)]
pub extern "C" fn vulcedar_step(plan: &[u8], code: u32, node: u32, row: &mut [u8]) -> u32
    ensures value { result ≡ of_verdict (step_of plan.now code node row.old).verdict }
    ensures row_after { row.new ≡ (step_of plan.now code node row.old).row }
{
    // read where it stands: a verdict that is handed on costs a step more
    match site::step(plan, code, node, row) {
        site::Verdict::Passed(e) => results::with_value(0, e.site, e.rule),
        site::Verdict::Heard => 0,
        site::Verdict::Refused(why) => results::of_refusal(why),
    }
}

#[unsafe(no_mangle)]
pub extern "C" fn vulcedar_hear(plan: &[u8], code: u32, node: u32, row: &mut [u8]) -> u32
    ensures value { result ≡ of_verdict (hear_of plan.now code node row.old).verdict }
    ensures row_after { row.new ≡ (hear_of plan.now code node row.old).row }
{
    results::of_verdict(site::hear(plan, code, node, row))
}

#[unsafe(no_mangle)]
pub extern "C" fn vulcedar_central(
    plan: &[u8],
    code: u32,
    node: u32,
    marks: &mut [u8],
    notes: &mut [u8],
) -> u32
    ensures value { result ≡ of_ruling (rule_of plan.now code node marks.old notes.old).ruling }
    ensures marks_after { marks.new ≡ (rule_of plan.now code node marks.old notes.old).marks }
    ensures notes_after { notes.new ≡ (rule_of plan.now code node marks.old notes.old).notes }
{
    match central::rule(plan, code, node, marks, notes) {
        Ok(central::Ruling::Allowed) => 65536,
        Ok(central::Ruling::Forbidden) => 0,
        Err(why) => results::of_fault(why),
    }
}
