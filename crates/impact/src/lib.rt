// One answer changed: the marks of a pass follow another result of one task. What the call answers and leaves is
// `impact_into` in specs/Impact.antt of the crate reach, which also claims how far a change can go. The public function has no `requires`; a
// refused call leaves the marks.
#![tactic(auto)]

ghost use Rattle.std.specs.Prelude.{◌≡◌, ◌<◌, length, set};
ghost use Rattle.fault.specs.Number.{number_of};
ghost use Rattle.plan.specs.Plan.{size};
ghost use Rattle.pass.specs.Pass.{pass, pass_result, pass_into};
ghost use Rattle.reach.specs.Impact.{impact_into};
ghost use Rattle.impact.specs.Change.{Changeable, change_into, ToldOf};

use fault::Fault;
use plan::kinds::Kind;

// Copies the answers, with x at t.
fn replace(answers: &[u8], t: usize, x: u8, out: &mut [u8])
    requires { (length answers.now ≡ length out.old) × (t < length answers.now) }
    ensures { out.new ≡ set answers.now t x }
{
    out.copy_from_slice(answers);
    out[t] = x;
}

// The pass over the answers with x at t.
fn pass_new(plan: &[u8], answers: &[u8], t: usize, x: u8, marks: &mut [u8]) -> Result<(), Fault>
    requires { Changeable plan.now answers.now t × (length marks.old ≡ size plan.now) }
    ensures { pass_into plan.now (set answers.now t x) marks.old ≡ pass_result (number_of result) marks.new }
{
    let n = plan::node_count(plan);
    let mut next = [0u8; 160];
    replace(answers, t, x, &mut next[..n]);
    pass::settle_all(plan, &next[..n], marks)
}

// The same, without its marks.
fn check_new(plan: &[u8], answers: &[u8], t: usize, x: u8) -> Result<(), Fault>
    requires { Changeable plan.now answers.now t }
    ensures { number_of result ≡ (pass plan.now (set answers.now t x)).number }
{
    let n = plan::node_count(plan);
    let mut scratch = [0u8; 160];
    pass_new(plan, answers, t, x, &mut scratch[..n])
}

// The pass over the answers as they are: whether it leaves these marks.
fn passes_to(plan: &[u8], answers: &[u8], marks: &[u8], t: usize) -> Result<bool, Fault>
    requires { Changeable plan.now answers.now t × (length marks.now ≡ size plan.now) }
    ensures { ToldOf plan.now answers.now marks.now result }
{
    let n = plan::node_count(plan);
    let mut scratch = [0u8; 160];
    pass::settle_all(plan, answers, &mut scratch[..n])?;
    Ok(marks == &scratch[..n])
}

// The change, for a plan, lengths and a task that are right.
fn change(plan: &[u8], answers: &[u8], marks: &mut [u8], t: usize, answer: u32) -> Result<(), Fault>
    requires { Changeable plan.now answers.now t × (length marks.old ≡ size plan.now) }
    ensures { change_into plan.now answers.now marks.old t answer ≡ pass_result (number_of result) marks.new }
{
    let same = passes_to(plan, answers, marks, t)?;
    if 255 < answer {
        return Err(Fault::BadAnswer);
    }
    let x = answer as u8;
    if same {
        return pass_new(plan, answers, t, x, marks);
    }
    check_new(plan, answers, t, x)?;
    Err(Fault::BadMarks)
}

// Changes the answer of one task: what was refused and the marks as they were, or the marks of the pass over the new answers.
pub fn impact(
    plan: &[u8],
    answers: &[u8],
    marks: &mut [u8],
    task: u32,
    answer: u32,
) -> Result<(), Fault>
    ensures { impact_into plan.now answers.now marks.old task answer ≡ pass_result (number_of result) marks.new }
{
    let n = plan::node_count(plan);
    checker::fit(plan, (answers.len() == n) & (marks.len() == n))?;
    let t = task as usize;
    if n <= t {
        return Err(Fault::NotInPlan);
    }
    if Kind::from(plan[2 * t]) != Kind::Task {
        return Err(Fault::NotApplicable);
    }
    change(plan, answers, marks, t, answer)
}
