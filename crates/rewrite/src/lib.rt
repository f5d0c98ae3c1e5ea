// Plans made before kind 08 had and-blocks that wait under kind 03. Rewriting such a plan makes them 08 and changes nothing else. What is
// written and answered is specs/Rewrite.antt; that the plan keeps its guards, its check and its pass is specs/Kept.antt. No public function
// has a `requires`.
#![tactic(auto)]

ghost use Rattle.std.specs.Prelude.{◌≡◌, length};
ghost use Rattle.fault.specs.Number.{number_of};
ghost use Rattle.plan.specs.Replaced.{replaced};
ghost use Rattle.rewrite.specs.Rewrite.{rewritten_byte, rewritten, rewrite_of};

use fault::Fault;

// Byte i of the rewritten plan.
fn byte(plan: &[u8], i: usize) -> u8
    ensures { result ≡ rewritten_byte plan.now i }
{
    let b = plan::byte_at(plan, i);
    if i % 2 == 0 && b == 3 { 8 } else { b }
}

fn write(plan: &[u8], out: &mut [u8])
    requires { length out.old ≡ length plan.now }
    ensures { out.new ≡ rewritten plan.now }
{
    for (i, b) in out.iter_mut().enumerate() {
        *b = byte(plan, i);
    }
}

// The rewritten plan, into `out`, which has to have the plan's length.
pub fn rewrite(plan: &[u8], out: &mut [u8]) -> Result<(), Fault>
    ensures { rewrite_of plan.now out.old ≡ replaced (number_of result) out.new }
{
    checker::fit(plan, out.len() == plan.len())?;
    write(plan, out);
    Ok(())
}
