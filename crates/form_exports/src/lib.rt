// Exported functions (include/vulcedar.h): plans that are written, from an older one, another editor's, a template or the small plan before.
// Nothing else: numbers are 32 bits wide and are not cut, a slice is a pointer and a length, and every length is tested inside. What a result
// holds is the crate results's.
#![tactic(auto)]

ghost use Rattle.std.specs.Prelude.{◌≡◌};
ghost use Rattle.rewrite.specs.Rewrite.{rewrite_of};
ghost use Rattle.trees.specs.Renumber.{renumber_of};
ghost use Rattle.depth_form.specs.Calls.{to_depths_of, from_depths_of};
ghost use Rattle.template.specs.Call.{repeat_of};
ghost use Rattle.small_plans.specs.Call.{next_of};
ghost use Rattle.results.specs.Result.{result_of, of_made};

#[unsafe(no_mangle)]
pub extern "C" fn vulcedar_rewrite(plan: &[u8], out: &mut [u8]) -> u32
    ensures value { result ≡ result_of (rewrite_of plan.now out.old).number 0 0 }
    ensures out_after { out.new ≡ (rewrite_of plan.now out.old).out }
{
    results::of_done(rewrite::rewrite(plan, out))
}

#[unsafe(no_mangle)]
pub extern "C" fn vulcedar_renumber(plan: &[u8], out: &mut [u8]) -> u32
    ensures value { result ≡ result_of (renumber_of plan.now out.old).number 0 0 }
    ensures out_after { out.new ≡ (renumber_of plan.now out.old).out }
{
    results::of_done(convert::renumber(plan, out))
}

#[unsafe(no_mangle)]
pub extern "C" fn vulcedar_to_depths(plan: &[u8], out: &mut [u8]) -> u32
    ensures value { result ≡ result_of (to_depths_of plan.now out.old).number 0 0 }
    ensures out_after { out.new ≡ (to_depths_of plan.now out.old).out }
{
    results::of_done(convert::to_depths(plan, out))
}

#[unsafe(no_mangle)]
pub extern "C" fn vulcedar_from_depths(depths: &[u8], out: &mut [u8]) -> u32
    ensures value { result ≡ result_of (from_depths_of depths.now out.old).number 0 0 }
    ensures out_after { out.new ≡ (from_depths_of depths.now out.old).out }
{
    results::of_done(convert::from_depths(depths, out))
}

#[unsafe(no_mangle)]
pub extern "C" fn vulcedar_repeat(plan: &[u8], node: u32, count: u32, out: &mut [u8]) -> u32
    ensures value { result ≡ of_made (repeat_of plan.now node count out.old) }
    ensures out_after { out.new ≡ (repeat_of plan.now node count out.old).out }
{
    results::of_value(repeat::repeat(plan, node, count, out))
}

#[unsafe(no_mangle)]
pub extern "C" fn vulcedar_next_plan(plan: &[u8], out: &mut [u8]) -> u32
    ensures value { result ≡ of_made (next_of plan.now out.old) }
    ensures out_after { out.new ≡ (next_of plan.now out.old).out }
{
    results::of_value(next_plan::next_plan(plan, out))
}
