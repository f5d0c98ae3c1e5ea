// The nodes that a guard names, gathered.
ghost use Rattle.std.specs.Prelude.{◌≤◌, length};
ghost use Rattle.lists.specs.Put.{Put};
ghost use Rattle.plan.specs.Plan.{size};
ghost use Rattle.plan.specs.Check.{Accepted};
ghost use Rattle.event.specs.Event.{code_of};
ghost use Rattle.guard.specs.Family.{family, named_nodes};

use guard::family;

// The children of u but `skip`, at the front of cs, and how many they are.
fn gather(plan: &[u8], u: u8, skip: u8, cs: &mut [u8]) -> usize
    requires plan_bound { size plan.now ≤ 160 }
    requires skip_in_bounds { length (family plan.now u skip) ≤ length cs.old }
    ensures { Put (family plan.now u skip) cs.old 0 cs.new result }
{
    let n = plan::node_count(plan);
    let mut w = 0;
    for c in 1..n {
        if plan[2 * c + 1] == u && c as u8 != skip {
            cs[w] = c as u8;
            w += 1;
        }
    }
    w
}

// Those that the guard names.
pub(crate) fn named_nodes(plan: &[u8], code: u8, v: u8, cs: &mut [u8]) -> usize
    requires { Accepted plan.now × (32 ≤ length cs.old) }
    ensures { Put (named_nodes plan.now (code_of code) v) cs.old 0 cs.new result }
{
    if !family::names_family(code, plan::kind(plan, v), plan::above(plan, v)) {
        return 0;
    }
    gather(
        plan,
        family::family_parent(plan, code, v),
        family::left_out(code, v),
        cs,
    )
}
