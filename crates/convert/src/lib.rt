// The forms of a plan, as code: a plan renumbered, a plan as a depth form, and a depth form as a plan. What each call answers and leaves is
// specs/Renumber.antt of the crate trees and specs/Calls.antt of the crate depth_form. No public function has a `requires`; each is linear in
// the nodes, and a refused call leaves the lent bytes.
#![tactic(auto)]

ghost use Rattle.std.specs.Prelude.{◌≡◌, true, ◌<◌, length};
ghost use Rattle.fault.specs.Number.{number_of};
ghost use Rattle.plan.specs.Plan.{size};
ghost use Rattle.plan.specs.Check.{length_ok, at_all, Accepted};
ghost use Rattle.trees.specs.Numbering.{renumbered, is_above, in_preorder};
ghost use Rattle.plan.specs.Replaced.{replaced};
ghost use Rattle.trees.specs.Renumber.{renumber_of};
ghost use Rattle.depth_form.specs.Form.{depth_form, depth_at, form_plan, level_ok};
ghost use Rattle.depth_form.specs.Calls.{to_depths_of, from_depths_of};

use fault::Fault;

// Whether u is v or above v: climbs from v while that is behind u.
fn is_above(plan: &[u8], u: usize, v: usize) -> bool
    requires { Accepted plan.now × (v < size plan.now) }
    ensures { result ≡ is_above plan.now u v }
{
    let mut w = v;
    while u < w {
        w = checker::parent_at(plan, w);
    }
    w == u
}

// Whether the plan is in the fixed numbering. A node is climbed from only when its subtree ends, so all climbs together are linear. No `all` in
// place of the loop: its closure would ask anew for all that the loop knows of v.
fn in_preorder(plan: &[u8]) -> bool
    requires { Accepted plan.now }
    ensures { result ≡ in_preorder plan.now }
{
    for v in 1..plan::node_count(plan) {
        if !is_above(plan, checker::parent_at(plan, v), v - 1) {
            return false;
        }
    }
    true
}

fn write_renumbered(plan: &[u8], out: &mut [u8])
    requires { Accepted plan.now × (length out.old ≡ length plan.now) }
    ensures { out.new ≡ renumbered plan.now }
{
    let links = links::link(plan);
    placing::place(plan, &links, out, 0, 255, 0);
}

// The same tree in the fixed numbering, into `out`, which has to have the plan's length.
pub fn renumber(plan: &[u8], out: &mut [u8]) -> Result<(), Fault>
    ensures { renumber_of plan.now out.old ≡ replaced (number_of result) out.new }
{
    checker::fit(plan, out.len() == plan.len())?;
    write_renumbered(plan, out);
    Ok(())
}

// A node's depth is one more than its parent's, which is written before it.
fn write_depths(plan: &[u8], out: &mut [u8])
    requires { Accepted plan.now × (length out.old ≡ length plan.now) }
    ensures { out.new ≡ depth_form plan.now }
{
    placing::set_line(out, 0, checker::kind_at(plan, 0), 1);
    for v in 1..plan::node_count(plan) {
        let u = checker::parent_at(plan, v);
        let d = out[2 * u + 1] + 1;
        placing::set_line(out, v, checker::kind_at(plan, v), d);
    }
}

// The depth form of a plan, into `out`: the plan has to be in the fixed numbering, and `out` to have its length.
pub fn to_depths(plan: &[u8], out: &mut [u8]) -> Result<(), Fault>
    ensures { to_depths_of plan.now out.old ≡ replaced (number_of result) out.new }
{
    checker::check(plan)?;
    if !in_preorder(plan) {
        return Err(Fault::NotRenumbered);
    }
    if out.len() != plan.len() {
        return Err(Fault::BadBuffer);
    }
    write_depths(plan, out);
    Ok(())
}

fn depth_at(depths: &[u8], v: usize) -> usize
    requires { v < size depths.now }
    ensures { result ≡ depth_at depths.now v }
{
    usize::from(depths[2 * v + 1])
}

fn level_ok(depths: &[u8], v: usize) -> bool
    requires { v < size depths.now }
    ensures { result ≡ level_ok depths.now v }
{
    let e = depth_at(depths, v);
    if v == 0 {
        return e == 1;
    }
    let before = depth_at(depths, v - 1);
    (2 <= e) & (e <= before + 1)
}

// As in the check, the loop runs on behind a failed test, and has no closure for its test: the closure's clauses would be longer than the loop.
fn levels_ok(depths: &[u8]) -> bool
    ensures { result ≡ at_all level_ok depths.now }
{
    let mut ok = true;
    for v in 0..plan::node_count(depths) {
        ok = ok & level_ok(depths, v);
    }
    ok
}

// `last` has, for each depth, the last line so far that has it; a depth is at most one more than the line's number.
fn write_plan(depths: &[u8], out: &mut [u8])
    requires { (length_ok depths.now ≡ true) × (at_all level_ok depths.now ≡ true) × (length out.old ≡ length depths.now) }
    ensures { out.new ≡ form_plan depths.now }
{
    let mut last = [0u8; 161];
    placing::set_line(out, 0, checker::kind_at(depths, 0), 255);
    for v in 1..plan::node_count(depths) {
        let e = depth_at(depths, v);
        placing::set_line(out, v, checker::kind_at(depths, v), last[e - 1]);
        last[e] = v as u8;
    }
}

// The plan of a depth form, into `out`, which has to have the form's length: the tests of a plan, but for those of its depths in place of
// parents.
pub fn from_depths(depths: &[u8], out: &mut [u8]) -> Result<(), Fault>
    ensures { from_depths_of depths.now out.old ≡ replaced (number_of result) out.new }
{
    if !checker::length_ok(depths) {
        return Err(Fault::BadLength);
    }
    if !checker::kinds_ok(depths) {
        return Err(Fault::BadKind);
    }
    if !levels_ok(depths) {
        return Err(Fault::BadDepth);
    }
    let n = depths.len();
    let mut plan = [0u8; 320];
    write_plan(depths, &mut plan[..n]);
    checker::fit(&plan[..n], out.len() == n)?;
    out.copy_from_slice(&plan[..n]);
    Ok(())
}
