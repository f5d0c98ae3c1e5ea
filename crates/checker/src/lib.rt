// The check of a plan, as code. What it answers and accepts is specs/Check.antt of the crate plan, its second form specs/Depths.antt. Both forms
// are linear in the nodes. The two reads at a node and test 4 at a node ask that there is such a node; no other public function has a `requires`.
#![tactic(auto)]

ghost use Rattle.std.specs.Prelude.{◌≡◌, ◌<◌, length, replicate};
ghost use Rattle.lists.specs.Seq.{table};
ghost use Rattle.fault.specs.Number.{number_of};
ghost use Rattle.plan.specs.Plan.{kind_of, size, kind_byte, parent, child_count, depth};
ghost use Rattle.plan.specs.Check.{length_ok, kind_ok, parent_ok, under_block, fits, count_ok, depth_ok, at_all, check_number, fit_number, Ordered};
ghost use Rattle.checker.specs.Depths.{checked, depths_front, depths_of};

use fault::Fault;

pub fn kind_at(plan: &[u8], v: usize) -> u8
    requires { v < size plan.now }
    ensures { result ≡ kind_byte plan.now v }
{
    plan[2 * v]
}

pub fn parent_at(plan: &[u8], v: usize) -> usize
    requires { v < size plan.now }
    ensures { result ≡ parent plan.now v }
{
    usize::from(plan[2 * v + 1])
}

// Test 1 alone.
pub fn length_ok(plan: &[u8]) -> bool
    ensures { result ≡ length_ok plan.now }
{
    let n = plan.len();
    if n % 2 != 0 {
        return false;
    }
    0 < n && n <= 320
}

fn kind_ok(plan: &[u8], v: usize) -> bool
    requires { v < size plan.now }
    ensures { result ≡ kind_ok plan.now v }
{
    let k = kind_at(plan, v);
    1 <= k && k <= 8
}

// Test 2 alone. Here and below a loop runs on behind a failed test: that is faster where none fails. One loop for all tests, with the test as a
// closure, would be no plainer: its clauses on the closure are longer than the loops.
pub fn kinds_ok(plan: &[u8]) -> bool
    ensures { result ≡ at_all kind_ok plan.now }
{
    let n = plan::node_count(plan);
    let mut ok = true;
    for v in 0..n {
        ok = ok & kind_ok(plan, v);
    }
    ok
}

fn parent_ok(plan: &[u8], v: usize) -> bool
    requires { v < size plan.now }
    ensures { result ≡ parent_ok plan.now v }
{
    let u = parent_at(plan, v);
    if v == 0 {
        return u == 255;
    }
    u < v
}

fn parents_ok(plan: &[u8]) -> bool
    ensures { result ≡ at_all parent_ok plan.now }
{
    let n = plan::node_count(plan);
    let mut ok = true;
    for v in 0..n {
        ok = ok & parent_ok(plan, v);
    }
    ok
}

// Test 4 at a node: its parent can have children. By the byte, as H4 says it: one that is no kind is not a task's.
pub fn under_block(plan: &[u8], v: usize) -> bool
    requires { Ordered plan.now × (v < size plan.now) }
    ensures { result ≡ under_block plan.now v }
{
    if v == 0 {
        return true;
    }
    let u = parent_at(plan, v);
    kind_at(plan, u) != 1
}

// Whether no parent is a task, and whether no depth is above 32.
#[derive(Drop)]
struct Surveyed {
    blocks: bool,
    shallow: bool,
}

// Leaves each node's number of children in `counts`, which is one zero a node, and its depth in `depths`, one byte a node. One loop for all
// of it: it waits for `counts` at every turn, and the rest costs nothing.
fn survey(plan: &[u8], counts: &mut [u8], depths: &mut [u8]) -> Surveyed
    requires { Ordered plan.now × (counts.old ≡ replicate (size plan.now) 0) × (length depths.old ≡ size plan.now) }
    ensures blocks_value { (result.blocks ≡ at_all under_block plan.now) × (result.shallow ≡ at_all depth_ok plan.now) }
    ensures counts_after { counts.new ≡ table (child_count plan.now) (size plan.now) }
    ensures depths_after { depths.new ≡ table (depth plan.now) (size plan.now) }
{
    let n = plan::node_count(plan);
    let mut blocks = true;
    let mut shallow = true;
    depths[0] = 1;
    for v in 1..n {
        blocks = blocks & under_block(plan, v);
        let u = parent_at(plan, v);
        counts[u] = counts[u] + 1;
        let d = depths[u] + 1;
        shallow = shallow & (d <= 32);
        depths[v] = d;
    }
    Surveyed { blocks, shallow }
}

// By the byte: by the kind that it stands for, the check of 160 nodes took 730 nanoseconds in place of 520.
fn count_ok(k: u8, n: u8) -> bool
    ensures { result ≡ fits (kind_of k) n }
{
    match k {
        2..=6 => 1 <= n && n <= 32,
        7 => n == 2,
        8 => 1 <= n && n <= 32,
        _ => n == 0,
    }
}

fn counts_match(plan: &[u8], counts: &[u8]) -> bool
    requires { counts.now ≡ table (child_count plan.now) (size plan.now) }
    ensures { result ≡ at_all count_ok plan.now }
{
    let n = plan::node_count(plan);
    let mut ok = true;
    for v in 0..n {
        ok = ok & count_ok(kind_at(plan, v), counts[v]);
    }
    ok
}

// The first test that the plan fails; or nothing, and each node's depth in the front of `depths`, which is zeros before.
fn check_into(plan: &[u8], depths: &mut [u8]) -> Result<(), Fault>
    requires { depths.old ≡ replicate 160 0 }
    ensures value { number_of result ≡ check_number plan.now }
    ensures depths_after { number_of result ≡ 0 → depths.new ≡ depths_front plan.now }
{
    if !length_ok(plan) {
        return Err(Fault::BadLength);
    }
    if !kinds_ok(plan) {
        return Err(Fault::BadKind);
    }
    if !parents_ok(plan) {
        return Err(Fault::BadParent);
    }
    let n = plan::node_count(plan);
    let mut counts = [0u8; 160];
    let found = survey(plan, &mut counts[..n], &mut depths[..n]);
    if !found.blocks {
        return Err(Fault::TaskParent);
    }
    if !counts_match(plan, &counts[..n]) {
        return Err(Fault::BadChildren);
    }
    if !found.shallow {
        return Err(Fault::TooDeep);
    }
    Ok(())
}

// The first test that the plan fails.
pub fn check(plan: &[u8]) -> Result<(), Fault>
    ensures { number_of result ≡ check_number plan.now }
{
    let mut depths = [0u8; 160];
    check_into(plan, &mut depths[..160])
}

// The same; and where none fails, whether `fits`: the lengths of what is lent beside the plan are right.
pub fn fit(plan: &[u8], fits: bool) -> Result<(), Fault>
    ensures { number_of result ≡ fit_number plan.now fits }
{
    check(plan)?;
    if fits { Ok(()) } else { Err(Fault::BadBuffer) }
}

// The check, and every node's depth in `out`, which has to be one byte a node. A refused call leaves `out`.
pub fn check_depths(plan: &[u8], out: &mut [u8]) -> Result<(), Fault>
    ensures { depths_of plan.now out.old ≡ checked out.new (number_of result) }
{
    let mut depths = [0u8; 160];
    check_into(plan, &mut depths[..160])?;
    let n = plan::node_count(plan);
    if out.len() != n {
        return Err(Fault::BadBuffer);
    }
    lists::copy(&depths[..n], out);
    Ok(())
}
