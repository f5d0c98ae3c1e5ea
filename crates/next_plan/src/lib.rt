// The next small plan, as code. What the call answers and leaves is specs/Call.antt of the crate small_plans. It goes through candidates, lists
// whose bytes are each in the range of their place, and skips those that begin like no plan. A refused call leaves the lent bytes.
#![tactic(auto)]

ghost use Rattle.std.specs.Prelude.{◌≡◌, ◌≤◌, ◌<◌, length, take};
ghost use Rattle.fault.specs.Number.{number_of, value_of};
ghost use Rattle.plan.specs.Plan.{kind_number};
ghost use Rattle.plan.specs.Check.{Accepted};
ghost use Rattle.plan.specs.Made.{made};
ghost use Rattle.lists.specs.Smallest.{is_found};
ghost use Rattle.small_plans.specs.Call.{next_of};
ghost use Rattle.small_plans.specs.Claim.{Small};
ghost use Rattle.next_plan.specs.Candidates.{lowest, highest, Candidate, advance, or_lows, following};
ghost use Rattle.next_plan.specs.Search.{children_needed, Dead, Found};

use fault::Fault;
use plan::kinds::Kind;

// The least byte at place i of a plan.
fn lowest(i: usize) -> u8
    ensures { result ≡ lowest i }
{
    if i % 2 == 0 {
        return 1;
    }
    if i == 1 { 255 } else { 0 }
}

// The greatest in a plan of n bytes. The last node is a task.
fn highest(n: usize, i: usize) -> u8
    requires { i < 12 }
    ensures { result ≡ highest n i }
{
    if i % 2 == 0 {
        return if i + 2 == n { 1 } else { 8 };
    }
    if i == 1 {
        return 255;
    }
    (i / 2 - 1) as u8
}

// To the next list that differs at a place before k, and whether there is one; if not, the least bytes are left.
fn advance(q: &mut [u8], k: usize) -> bool
    requires { length q.old ≤ 12 }
    ensures value { result ≡ is_found (advance (length q.old) k 0 q.old) }
    ensures q_after { q.new ≡ or_lows (advance (length q.old) k 0 q.old) (length q.old) }
{
    let n = q.len();
    for i in (0..n).rev() {
        let b = q[i];
        if i < k && b < highest(n, i) {
            q[i] = b + 1;
            return true;
        }
        q[i] = lowest(i);
    }
    false
}

// From the candidate in the first n bytes to the next that differs before k, and its length.
fn follow(q: &mut [u8], n: usize, k: usize) -> usize
    requires { (length q.old ≡ 12) × (0 < n) × (n ≤ 10) × Candidate (take n q.old) }
    ensures { (result ≤ 12) × (take result q.new ≡ following k (take n q.old)) }
{
    if advance(&mut q[..n], k) {
        return n;
    }
    q[n] = 1;
    q[n + 1] = 0;
    n + 2
}

fn children_needed(kind: Kind) -> usize
    ensures { result ≡ children_needed (kind_number kind) }
{
    match kind {
        Kind::Task => 0,
        Kind::Conditional => 2,
        _ => 1,
    }
}

// How many bytes in front of a refused candidate no plan of its length begins with: up to a kind with which the nodes so far need more children
// than there can be, or a parent that is a task; all, if there is neither.
fn dead_front(q: &[u8]) -> usize
    requires { Candidate q.now × (length q.now ≤ 12) × (Accepted q.now → ⊥) }
    ensures { Dead q.now result }
{
    let n = plan::node_count(q);
    let mut needed = 0;
    for v in 0..n {
        needed += children_needed(Kind::from(checker::kind_at(q, v)));
        if n <= needed {
            return 2 * v + 1;
        }
        if !checker::under_block(q, v) {
            return 2 * v + 2;
        }
    }
    q.len()
}

// From the plan in the first n bytes to the next small plan, if there is one, and its length.
fn search(q: &mut [u8], n: usize) -> Option<usize>
    requires { (length q.old ≡ 12) × (n ≤ 10) × Small (take n q.old) }
    ensures { Found (take n q.old) q.new result }
{
    let mut m = n;
    let mut k = n;
    loop {
        m = follow(q, m, k);
        if 10 < m {
            return None;
        }
        if checker::check(&q[..m]).is_ok() {
            return Some(m);
        }
        k = dead_front(&q[..m]);
    }
}

// The next small plan, of a plan of at most five nodes. `out` has to be 10 bytes; the next plan is written to its front, and the answer is its
// number of nodes.
pub fn next_plan(plan: &[u8], out: &mut [u8]) -> Result<u8, Fault>
    ensures { next_of plan.now out.old ≡ made (number_of result) (value_of result) out.new }
{
    checker::check(plan)?;
    let n = plan.len();
    if 10 < n {
        return Err(Fault::NotSmall);
    }
    let mut q = [0u8; 12];
    q[..n].copy_from_slice(plan);
    let m = search(&mut q, n).ok_or(Fault::LastPlan)?;
    if out.len() != 10 {
        return Err(Fault::BadBuffer);
    }
    out[..m].copy_from_slice(&q[..m]);
    Ok((m / 2) as u8)
}
