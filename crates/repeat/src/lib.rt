// A template repeated, as code. What the call answers and leaves is specs/Call.antt of the crate template. It is linear in the nodes of the
// template and of the repeated plan, and a refused call leaves the lent bytes.
#![tactic(auto)]

ghost use Rattle.std.specs.Prelude.{◌≡◌, ◌<◌, eqb, length};
ghost use Rattle.fault.specs.Number.{number_of, value_of};
ghost use Rattle.plan.specs.Plan.{kind_number, size, child_count};
ghost use Rattle.plan.specs.Check.{Accepted};
ghost use Rattle.plan.specs.Made.{made};
ghost use Rattle.links.specs.Links.{Linked};
ghost use Rattle.trees.specs.Tree.{trees_below, node_count};
ghost use Rattle.placing.specs.Place.{Placeable, Placed};
ghost use Rattle.template.specs.Repeat.{can_repeat, can_mark, repeated_below};
ghost use Rattle.template.specs.Call.{times_ok, repeat_of};
ghost use Rattle.template.specs.Claim.{Template};
ghost use Rattle.repeat.specs.Copies.{Copyable, Copied};

use fault::Fault;
use links::Links;
use plan::kinds::Kind;

fn can_repeat(kind: Kind) -> bool
    ensures { result ≡ can_repeat (kind_number kind) }
{
    matches!(kind, Kind::And | Kind::Or | Kind::Xor | Kind::Waiting)
}

fn times_ok(count: u32) -> bool
    ensures { result ≡ times_ok count }
{
    1 <= count && count <= 32
}

// Whether v has exactly one child.
fn one_child(plan: &[u8], links: &Links, v: usize) -> bool
    requires { Accepted plan.now × Linked plan.now links.now.first links.now.next × (v < size plan.now) }
    ensures { result ≡ eqb (child_count plan.now v) 1 }
{
    let c = links.first_child(v);
    c != 0 && links.next_sibling(c) == 0
}

// Whether m can be marked: such a block, and with one child.
fn can_mark(plan: &[u8], links: &Links, m: usize) -> bool
    requires { Accepted plan.now × Linked plan.now links.now.first links.now.next × (m < size plan.now) }
    ensures { result ≡ can_mark plan.now m }
{
    can_repeat(Kind::from(checker::kind_at(plan, m))) && one_child(plan, links, m)
}

// A plan with its links, its marked node, and how many times the tree of that node's child stands.
#[derive(Clone, Copy)]
struct Repetition<'a> {
    plan: &'a [u8],
    links: &'a Links,
    marked: usize,
    times: usize,
}

// Writes the tree of node c so many times, side by side below u, from the number n on, and answers the number behind them.
fn place_copies(of: Repetition, out: &mut [u8], c: usize, u: u8, n: usize) -> usize
    requires { Copyable of.plan.now of.links.now.first of.links.now.next out.old c n of.times }
    ensures { Copied of.entry.plan.now c u n of.entry.times out.old out.new result }
{
    let mut w = n;
    for _ in 0..of.times {
        w = placing::place(of.plan, of.links, out, c, u, w);
    }
    w
}

// As placing::place, but for the marked node, below which its child's tree is written so many times.
fn place_repeated(of: Repetition, out: &mut [u8], v: usize, u: u8, n: usize) -> usize
    requires { Template of.plan.now of.marked × Placeable of.plan.now of.links.now.first of.links.now.next out.old v n (repeated_below of.plan.now of.marked of.times v) }
    ensures { Placed of.entry.plan.now v u n (repeated_below of.entry.plan.now of.entry.marked of.entry.times v) out.old out.new result }
{
    placing::set_line(out, n, checker::kind_at(of.plan, v), u);
    let mut w = n + 1;
    let mut c = of.links.first_child(v);
    if v == of.marked {
        return place_copies(of, out, c, n as u8, w);
    }
    while c != 0 {
        if of.links.first_child(c) == 0 {
            placing::set_line(out, w, checker::kind_at(of.plan, c), n as u8);
            w += 1;
        } else {
            w = place_repeated(of, out, c, n as u8, w);
        }
        c = of.links.next_sibling(c);
    }
    w
}

// How many nodes v has below it: as many as are written behind it.
fn count_below(plan: &[u8], links: &Links, v: usize) -> usize
    requires { Accepted plan.now × Linked plan.now links.now.first links.now.next × (v < size plan.now) }
    ensures { result ≡ node_count (trees_below plan.now v) }
{
    let mut copy = [0u8; 320];
    placing::place(plan, links, &mut copy, v, 255, 0) - 1
}

// The tests of the marked node, the count and the nodes, in an accepted plan that has node m, and 320 lent bytes; what passes them is written.
fn repeat_below(plan: &[u8], m: usize, count: u32, out: &mut [u8]) -> Result<u8, Fault>
    requires { Accepted plan.now × (m < size plan.now) × (length out.old ≡ 320) }
    ensures { repeat_of plan.now m count out.old ≡ made (number_of result) (value_of result) out.new }
{
    let links = links::link(plan);
    if !can_mark(plan, &links, m) {
        return Err(Fault::NotRepeatable);
    }
    if !times_ok(count) {
        return Err(Fault::BadCount);
    }
    let times = count as usize;
    let nodes = plan::node_count(plan) + (times - 1) * count_below(plan, &links, m);
    if 160 < nodes {
        return Err(Fault::TooManyNodes);
    }
    let of = Repetition {
        plan,
        links: &links,
        marked: m,
        times,
    };
    place_repeated(of, out, 0, 255, 0);
    Ok(nodes as u8)
}

// One block for each channel: the child's subtree of the marked block `node` stands `count` times, 1 to 32. `out` has to be 320 bytes; the
// plan is written to its front, and the answer is its number of nodes.
pub fn repeat(plan: &[u8], node: u32, count: u32, out: &mut [u8]) -> Result<u8, Fault>
    ensures { repeat_of plan.now node count out.old ≡ made (number_of result) (value_of result) out.new }
{
    checker::fit(plan, out.len() == 320)?;
    let m = node as usize;
    if plan::node_count(plan) <= m {
        return Err(Fault::NotInPlan);
    }
    repeat_below(plan, m, count, out)
}
