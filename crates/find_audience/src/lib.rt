// Whom to tell of an event (rules V): the sites whose guards name it, written to the front of lent bytes, rising. Who they are, and what the call
// answers and leaves, is the crate audience's. No public function has a `requires`: bad input is refused.
#![tactic(auto)]

ghost use Rattle.std.specs.Prelude.{◌≡◌, true, ◌<◌, ◌≤◌, length};
ghost use Rattle.fault.specs.Number.{number_of, value_of};
ghost use Rattle.lists.specs.Seq.{head_or};
ghost use Rattle.lists.specs.Put.{Put};
ghost use Rattle.plan.specs.Plan.{size, kind, parent, children, above};
ghost use Rattle.plan.specs.Check.{Accepted};
ghost use Rattle.event.specs.Event.{code_of, event_of, applies};
ghost use Rattle.audience.specs.Hearers.{later, start_hearers, end_hearers, hearers_by};
ghost use Rattle.audience.specs.Call.{audience_of};
ghost use Rattle.find_audience.specs.Whom.{whom_list};
ghost use Rattle.merge.specs.Output.{output};

use fault::Fault;
use plan::kinds::Kind;

// Nobody, one node, or all children of a node.
#[derive(Drop)]
pub enum Whom {
    Nobody,
    Node(u8),
    ChildrenOf(u8),
}

// The first child of u above `from`, and d where there is none.
fn next(plan: &[u8], u: u8, from: u8, d: u8) -> u8
    requires { size plan.now ≤ 160 }
    ensures { result ≡ head_or d (later (children plan.now u) from) }
{
    let n = plan::node_count(plan);
    for c in usize::from(from) + 1..n {
        if plan[2 * c + 1] == u {
            return c as u8;
        }
    }
    d
}

// Who hears of v's start.
fn on_start(plan: &[u8], v: u8) -> Whom
    requires { Accepted plan.now × (v < size plan.now) }
    ensures { whom_list plan.now result ≡ start_hearers (kind plan.now v) (children plan.now v) }
{
    match plan::node_kind(plan, v) {
        Kind::Task | Kind::Conditional => Whom::Nobody,
        Kind::Serial | Kind::Contingency => Whom::Node(next(plan, v, 0, v)),
        Kind::And | Kind::Or | Kind::Xor | Kind::Waiting => Whom::ChildrenOf(v),
    }
}

// Who hears of an end of v; `turn` is the kind of block in which it hands the turn on.
fn on_end(plan: &[u8], v: u8, turn: Kind) -> Whom
    requires { size plan.now ≤ 160 }
    ensures { whom_list plan.now result ≡ end_hearers turn (above plan.now v) (parent plan.now v) (children plan.now (parent plan.now v)) v }
{
    let above = plan::kind_above(plan, v);
    let u = plan::parent(plan, v);
    if above == Kind::Task {
        return Whom::Nobody;
    }
    if above == turn {
        return Whom::Node(next(plan, u, v, u));
    }
    Whom::Node(u)
}

// Who hears of an event that applies.
fn hearers(plan: &[u8], code: u8, v: u8) -> Whom
    requires { Accepted plan.now × (v < size plan.now) × (applies plan.now (event_of code v) ≡ true) }
    ensures { whom_list plan.now result ≡ hearers_by plan.now (code_of code) v }
{
    match code {
        1 => on_start(plan, v),
        2 => Whom::Node(plan::parent(plan, v)),
        3 => on_end(plan, v, Kind::Serial),
        4 => on_end(plan, v, Kind::Contingency),
        5 => Whom::Node(next(plan, v, 0, v)),
        6 => Whom::Node(next(plan, v, next(plan, v, 0, v), v)),
        7 => Whom::ChildrenOf(plan::parent(plan, v)),
        _ => Whom::Node(plan::parent(plan, v)),
    }
}

// The children of u at the front of buf, and how many they are.
fn gather(plan: &[u8], u: u8, buf: &mut [u8]) -> usize
    requires plan_bound { size plan.now ≤ 160 }
    requires u_in_bounds { length (children plan.now u) ≤ length buf.old }
    ensures { Put (children plan.now u) buf.old 0 buf.new result }
{
    let n = plan::node_count(plan);
    let mut w = 0;
    for c in 1..n {
        if plan[2 * c + 1] == u {
            buf[w] = c as u8;
            w += 1;
        }
    }
    w
}

// Those at the front of buf, and how many they are.
fn put(plan: &[u8], to: Whom, buf: &mut [u8]) -> usize
    requires plan_bound { size plan.now ≤ 160 }
    requires to_in_bounds { length (whom_list plan.now to) ≤ length buf.old }
    ensures { Put (whom_list plan.now to) buf.old 0 buf.new result }
{
    match to {
        Whom::Nobody => 0,
        Whom::Node(x) => {
            buf[0] = x;
            1
        }
        Whom::ChildrenOf(u) => gather(plan, u, buf),
    }
}

// The sites to tell of an event, rising, at the front of buf, and how many they are, 32 at most; the bytes behind them stay. 1 to 6 by the check,
// 8 and 9 of the event, and 7 where buf is too short for them.
pub fn audience(plan: &[u8], code: u32, node: u32, buf: &mut [u8]) -> Result<u16, Fault>
    ensures { audience_of plan.now code node buf.old ≡ output (number_of result) (value_of result) buf.new }
{
    event::validate(plan, true, true, code, node)?;
    let to = hearers(plan, code as u8, node as u8);
    let mut local = [0u8; 32];
    let length = put(plan, to, &mut local);
    if buf.len() < length {
        return Err(Fault::BadBuffer);
    }
    lists::copy(&local[..length], buf);
    Ok(length as u16)
}
