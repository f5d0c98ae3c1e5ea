// Whether a guard holds on a site's row, by its shape: the line of the guard table.
ghost use Rattle.std.specs.Prelude.{◌≡◌, ◌≤◌};
ghost use Rattle.plan.specs.Plan.{kind, children, above};
ghost use Rattle.event.specs.Event.{code_of};
ghost use Rattle.guard.specs.Guard.{before_in};
ghost use Rattle.guard.specs.Family.{family, family_parent, left_out, names_one, neighbour};
ghost use Rattle.guard.specs.Shape.{guard_shape};
ghost use Rattle.lists.specs.Seq.{all, any};
ghost use Rattle.row.specs.Row.{heard_in};
ghost use Rattle.row.specs.Evaluate.{one_holds, clause_holds, each_holds, family_holds};

use guard::{family, table};

// The guard goes by one child or sibling.
fn names_one(plan: &[u8], code: u8, v: u8) -> bool
    ensures { result ≡ names_one (code_of code) (kind plan.now v) (above plan.now v) }
{
    family::names_one(code, plan::kind(plan, v), plan::above(plan, v))
}

// The child of u before `stop`, v where `stop` is the first, and the last child where `stop` is not among them.
fn before_or_last(plan: &[u8], u: u8, v: usize, stop: usize) -> usize
    ensures { result ≡ before_in v (children plan.now u) stop }
{
    let n = plan::node_count(plan);
    let mut d = v;
    for c in 1..n {
        if plan[2 * c + 1] == u {
            if c == stop {
                return d;
            }
            d = c;
        }
    }
    d
}

// The one before v for a start, its last child for a finish or an abort. The root is nobody's child.
fn neighbour(plan: &[u8], code: u8, v: u8) -> usize
    ensures { 1 ≤ code → code ≤ 4 → result ≡ neighbour (code_of code) v (family plan.now (family_parent plan.now (code_of code) v) (left_out (code_of code) v)) }
{
    let stop = if code == 1 { usize::from(v) } else { 0 };
    before_or_last(
        plan,
        family::family_parent(plan, code, v),
        usize::from(v),
        stop,
    )
}

// The shape of the event's guard.
pub(crate) fn shape_of(plan: &[u8], code: u8, v: u8) -> table::Shape
    ensures { result ≡ guard_shape plan.now (code_of code) v }
{
    let b = if names_one(plan, code, v) {
        neighbour(plan, code, v)
    } else {
        usize::from(v)
    };
    let u = usize::from(plan::parent(plan, v));
    table::shape_of(
        code,
        plan::kind(plan, v),
        plan::above(plan, v),
        u,
        usize::from(v),
        b,
    )
}

// [code of node], where the shape has it.
pub(crate) fn one_holds(row: &[u8], s: table::Shape) -> bool
    ensures { result ≡ one_holds row.now s }
{
    if (s.code == 0) | (s.each != 0) {
        return true;
    }
    crate::heard(row, s.code, s.node)
}

// A clause for each of u's children, of these codes of that child. A clause is left at its first heard event, and all of them at the first
// clause without one.
fn clauses_hold(plan: &[u8], u: u8, codes: &[u8], row: &[u8]) -> bool
    ensures { result ≡ all (clause_holds row.now codes.now) (children plan.now u) }
{
    let n = plan::node_count(plan);
    let mut holds = true;
    'clause: for child in 1..n {
        if plan[2 * child + 1] != u {
            continue 'clause;
        }
        for &code in codes {
            if crate::heard(row, code, child) {
                continue 'clause;
            }
        }
        holds = false;
        break 'clause;
    }
    holds
}

// The first `each` of [code, abort, turned down], for each of u's children.
fn each_holds(plan: &[u8], u: u8, s: table::Shape, row: &[u8]) -> bool
    ensures { result ≡ each_holds row.now s (children plan.now u) }
{
    let n = s.each;
    match n {
        0 => true,
        1 => clauses_hold(plan, u, &[s.code], row),
        2 => clauses_hold(plan, u, &[s.code, 4], row),
        _ => clauses_hold(plan, u, &[s.code, 4, 8], row),
    }
}

// The clause [code of any of u's children but one].
pub(crate) fn any_holds(plan: &[u8], u: u8, skip: u8, code: u8, row: &[u8]) -> bool
    ensures { result ≡ any (heard_in row.now code) (family plan.now u skip) }
{
    let n = plan::node_count(plan);
    for c in 1..n {
        if plan[2 * c + 1] == u && c != usize::from(skip) && crate::heard(row, code, c) {
            return true;
        }
    }
    false
}

// The clauses of each of u's children, and the clause of any of them but one.
pub(crate) fn family_holds(plan: &[u8], u: u8, skip: u8, s: table::Shape, row: &[u8]) -> bool
    ensures { result ≡ family_holds row.now s (children plan.now u) (family plan.now u skip) }
{
    if !each_holds(plan, u, s, row) {
        return false;
    }
    if s.any == 0 {
        return true;
    }
    any_holds(plan, u, skip, s.any, row)
}
