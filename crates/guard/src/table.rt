// The guard table: what the guard of an event says, by its code and by the kinds of its node and of the node's parent.
// Codes and kinds are numbers, matched in ranges: a rule of the project for applicability and the guard row.
ghost use Rattle.std.specs.Prelude.{◌≡◌};
ghost use Rattle.plan.specs.Plan.{kind_of};
ghost use Rattle.event.specs.Event.{code_of};
ghost use Rattle.guard.specs.Shape.{shape, first_shape, later_shape, finish_shape, abort_shape, shape_of};

// A line of the table, over the nodes that the guard names: [code of node] where `each` is 0, else for each of them the first `each` of [code,
// abort, turned down]; then [any of them]. The code 0 leaves its part out.
// Four numbers, as in the table of the rules (`shape`, specs/Shape.antt): an enum would need a case for each mixture of parts, and each reader all.
#[derive(Clone, Copy)]
pub struct Shape {
    pub code: u8,
    pub node: usize,
    pub each: u8,
    pub any: u8,
}

// The guard of the root's start.
fn no_clause() -> Shape
    ensures { result ≡ shape 0 0 0 0 }
{
    Shape {
        code: 0,
        node: 0,
        each: 0,
        any: 0,
    }
}

// [code of node].
fn one_event(code: u8, node: usize) -> Shape
    ensures { result ≡ shape code node 0 0 }
{
    Shape {
        code,
        node,
        each: 0,
        any: 0,
    }
}

// For each child the first `each` of [code, abort, turned down]; then [any of them], unless `any` is 0.
fn each_child(code: u8, each: u8, any: u8) -> Shape
    ensures { result ≡ shape code 0 each any }
{
    Shape {
        code,
        node: 0,
        each,
        any,
    }
}

// [any of the children].
fn any_child(any: u8) -> Shape
    ensures { result ≡ shape 0 0 0 any }
{
    Shape {
        code: 0,
        node: 0,
        each: 0,
        any,
    }
}

// The start of a first child, by the kind of its parent u.
fn first(above: u8, u: usize) -> Shape
    ensures { result ≡ first_shape (kind_of above) u }
{
    match above {
        2..=6 => one_event(1, u),
        7 => one_event(5, u),
        8 => one_event(1, u),
        _ => no_clause(),
    }
}

// That of a later child; b is the one before it.
fn later(above: u8, u: usize, b: usize) -> Shape
    ensures { result ≡ later_shape (kind_of above) u b }
{
    match above {
        2 => one_event(3, b),
        3..=5 => one_event(1, u),
        6 => one_event(4, b),
        7 => one_event(6, u),
        8 => one_event(1, u),
        _ => no_clause(),
    }
}

// By the kind of v; l is its last child.
fn finish(k: u8, v: usize, l: usize) -> Shape
    ensures { result ≡ finish_shape (kind_of k) v l }
{
    match k {
        2 => one_event(3, l),
        3 => each_child(3, 1, 0),
        4 => each_child(3, 2, 3),
        5 => each_child(3, 3, 3),
        6..=7 => any_child(3),
        8 => each_child(3, 1, 0),
        _ => one_event(1, v),
    }
}

// Likewise.
fn abort(k: u8, v: usize, l: usize) -> Shape
    ensures { result ≡ abort_shape (kind_of k) v l }
{
    match k {
        2 | 7 => any_child(4),
        3 => any_child(4),
        4..=5 => each_child(4, 1, 0),
        6 => one_event(4, l),
        8 => each_child(3, 2, 4),
        _ => one_event(1, v),
    }
}

// By the code; k is the kind of v, `above` that of its parent u, and b the neighbour of v: the one before it for a start, its last child for a
// finish or an abort.
pub fn shape_of(code: u8, k: u8, above: u8, u: usize, v: usize, b: usize) -> Shape
    ensures { result ≡ shape_of (code_of code) (kind_of k) (kind_of above) u v b }
{
    match code {
        1 => if b == v {
            first(above, u)
        } else {
            later(above, u, b)
        },
        2 => finish(k, v, b),
        3 => if above == 5 {
            one_event(7, v)
        } else {
            finish(k, v, b)
        },
        4 => abort(k, v, b),
        5..=6 => one_event(1, v),
        7 => one_event(2, v),
        _ => Shape {
            code: 2,
            node: v,
            each: 0,
            any: 7,
        },
    }
}
