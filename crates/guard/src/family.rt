// The nodes that the guard of an event names: the children of its node, those of the node's parent, or none.
// Codes and kinds are numbers, matched in ranges: a rule of the project for applicability and the guard row.
ghost use Rattle.std.specs.Prelude.{◌≡◌, not};
ghost use Rattle.plan.specs.Plan.{is_kind, kind_of};
ghost use Rattle.plan.specs.declared.kinds.Kind.TheVariants.{Task as task};
ghost use Rattle.event.specs.Event.{code_of};
ghost use Rattle.guard.specs.Family.{in_turn, names_family, names_one, family_parent, left_out};

fn is_block(k: u8) -> bool
    ensures { result ≡ not (is_kind task (kind_of k)) }
{
    (2 <= k) & (k <= 8)
}

fn in_turn(k: u8) -> bool
    ensures { result ≡ in_turn (kind_of k) }
{
    (k == 2) | (k == 6) | (k == 7)
}

// By the code, the node's kind and its parent's: the guard names any children or siblings.
pub fn names_family(code: u8, k: u8, above: u8) -> bool
    ensures { result ≡ names_family (code_of code) (kind_of k) (kind_of above) }
{
    match code {
        1 => in_turn(above),
        2 => is_block(k),
        3 => (above != 5) & is_block(k),
        4 => is_block(k),
        5..=6 => false,
        7 => false,
        _ => true,
    }
}

// By the same: the guard goes by one of them, the one before a node or its last child.
pub fn names_one(code: u8, k: u8, above: u8) -> bool
    ensures { result ≡ names_one (code_of code) (kind_of k) (kind_of above) }
{
    match code {
        1 => in_turn(above),
        2 => k == 2,
        3 => (above != 5) & (k == 2),
        4 => k == 6,
        _ => false,
    }
}

// Whose children they are.
pub fn family_parent(plan: &[u8], code: u8, v: u8) -> u8
    ensures { result ≡ family_parent plan.now (code_of code) v }
{
    if (2 <= code) & (code <= 7) {
        v
    } else {
        plan::parent(plan, v)
    }
}

// And which of them is left out. The root is nobody's child, so 0 leaves none out.
pub fn left_out(code: u8, v: u8) -> u8
    ensures { result ≡ left_out (code_of code) v }
{
    if (1 <= code) & (code <= 7) { 0 } else { v }
}
