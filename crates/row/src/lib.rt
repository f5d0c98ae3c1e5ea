// A site's row: what it has heard, an event set in it, and whether an event is barred there and its guard holds. What a row is stands in
// specs/Row.antt, what bars an event and when a guard holds in the guard's specs/Guard.antt. No public function has a `requires`: each answers
// for any bytes.
#![tactic(auto)]

mod evaluate;

ghost use Rattle.std.specs.Prelude.{◌≡◌, [], ◌∷◌};
ghost use Rattle.lists.specs.Seq.{any};
ghost use Rattle.event.specs.Event.{event_of};
ghost use Rattle.event.specs.Bit.{has_bit};
ghost use Rattle.guard.specs.Guard.{guard, holds, barred};
ghost use Rattle.row.specs.Row.{heard_in, heard, hear};

// The row has the event; past its end nothing is heard.
pub fn heard(row: &[u8], code: u8, node: usize) -> bool
    ensures { result ≡ heard_in row.now code node }
{
    event::has_bit(plan::byte_at(row, node), code)
}

// Sets the bit of an event; past the end nothing changes.
pub fn set_heard(row: &mut [u8], code: u8, node: u8)
    ensures { row.new ≡ hear row.old code node }
{
    let i = usize::from(node);
    if i < row.len() {
        row[i] = event::with_bit(row[i], code);
    }
}

// One of three codes; 0 is none.
fn one_of(b: u8, i: u8, j: u8, k: u8) -> bool
    ensures { result ≡ any (has_bit b) (i ∷ j ∷ k ∷ []) }
{
    event::has_bit(b, i) | event::has_bit(b, j) | event::has_bit(b, k)
}

// By the codes of the node itself, and for a pick by those of its parent's children.
pub fn is_barred(plan: &[u8], code: u8, v: u8, row: &[u8]) -> bool
    ensures { result ≡ barred plan.now (heard row.now) (event_of code v) }
{
    let b = plan::byte_at(row, usize::from(v));
    match code {
        1 => one_of(b, 1, 0, 0),
        2 => one_of(b, 2, 4, 0),
        3 => one_of(b, 3, 4, 0),
        4 => one_of(b, 4, 3, 2),
        5..=6 => one_of(b, 5, 6, 0),
        7 => evaluate::any_holds(plan, plan::parent(plan, v), 0, 7, row),
        _ => one_of(b, 8, 0, 0),
    }
}

// The guard of the event holds, by its shape and without writing it.
pub fn guard_holds(plan: &[u8], code: u8, v: u8, row: &[u8]) -> bool
    ensures { result ≡ holds (heard row.now) (guard plan.now (event_of code v)) }
{
    let s = evaluate::shape_of(plan, code, v);
    if !evaluate::one_holds(row, s) {
        return false;
    }
    if (s.each == 0) & (s.any == 0) {
        return true;
    }
    evaluate::family_holds(
        plan,
        guard::family::family_parent(plan, code, v),
        guard::family::left_out(code, v),
        s,
        row,
    )
}
