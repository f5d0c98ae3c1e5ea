// Plan bytes: nodes, kinds and parents, read. What the words mean is specs/Plan.antt; which plans are accepted, and with which number the
// others are refused, is specs/Check.antt; what a call comes to that writes a plan is specs/Made.antt. No public function has a `requires`.
#![tactic(auto)]

pub mod kinds;

ghost use Rattle.std.specs.Prelude.{◌≡◌, get_or};
ghost use Rattle.plan.specs.Plan.{size, kind_byte, kind, parent, above_byte, above};

use kinds::Kind;

// The byte at i, or 0 past the end.
pub fn byte_at(s: &[u8], i: usize) -> u8
    ensures { result ≡ get_or s.now i 0 }
{
    if i < s.len() { s[i] } else { 0 }
}

pub fn node_count(plan: &[u8]) -> usize
    ensures { result ≡ size plan.now }
{
    plan.len() / 2
}

// The kind byte of v.
pub fn kind(plan: &[u8], v: u8) -> u8
    ensures { result ≡ kind_byte plan.now v }
{
    byte_at(plan, 2 * usize::from(v))
}

// The parent of v.
pub fn parent(plan: &[u8], v: u8) -> u8
    ensures { result ≡ parent plan.now v }
{
    byte_at(plan, 2 * usize::from(v) + 1)
}

// The kind byte of v's parent, and a task's for the root.
pub fn above(plan: &[u8], v: u8) -> u8
    ensures { result ≡ above_byte plan.now v }
{
    if v == 0 {
        1
    } else {
        kind(plan, parent(plan, v))
    }
}

// What v is.
pub fn node_kind(plan: &[u8], v: u8) -> Kind
    ensures { result ≡ kind plan.now v }
{
    Kind::from(kind(plan, v))
}

// What v's parent is, and a task for the root.
pub fn kind_above(plan: &[u8], v: u8) -> Kind
    ensures { result ≡ above plan.now v }
{
    Kind::from(above(plan, v))
}
