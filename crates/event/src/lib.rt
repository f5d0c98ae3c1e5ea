// Events of a plan: which are known and apply, at whose site they happen, their bits in a byte, and the tests with which every call on an
// event begins. What the words mean is specs/; one public function, `check`, has a `requires`: its caller has checked the plan.
#![tactic(auto)]

ghost use Rattle.std.specs.Prelude.{◌≡◌, ◌<◌, ◌≤◌};
ghost use Rattle.fault.specs.Number.{number_of};
ghost use Rattle.plan.specs.Plan.{kind_of, is_kind, size};
ghost use Rattle.plan.specs.declared.kinds.Kind.TheVariants.{Xor as xor};
ghost use Rattle.event.specs.Event.{code_of, event_of, applies_by, applies, known};
ghost use Rattle.event.specs.Site.{host_of};
ghost use Rattle.event.specs.Bit.{has_bit, with_bit, without_bit};
ghost use Rattle.event.specs.Valid.{event_fault, invalid};

use fault::Fault;

// By the code; a choice also by the parent's kind, an answer by the node's own.
// Codes and kinds are numbers, matched in ranges: a rule of the project for applicability and the guard row.
fn applies_by(code: u8, above: u8, kind: u8) -> bool
    requires { (1 ≤ code) × (code ≤ 8) }
    ensures { result ≡ applies_by (code_of code) (kind_of kind) (is_kind xor (kind_of above)) }
{
    match code {
        1 | 3..=4 => true,
        2 | 7..=8 => match above {
            5 => true,
            _ => false,
        },
        5..=6 => match kind {
            7 => true,
            _ => false,
        },
        _ => false,
    }
}

fn applies(plan: &[u8], code: u8, v: u8) -> bool
    requires le_code { (1 ≤ code) × (code ≤ 8) }
    requires v_bound { v < size plan.now }
    ensures { result ≡ applies plan.now (event_of code v) }
{
    applies_by(code, plan::above(plan, v), plan::kind(plan, v))
}

// The code is 1 to 8 and the node is in the plan.
pub fn known(plan: &[u8], code: u32, node: u32) -> bool
    ensures { result ≡ known plan.now code node }
{
    if code < 1 {
        return false;
    }
    if 8 < code {
        return false;
    }
    (node as usize) < plan::node_count(plan)
}

// The node at whose site an event happens.
pub fn host(plan: &[u8], code: u8, v: u8) -> u8
    ensures { result ≡ host_of plan.now (event_of code v) }
{
    if code == 7 { plan::parent(plan, v) } else { v }
}

// The bit of a code is set.
pub fn has_bit(b: u8, code: u8) -> bool
    ensures { result ≡ has_bit b code }
{
    if code < 1 {
        return false;
    }
    if 8 < code {
        return false;
    }
    (b >> (code - 1)) % 2 == 1
}

// The byte with the bit of a code set.
pub fn with_bit(b: u8, code: u8) -> u8
    ensures { result ≡ with_bit b code }
{
    if has_bit(b, code) {
        return b;
    }
    if code < 1 {
        return b;
    }
    if 8 < code {
        return b;
    }
    b + (1 << (code - 1))
}

// The byte with the bit of a code cleared.
pub fn without_bit(b: u8, code: u8) -> u8
    ensures { result ≡ without_bit b code }
{
    if !has_bit(b, code) {
        return b;
    }
    b - (1 << (code - 1))
}

// What is wrong with the event itself. `sited`: the site is in the plan, whose nodes a byte can number.
pub fn check(plan: &[u8], sited: bool, code: u32, node: u32) -> Result<(), Fault>
    requires { size plan.now ≤ 160 }
    ensures { number_of result ≡ event_fault plan.now sited code node }
{
    if !sited {
        return Err(Fault::NotInPlan);
    }
    if !known(plan, code, node) {
        return Err(Fault::NotInPlan);
    }
    if !applies(plan, code as u8, node as u8) {
        return Err(Fault::NotApplicable);
    }
    Ok(())
}

// The first test that fails. `fits`: the lent lengths are right; `sited`: the site is in the plan.
pub fn validate(plan: &[u8], fits: bool, sited: bool, code: u32, node: u32) -> Result<(), Fault>
    ensures { number_of result ≡ invalid plan.now fits sited code node }
{
    checker::fit(plan, fits)?;
    check(plan, sited, code, node)
}
