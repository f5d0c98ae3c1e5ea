// The rule behind a guard, as a number: in an accepted plan a byte. A number, since C programs get it (rule C9).
ghost use Rattle.std.specs.Prelude.{◌≡◌, ◌≤◌};
ghost use Rattle.event.specs.Event.{code_of, event_of};
ghost use Rattle.guard.specs.Rule.{rule_kind, rule_byte};

// The kind that the rule names, 0 for none.
fn rule_kind(plan: &[u8], code: u8, v: u8) -> u8
    requires { (1 ≤ code) × (code ≤ 8) }
    ensures { result ≡ rule_kind plan.now (code_of code) v }
{
    if (code == 1) & (v == 0) {
        return 0;
    }
    if (code == 1) | (code >= 7) {
        return plan::above(plan, v);
    }
    plan::kind(plan, v)
}

// What is no code is read as the last one.
pub fn rule_number(plan: &[u8], code: u8, v: u8) -> usize
    ensures { result ≡ rule_byte plan.now (event_of code v) }
{
    let k = if (1 <= code) & (code <= 7) { code } else { 8 };
    if (k == 3) & (plan::above(plan, v) == 5) {
        return 0xf3;
    }
    16 * usize::from(rule_kind(plan, k, v)) + usize::from(k)
}
