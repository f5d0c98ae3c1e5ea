// The guard of an event: what it has to wait for at its site. What a guard is stands in specs/Guard.antt, its bytes in specs/Bytes.antt. It is
// tried and written by its shape (`table`, specs/Shape.antt) over the nodes that it names (`family`, specs/Family.antt); the rule behind it is a
// byte (`rule_byte`, specs/Rule.antt). No public function has a `requires`.
#![tactic(auto)]

pub mod family;
pub mod rule_byte;
pub mod table;

ghost use Rattle.std.specs.Prelude.{◌≡◌};
ghost use Rattle.fault.specs.Number.{number_of, value_of};
ghost use Rattle.guard.specs.Rule.{found_rule, rule_answer};

use fault::Fault;

// The rule behind the guard of an event.
pub fn rule(plan: &[u8], code: u32, node: u32) -> Result<u8, Fault>
    ensures { rule_answer plan.now code node ≡ found_rule (number_of result) (value_of result) }
{
    event::validate(plan, true, true, code, node)?;
    Ok(rule_byte::rule_number(plan, code as u8, node as u8) as u8)
}
