// The guard of an event as bytes, written into a lent buffer. What a guard is, and its bytes, stand in the crate guard; what the writer answers and
// leaves is specs/Written.antt. The public function has no `requires`: bad input is refused.
#![tactic(auto)]

mod family;
mod fill;
mod put;

ghost use Rattle.std.specs.Prelude.{◌≡◌};
ghost use Rattle.plan.specs.Check.{Accepted};
ghost use Rattle.event.specs.Event.{event_of};
ghost use Rattle.guard.specs.Guard.{guard};
ghost use Rattle.guard.specs.Bytes.{encode};
ghost use Rattle.writer.specs.Written.{filled, fitted, write_of, written_of};

use fault::Fault;

// The bytes of the longest guard.
const LONGEST: usize = 290;

// A written guard: its length, and the rule behind it.
#[derive(Drop)]
pub struct WrittenGuard {
    pub length: u16,
    pub rule: u8,
}

// A guard at the front of a buffer that may be too short for it, and then stays: written aside, and copied.
fn write_short(
    plan: &[u8],
    code: u8,
    v: u8,
    rule: u8,
    buf: &mut [u8],
) -> Result<WrittenGuard, Fault>
    requires { Accepted plan.now }
    ensures { fitted (encode (guard plan.now (event_of code v))) rule buf.old ≡ filled buf.new (written_of result) }
{
    let mut local = [0u8; LONGEST];
    let end = fill::fill(plan, code, v, &mut local);
    if buf.len() < end {
        return Err(Fault::BadBuffer);
    }
    lists::copy(&local[..end], buf);
    let length = end as u16;
    Ok(WrittenGuard { length, rule })
}

// The guard of an event at the front of buf; the bytes behind it stay.
pub fn write_guard(plan: &[u8], code: u32, node: u32, buf: &mut [u8]) -> Result<WrittenGuard, Fault>
    ensures { write_of plan.now code node buf.old ≡ filled buf.new (written_of result) }
{
    event::validate(plan, true, true, code, node)?;
    let k = code as u8;
    let v = node as u8;
    let rule = guard::rule_byte::rule_number(plan, k, v) as u8;
    if buf.len() < LONGEST {
        return write_short(plan, k, v, rule, buf);
    }
    let length = fill::fill(plan, k, v, buf) as u16;
    Ok(WrittenGuard { length, rule })
}
