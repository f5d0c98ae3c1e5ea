// The guard of an event, at the front of a buffer of 290 bytes or more: the nodes that it names, and its shape.
ghost use Rattle.std.specs.Prelude.{◌≡◌, ◌≤◌, length};
ghost use Rattle.plan.specs.Check.{Accepted};
ghost use Rattle.event.specs.Event.{event_of};
ghost use Rattle.guard.specs.Guard.{before_in, guard};
ghost use Rattle.guard.specs.Bytes.{encode};
ghost use Rattle.lists.specs.Put.{Put};

use crate::{family, put};
use guard::table;

// The one before v in cs, v itself where it is the first, and the last of cs where it is not there.
fn before(cs: &[u8], v: u8) -> u8
    ensures { result ≡ before_in v cs.now v }
{
    let mut d = v;
    for &c in cs {
        if c == v {
            return d;
        }
        d = c;
    }
    d
}

// The nodes that the guard names, and its shape over them.
pub(crate) fn fill(plan: &[u8], code: u8, v: u8, buf: &mut [u8]) -> usize
    requires { Accepted plan.now × (290 ≤ length buf.old) }
    ensures { Put (encode (guard plan.now (event_of code v))) buf.old 0 buf.new result }
{
    let mut cs = [0u8; 32];
    let n = family::named_nodes(plan, code, v, &mut cs);
    let b = usize::from(before(&cs[..n], v));
    let u = usize::from(plan::parent(plan, v));
    let s = table::shape_of(
        code,
        plan::kind(plan, v),
        plan::above(plan, v),
        u,
        usize::from(v),
        b,
    );
    put::put_shape(s, &cs[..n], buf)
}
