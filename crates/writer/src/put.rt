// The writers of clauses, and of a shape's guard.
ghost use Rattle.std.specs.Prelude.{◌+◌, ◌*◌, ◌≤◌, length};
ghost use Rattle.lists.specs.Put.{Put};
ghost use Rattle.guard.specs.Put.{clause, codes_of, first_bytes, any_part};
ghost use Rattle.guard.specs.Shape.{shape_bytes};

use guard::table::Shape;

// The clause [the first n of first, abort, turned down] of c.
fn put_clause(first: u8, n: u8, c: u8, buf: &mut [u8], at: usize) -> usize
    requires { (1 ≤ n) × (n ≤ 3) × (at + (1 + 2 * n) ≤ length buf.old) }
    ensures { Put (clause (codes_of first n) c) buf.old at buf.new result }
{
    buf[at] = n;
    buf[at + 1] = first;
    buf[at + 2] = c;
    if n == 1 {
        return at + 3;
    }
    buf[at + 3] = 4;
    buf[at + 4] = c;
    if n == 2 {
        return at + 5;
    }
    buf[at + 5] = 8;
    buf[at + 6] = c;
    at + 7
}

// The number of clauses, `more` of them behind these: none where the code is 0, [code of node] where n is 0, else one for each of cs.
fn put_first(code: u8, node: u8, n: u8, more: u8, cs: &[u8], buf: &mut [u8]) -> usize
    requires { (n ≤ 3) × (more ≤ 1) × (length cs.now ≤ 32) × (length (first_bytes code node n more cs.now) ≤ length buf.old) }
    ensures { Put (first_bytes code node n more cs.now) buf.old 0 buf.new result }
{
    if code == 0 {
        buf[0] = more;
        return 1;
    }
    if n == 0 {
        buf[0] = 1 + more;
        return put_clause(code, 1, node, buf, 1);
    }
    buf[0] = cs.len() as u8 + more;
    let mut w = 1;
    for &c in cs {
        w = put_clause(code, n, c, buf, w);
    }
    w
}

// The clause [code of any of cs], and nothing for the code 0.
fn put_any(code: u8, cs: &[u8], buf: &mut [u8], at: usize) -> usize
    requires { (length cs.now ≤ 32) × (at + length (any_part code cs.now) ≤ length buf.old) }
    ensures { Put (any_part code cs.now) buf.old at buf.new result }
{
    if code == 0 {
        return at;
    }
    buf[at] = cs.len() as u8;
    let mut w = at + 1;
    for &c in cs {
        buf[w] = code;
        buf[w + 1] = c;
        w += 2;
    }
    w
}

// The guard of a shape that names cs, at the front of buf.
pub(crate) fn put_shape(s: Shape, cs: &[u8], buf: &mut [u8]) -> usize
    requires { (s.node ≤ 255) × (s.each ≤ 3) × (length cs.now ≤ 32) × (length (shape_bytes s cs.now) ≤ length buf.old) }
    ensures { Put (shape_bytes s cs.now) buf.old 0 buf.new result }
{
    let more = if s.any == 0 { 0 } else { 1 };
    let w = put_first(s.code, s.node as u8, s.each, more, cs, buf);
    put_any(s.any, cs, buf, w)
}
