// Prints lines: headings, a case's label and result, and what became of its lent bytes. Every function is proved to be
// safe for any input. There is nothing else to promise: none answers anything or writes to lent bytes, and no contract can speak of output.
// Printed to a descriptor and not by `std::io`: a write that fails is passed over, and of C's functions `write` alone is reached.
ghost use Rattle.std.specs.Prelude.{◌≤◌, length};

use crate::item;

const STDOUT: i32 = 1;

fn put(b: u8) {
    io::write_all(STDOUT, &[b]);
}

// The words of a line, from a column on.
fn words(line: &[u8], column: usize) {
    let end = item::line_end(line);
    if end < column {
        return;
    }
    io::write_all(STDOUT, &line[column..end]);
}

// A line as it is.
pub(crate) fn heading(line: &[u8]) {
    words(line, 0);
    put(b'\n');
}

fn rule(b: u32) {
    io::write_all(STDOUT, b" rule ");
    io::print_hex(STDOUT, u64::from(b), 2);
}

// A site's number.
fn site(q: u32) {
    io::write_all(STDOUT, b" site ");
    io::print_decimal(STDOUT, u64::from(q));
}

// A value in brackets.
fn value(v: u32) {
    io::write_all(STDOUT, b" (");
    io::print_decimal(STDOUT, u64::from(v));
    put(b')');
}

// What goes with a call's number: a middle byte and a value, 0 where there is none. A step's are its site and rule, a guard's its rule and length.
fn beside(letter: u8, number: u32, middle: u32, v: u32) {
    let event = letter == b'S' || letter == b'E';
    if event && (number == 10 || number == 11 || v != 0) {
        site(middle);
    }
    if v == 0 {
        return;
    }
    if event || letter == b'Q' {
        rule(v);
        return;
    }
    value(v);
    if letter == b'G' {
        rule(middle);
    }
}

// A case's label, and its result: the number in the lowest byte, a site or a rule in the next, and the value from bit 16 on.
pub(crate) fn answer(line: &[u8], res: u32) {
    let number = res % 256;
    words(line, 17);
    put(b' ');
    io::print_decimal(STDOUT, u64::from(number));
    beside(plan::byte_at(line, 0), number, res / 256 % 256, res / 65536);
}

// Lent bytes: as text, the first line, or in digits.
fn shown(text: bool, list: &[u8]) {
    put(b' ');
    if text {
        for &b in &list[..item::line_end(list)] {
            put(b);
        }
        return;
    }
    for &b in list {
        io::print_hex(STDOUT, u64::from(b), 2);
    }
}

// How many bytes there are up to the last one that is not as it was.
fn changed(was: &[u8], list: &[u8]) -> usize
    ensures { result ≤ length list.now }
{
    let mut last = 0;
    for (i, b) in list.iter().enumerate() {
        if *b != plan::byte_at(was, i) {
            last = i + 1;
        }
    }
    last
}

// Whether both lists of lent bytes are as they were, or what they are now; those of a text as text.
pub(crate) fn lent(letter: u8, was_a: &[u8], a: &[u8], was_b: &[u8], b: &[u8]) {
    let m = changed(was_a, a);
    let n = changed(was_b, b);
    if m == 0 && n == 0 {
        io::write_all(STDOUT, b" left");
    }
    if 0 < m {
        shown(letter == b'T', &a[..m]);
    }
    if 0 < n {
        io::write_all(STDOUT, b", second");
        shown(false, &b[..n]);
    }
    put(b'\n');
}
