// Tries the library from outside by a table, standard input, and prints a line a case: its label, the number answered, the site, the value
// in brackets and the rule if there is one, and `left` or the lent bytes up to the last one that changed. The file stdin beside src/ has the
// limits and every refusal; the file stdout says what docs/RULES.md demands. Numbers in the table are hexadecimal, and a blank counts as 0.
//
//   # a heading, printed as it is
//   p 0140 0a 02ff..    the plan: how many bytes; how many of those given at the line's end are repeated up to there; bytes given
//   p         02ff..    as many bytes as are given
//   a, b                the same for the bytes lent; c for the bytes handed over
//   c"        01ff/--/  bytes as text, `/` for a line feed
//   G 0003 0002 0000 label    a call, by its letter (calls.rt), with code, node and site; for A and B the code is the length of the table,
//                             for I it is the new answer and the node the task, for Y the code is the mark and the site the end,
//                             for X the code is the count and the node the marked one, for U the code is the count and node and site the
//                             two halves of the seed
#![tactic(auto)]

mod calls;
mod item;
mod say;

ghost use Rattle.std.specs.Prelude.{◌≤◌, length};

const STDIN: i32 = 0;

// The last lines of the plan, of the bytes lent and of those handed over, each as the text from its beginning on; empty where there is none.
#[derive(Clone, Copy)]
struct Noted<'a> {
    plan: &'a [u8],
    a: &'a [u8],
    b: &'a [u8],
    c: &'a [u8],
}

// The call of a line, on a plan and handed bytes; a and b are lent as their lines say.
fn tried(line: &[u8], noted: &Noted<'_>, plan: &[u8], c: &[u8]) {
    let mut a = [0u8; 65536];
    let mut b = [0u8; 4096];
    let m = item::fill(noted.a, &mut a);
    let n = item::fill(noted.b, &mut b);
    let was_a = a;
    let was_b = b;
    let result = calls::call(line, plan, c, &mut a[..m], &mut b[..n]);
    say::answer(line, result);
    say::lent(plan::byte_at(line, 0), &was_a, &a, &was_b, &b);
}

// A case, by the lines noted for it.
fn case(line: &[u8], noted: &Noted<'_>) {
    let mut plan = [0u8; 4096];
    let mut handed = [0u8; 65536];
    let n = item::fill(noted.plan, &mut plan);
    let m = item::fill(noted.c, &mut handed);
    tried(line, noted, &plan[..n], &handed[..m]);
}

// Each line in turn: a heading is printed, a case is tried, and any other line is noted.
fn lines(text: &[u8])
    requires { length text.now ≤ 65536 }
{
    let mut noted = Noted {
        plan: &[],
        a: &[],
        b: &[],
        c: &[],
    };
    let mut rest = text;
    while !rest.is_empty() {
        match rest[0] {
            b'p' => noted.plan = rest,
            b'a' => noted.a = rest,
            b'b' => noted.b = rest,
            b'c' => noted.c = rest,
            b'#' => say::heading(rest),
            b'A'..=b'Z' => case(rest, &noted),
            _ => {}
        }
        let end = item::line_end(rest);
        rest = if end < rest.len() {
            &rest[end + 1..]
        } else {
            &[]
        };
    }
}

fn main() {
    let mut text = [0u8; 65536];
    let n = io::read_full(STDIN, &mut text);
    lines(&text[..n]);
}
