// The text of a simulation: reads lines of hexadecimal digits, and prints them. What a text tells is specs/Text.antt, a line specs/Hex.antt, and what the
// public functions answer specs/Calls.antt. No public function has a `requires`: malformed text and short buffers are refused.
#![tactic(auto)]

ghost use Rattle.std.specs.Prelude.{◌≡◌, ◌+◌, ◌*◌, ◌<◌, ◌≤◌, length};
ghost use mathlib.Core.List.{flatten};
ghost use Rattle.lists.specs.Put.{Put};
ghost use Rattle.text.specs.Hex.{is_digit, value_of, digit_of, is_line, line_byte, line_bytes, hex_line};
ghost use Rattle.text.specs.Text.{lines, is_bar, body_at, plan_lines, step_lines, table_bytes};
ghost use Rattle.text.specs.Calls.{body_counts, counts_of, in_front, Laid, read_into, reading, line_into, printing};

use plan::byte_at;

// What is counted of a well-formed text: its bytes before the plan (the table's lines, five bytes each, and the line `==`; 0 without a table), and its
// numbers of plan lines and step lines.
#[derive(Clone, Copy)]
pub struct Counts {
    pub head: usize,
    pub plan: usize,
    pub steps: usize,
}

fn is_digit(b: u8) -> bool
    ensures { result ≡ is_digit b }
{
    matches!(b, b'0'..=b'9' | b'a'..=b'f')
}

fn value(b: u8) -> u8
    ensures { result ≡ value_of b }
{
    match b {
        b'0'..=b'9' => b - b'0',
        b'a'..=b'f' => b - b'a' + 10,
        _ => 0,
    }
}

// The digit of n.
fn digit(n: u8) -> u8
    requires { n < 16 }
    ensures { result ≡ digit_of n }
{
    if n < 10 { b'0' + n } else { b'a' + (n - 10) }
}

// Text begins with a line of k bytes.
fn is_line(text: &[u8], k: usize) -> bool
    requires { k ≤ 3 }
    ensures { result ≡ is_line k text.now }
{
    let n = 2 * k;
    for i in 0..n {
        if !is_digit(byte_at(text, i)) {
            return false;
        }
    }
    byte_at(text, n) == b'\n'
}

// The number of lines of k bytes with which text begins.
fn count_lines(text: &[u8], k: usize) -> usize
    requires { k ≤ 3 }
    ensures { result ≡ length (lines k text.now) }
{
    let mut rest = text;
    let mut n = 0;
    while is_line(rest, k) {
        rest = &rest[2 * k + 1..];
        n += 1;
    }
    n
}

// Text begins with a line of two of these signs.
fn is_bar(text: &[u8], sign: u8) -> bool
    ensures { result ≡ is_bar sign text.now }
{
    text.starts_with(&[sign, sign, b'\n'])
}

// The place behind the table and its line `==`; 0 where text has no table.
fn body_at(text: &[u8]) -> usize
    ensures { result ≡ body_at text.now }
{
    let n = count_lines(text, 2);
    let at = 5 * n;
    if !is_bar(&text[at..], b'=') {
        return 0;
    }
    at + 3
}

// The counts of a text behind a table of so many bytes.
fn count_body(text: &[u8], head: usize) -> Option<Counts>
    ensures { result ≡ body_counts head text.now }
{
    let n = count_lines(text, 2);
    let at = 5 * n;
    if !is_bar(&text[at..], b'-') {
        return None;
    }
    let from = at + 3;
    let m = count_lines(&text[from..], 3);
    if text.len() - from != 7 * m {
        return None;
    }
    Some(Counts {
        head,
        plan: n,
        steps: m,
    })
}

fn count(text: &[u8]) -> Option<Counts>
    ensures { result ≡ counts_of text.now }
{
    if text.len() > 32768 {
        return None;
    }
    let head = body_at(text);
    count_body(&text[head..], head)
}

// Byte i of the line with which text begins.
fn line_byte(text: &[u8], i: usize) -> u8
    requires { i < 3 }
    ensures { result ≡ line_byte text.now i }
{
    value(byte_at(text, 2 * i)) * 16 + value(byte_at(text, 2 * i + 1))
}

// Puts the k bytes of the line with which text begins into `out`, from `at` on.
fn decode_line(text: &[u8], k: usize, out: &mut [u8], at: usize) -> usize
    requires k_bound { k ≤ 3 }
    requires k_in_bounds { at + k ≤ length out.old }
    ensures { Put (line_bytes k text.now) out.old at out.new result }
{
    for i in 0..k {
        out[at + i] = line_byte(text, i);
    }
    at + k
}

// Puts the bytes of the n lines of k bytes with which text begins at the front of `out`, if there is room for them.
fn decode(text: &[u8], k: usize, n: usize, out: &mut [u8])
    requires k_bound { k ≤ 3 }
    requires n_value { n ≡ length (lines k text.now) }
    ensures { out.new ≡ in_front (flatten (lines k text.now)) out.old }
{
    if out.len() < k * n {
        return;
    }
    let mut at = 0;
    let mut w = 0;
    for _ in 0..n {
        w = decode_line(&text[at..], k, out, w);
        at += 2 * k + 1;
    }
}

// Puts the table's bytes at the front of `table`, if there is room for them; without a table leaves it.
fn read_table(text: &[u8], head: usize, table: &mut [u8])
    requires { head ≡ body_at text.now }
    ensures { table.new ≡ in_front (table_bytes text.now) table.old }
{
    if head == 0 {
        return;
    }
    decode(text, 2, head / 5, table);
}

// Puts the bytes of the plan and of the steps at the front of two buffers, if there is room for them.
fn read_body(text: &[u8], n: usize, m: usize, plan: &mut [u8], steps: &mut [u8])
    requires { Laid text.now n m }
    ensures plan_after { plan.new ≡ in_front (flatten (plan_lines text.now)) plan.old }
    ensures steps_after { steps.new ≡ in_front (flatten (step_lines text.now)) steps.old }
{
    let from = 5 * n + 3;
    decode(text, 2, n, plan);
    decode(&text[from..], 3, m, steps);
}

// Reads a text: its counts, and the bytes of the table, of the plan and of the steps at the front of three buffers. A malformed text has no counts and leaves all
// buffers, and so does a buffer that is too short for its bytes, of which there are two a table or plan line and three a step line.
pub fn read(text: &[u8], table: &mut [u8], plan: &mut [u8], steps: &mut [u8]) -> Option<Counts>
    ensures { read_into text.now table.old plan.old steps.old ≡ reading result table.new plan.new steps.new }
{
    let counts = count(text)?;
    let Counts {
        head,
        plan: n,
        steps: m,
    } = counts;
    read_table(text, head, table);
    read_body(&text[head..], n, m, plan, steps);
    Some(counts)
}

// Writes the line of these bytes from `at` on.
fn write_line(bytes: &[u8], out: &mut [u8], at: usize) -> usize
    requires { at + 2 * length bytes.now + 1 ≤ length out.old }
    ensures { Put (hex_line bytes.now) out.old at out.new result }
{
    let mut w = at;
    for &b in bytes {
        out[w] = digit(b / 16);
        out[w + 1] = digit(b % 16);
        w += 2;
    }
    out[w] = b'\n';
    w + 1
}

// Writes the line of these bytes from `at` on, and answers the place behind it; where there is no room for it, leaves `out` and answers `at`.
pub fn put_line(bytes: &[u8], out: &mut [u8], at: usize) -> usize
    ensures { line_into bytes.now out.old at ≡ printing result out.new }
{
    if out.len() < at || out.len() - at < 2 * bytes.len() + 1 {
        return at;
    }
    write_line(bytes, out, at)
}
