// A line of the table, as the text from its beginning on, and the bytes that it stands for.
ghost use Rattle.std.specs.Prelude.{◌≤◌, length};

// Where the line ends with which a text begins: at its line feed, or where the text does.
pub(crate) fn line_end(text: &[u8]) -> usize
    ensures { result ≤ length text.now }
{
    for (i, b) in text.iter().enumerate() {
        if *b == b'\n' {
            return i;
        }
    }
    text.len()
}

// The value of a digit, 0 of any other byte. By hand, since a blank among digits counts as 0, which `from_str_radix` refuses.
fn digit(b: u8) -> u8
    ensures { result ≤ 15 }
{
    match b {
        b'0'..=b'9' => b - b'0',
        b'a'..=b'f' => b - b'a' + 10,
        _ => 0,
    }
}

// Two digits.
fn pair(line: &[u8], at: usize) -> u8
    requires { at ≤ 200000 }
{
    16 * digit(plan::byte_at(line, at)) + digit(plan::byte_at(line, at + 1))
}

// Four digits.
pub(crate) fn wide(line: &[u8], at: usize) -> u32
    requires { at ≤ 100000 }
    ensures { result ≤ 65535 }
{
    256 * u32::from(pair(line, at)) + u32::from(pair(line, at + 2))
}

// How many bytes the line gives.
fn given(line: &[u8]) -> usize
    ensures { result ≤ length line.now }
{
    let end = line_end(line);
    if end < 10 {
        return 0;
    }
    if plan::byte_at(line, 1) == b'"' {
        end - 10
    } else {
        (end - 10) / 2
    }
}

// How many bytes it stands for, and no more than there is room for.
fn size(line: &[u8], room: usize) -> usize
    ensures { result ≤ room }
{
    let n = match wide(line, 2) {
        0 => given(line),
        n => n as usize,
    };
    n.min(room)
}

// The byte given at a place.
fn read(line: &[u8], i: usize) -> u8
    requires { i ≤ 65536 }
{
    if plan::byte_at(line, 1) != b'"' {
        return pair(line, 10 + 2 * i);
    }
    match plan::byte_at(line, 10 + i) {
        b'/' => b'\n',
        b => b,
    }
}

// Puts its bytes at the start of a list of zeros and tells how many there are: those given, then the last `unit` of them again and again.
pub(crate) fn fill(line: &[u8], list: &mut [u8]) -> usize
    requires { length list.old ≤ 65536 }
    ensures { result ≤ length list.new }
{
    let first = given(line);
    let unit = usize::from(pair(line, 7));
    let n = size(line, list.len());
    for i in 0..n {
        list[i] = if i < first {
            read(line, i)
        } else if unit <= first {
            list[i - unit]
        } else {
            0
        };
    }
    n
}
