// Reads the text of a plan and steps from standard input and writes to standard output what `script::rehearse` prints for it.
// A Rattle program has no exit status: the command that has one is tools/rehearse.c, over the same functions.
#![tactic(auto)]

const STDIN: i32 = 0;

const STDOUT: i32 = 1;

fn main() {
    // one byte more than is allowed, so that a longer text is seen to be longer
    let mut text = [0u8; 32769];
    let n = io::read_full(STDIN, &mut text);
    let mut out = [0u8; 16384];
    let m = script::rehearse(&text[..n], &mut out);
    io::write_all(STDOUT, &out[..m]);
}
