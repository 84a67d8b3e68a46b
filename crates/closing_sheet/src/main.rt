// Reads a bid sheet from standard input and prints its closing sheet, or the number that turned it down.
#![tactic(auto)]

const STDIN: i32 = 0;

const STDOUT: i32 = 1;

fn main() {
    let mut input = io::large_buffer();
    let mut out = io::buffer();
    let n = io::read_full(STDIN, &mut input);
    let k = sheet::answer(&input[..n], &mut out);
    io::write_all(STDOUT, &out[..k]);
}
