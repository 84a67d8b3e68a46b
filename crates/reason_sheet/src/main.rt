// Reads a bid sheet from standard input and prints its sheet of reasons, or the number that turned it down.
#![tactic(auto)]

const STDIN: i32 = 0;

const STDOUT: i32 = 1;

// 8,190 rounds, the most there are, take 253,890 bytes.
fn main() {
    let mut input = io::large_buffer();
    let mut out = [0u8; 253890];
    let n = io::read_full(STDIN, &mut input);
    let k = reasons::answer(&input[..n], &mut out);
    io::write_all(STDOUT, &out[..k]);
}
