// The live auction on standard input and output: each line is answered at once, and the record and the tables are kept between. Before any opening the record
// is the one of zeros. A line of more than 4,096 bytes is none of the console's lines; a last line without a newline is answered like any other.
#![tactic(auto)]

ghost use Rattle.io.specs.Counts.{IsPrefixLen};

use live::Auction;
use std::io::{Read, Stdin};

const STDOUT: i32 = 1;

// What is kept between bytes: the record and its tables, the line, and how many bytes of it are in. More than there is room for: the line is too long.
#[derive(Drop)]
struct Session {
    record: Auction,
    tables: [i16; console::HELD_NUMBERS],
    line: [u8; 4096],
    filled: usize,
}

impl Session {
    // Answers the line, and begins the next. A line that is too long is answered as one with nothing in it, which is none of the console's lines.
    fn answer(&mut self) {
        let mut out = io::buffer();
        let line = self.line.get(..self.filled).unwrap_or(&[]);
        let told = console::answer(self.record, line, &mut out, &mut self.tables);
        io::write_all(STDOUT, &out[..told.length]);
        self.record = told.next;
        self.filled = 0;
    }

    // One byte more.
    fn enter(&mut self, byte: u8) {
        if byte == b'\n' {
            self.answer();
        } else if self.filled < self.line.len() {
            self.line[self.filled] = byte;
            self.filled += 1;
        } else {
            self.filled = self.line.len() + 1;
        }
    }

    // Byte after byte.
    fn enter_all(&mut self, bytes: &[u8]) {
        for byte in bytes {
            self.enter(*byte);
        }
    }

    // The end of the input: what is in is a line.
    fn finish(&mut self) {
        if self.filled != 0 {
            self.answer();
        }
    }
}

// How many bytes one read of what there is gives: none at the end of the input, and none where the read fails.
fn read_some(input: &mut Stdin, bytes: &mut [u8]) -> usize
    ensures { IsPrefixLen result bytes.new }
{
    input.read(bytes).unwrap_or(0)
}

// The record of zeros: that of an opening with no items.
fn zeros() -> Auction {
    live::open(0, 0, &[0], &mut [0]).next
}

// Reads what there is, and answers each line that it completes. A proved loop has to end, and nothing says that the input does: the reads are counted, to a
// number that no run comes to, where the program would end.
fn run(input: &mut Stdin, session: &mut Session) {
    let mut bytes = io::buffer();
    for _ in 0..u64::MAX {
        let n = read_some(input, &mut bytes);
        if n == 0 {
            return session.finish();
        }
        session.enter_all(&bytes[..n]);
    }
}

fn main(rt: HostRuntime) {
    let mut input = rt.stdin();
    let mut session = Session {
        record: zeros(),
        tables: [0; console::HELD_NUMBERS],
        line: io::buffer(),
        filled: 0,
    };
    run(&mut input, &mut session);
}
