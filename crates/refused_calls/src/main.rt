// The calls of the live auction and a bidder's line, run on every number that turns them down, on every kind of damaged record and on every kind of damaged
// table. The file `stdin` has a call a line: a letter, what is asked in words, and the arguments. The program writes the words again, and what was given. What
// must be given stands in the file `stdout`, which was written from documents 01 and 02 and not from a run.
#![tactic(auto)]

mod asked; // asked.rt: a line of the input
mod calls; // calls.rt: open, open with floors, report, end, clear and read
mod line; // line.rt: a bidder's line
mod record; // record.rt: the record of zeros
mod say; // say.rt: numbers and answers as text
mod tables; // tables.rt: the tables that the calls are lent

use live::Auction;
use tables::HELD_NUMBERS;

// One line. A record that is given, `d`, is tried in all four calls; `n` fills the tables anew, `t` puts a number into one, `v` shows one; any other line is
// words alone.
fn answer(
    r: Auction,
    words: &[u8; 48],
    line: &[u8; 106],
    held: &mut [i16; HELD_NUMBERS],
) -> Auction {
    asked::words(words);
    match words[0] {
        b'o' => calls::open(line, held),
        b'f' => calls::open_above(line, held),
        b'r' => calls::report(r, line, held),
        b'e' => calls::end(r, asked::lending(line), held),
        b'c' => calls::clear(r),
        b's' => calls::read(r, line),
        b'd' => calls::all(asked::record(line), held),
        b'n' => calls::fill(r, held),
        b't' => calls::put(r, line, held),
        b'v' => calls::show(r, line, held),
        b'l' => line::ask(r, line),
        _ => r,
    }
}

// The record that a line leaves, where there is one more.
fn take_turn(r: Auction, held: &mut [i16; HELD_NUMBERS]) -> Option<Auction> {
    let mut words = [0u8; 48];
    let mut line = [0u8; 106];
    io::read_full(0, &mut words);
    if io::read_full(0, &mut line) < 106 {
        return None;
    }
    let next = answer(r, &words, &line, held);
    io::write_all(1, b"\n");
    Some(next)
}

// The turns are counted, as a proved loop has to end.
fn run(held: &mut [i16; HELD_NUMBERS]) {
    let mut r = record::zeros();
    for _ in 0..1000 {
        let Some(next) = take_turn(r, held) else {
            return;
        };
        r = next;
    }
}

fn main() {
    let mut held = [0; HELD_NUMBERS];
    run(&mut held);
}
