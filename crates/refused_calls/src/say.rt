// Numbers and answers as text.
use live::{Ended, Kind};

// A number of document 01 in two digits.
pub(crate) fn number(n: u8) {
    io::write_all(1, b" ");
    if n < 10 {
        io::write_all(1, b"0");
    }
    io::print_decimal(1, u64::from(n));
}

fn kind(k: Kind) {
    match k {
        Kind::Raised => {
            io::write_all(1, b" raised ");
        }
        Kind::Lowered => {
            io::write_all(1, b" lowered ");
        }
    }
}

fn moved(k: Kind, set: u32) {
    kind(k);
    io::print_decimal(1, u64::from(set));
}

// What ending a round gives.
pub(crate) fn ended(e: Ended) {
    match e {
        Ended::Moved(k, s) => moved(k, s),
        Ended::Closed => {
            io::write_all(1, b" closed");
        }
        Ended::Refused(n) => number(n),
    }
}

// Record and tables are as they were given, or the record is not, or the tables are not.
pub(crate) fn kept(same: bool, tables: bool) {
    if !tables {
        io::write_all(1, b" changed, tables too");
    } else if same {
        io::write_all(1, b" kept");
    } else {
        io::write_all(1, b" changed");
    }
}

// A number of a table.
pub(crate) fn signed(x: i16) {
    if x < 0 {
        io::write_all(1, b"-");
    }
    io::print_decimal(1, u64::from(x.unsigned_abs()));
}

// The record beside an opening.
pub(crate) fn zeros(all: bool) {
    if all {
        io::write_all(1, b" zeros");
    } else {
        io::write_all(1, b" a record");
    }
}
