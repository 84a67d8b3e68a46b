// A line of the input, 154 bytes: 48 with a letter and what is asked in words, then numbers in hexadecimal digits, each at its place.
ghost use Rattle.std.specs.Prelude.{◌≤◌, length};

use live::{Auction, Phase};

// What is asked.
pub(crate) fn words(line: &[u8; 48]) {
    io::write_all(1, line);
}

// The number in so many digits at a place; 0 where there is none.
pub(crate) fn number(line: &[u8; 106], at: usize, digits: usize) -> u32 {
    digits::number_at(line, at, digits).unwrap_or(0)
}

// A count, a place or a bidder's number: two digits.
pub(crate) fn count(line: &[u8; 106], at: usize) -> usize {
    number(line, at, 2) as usize
}

// As many of these as the two digits at a place say; none where there are not so many.
pub(crate) fn some<T>(line: &[u8; 106], at: usize, xs: &[T]) -> usize
    ensures { result ≤ length xs.now }
{
    let n = count(line, at);
    if n <= xs.len() { n } else { 0 }
}

// A price or a floor: four digits.
pub(crate) fn price(line: &[u8; 106], at: usize) -> u16 {
    (number(line, at, 4) % 65536) as u16
}

// A set of bidders: sixteen digits.
fn bidders(line: &[u8; 106], upper: usize, lower: usize) -> u64 {
    let high = u64::from(number(line, upper, 8));
    high << 32 | u64::from(number(line, lower, 8))
}

// How the tables are lent: 1 one number too few, 2 one too many, else all of them.
pub(crate) fn lending(line: &[u8; 106]) -> u32 {
    number(line, 19, 2)
}

// A number of a table: below 0 where the first two digits are not 0, and how much in four.
pub(crate) fn signed(line: &[u8; 106], sign: usize, at: usize) -> i16 {
    let much = (number(line, at, 4) % 4097) as i16;
    if number(line, sign, 2) != 0 {
        -much
    } else {
        much
    }
}

fn phase(line: &[u8; 106]) -> Phase {
    match number(line, 7, 1) {
        0 => Phase::Rising,
        1 => Phase::Falling,
        _ => Phase::Closed,
    }
}

// The prices, or the floors, of items 1 and 2, and one more at a place.
fn amounts(line: &[u8; 106], first: usize, second: usize, place: usize, more: usize) -> [u16; 32] {
    let mut all = [0; 32];
    if let Some(amount) = all.get_mut(count(line, place)) {
        *amount = price(line, more);
    }
    all[0] = price(line, first);
    all[1] = price(line, second);
    all
}

pub(crate) fn floors(line: &[u8; 106]) -> [u16; 32] {
    amounts(line, 88, 93, 98, 101)
}

// The item sets of bidders 1 to 3, and one more at a place.
fn sets(line: &[u8; 106]) -> [u32; 64] {
    let mut all = [0; 64];
    if let Some(set) = all.get_mut(count(line, 49)) {
        *set = number(line, 52, 1);
    }
    all[0] = number(line, 45, 1);
    all[1] = number(line, 46, 1);
    all[2] = number(line, 47, 1);
    all
}

// A record: items, bidders, phase, rounds raised and lowered, prices, item sets, who says null, who has reported, floors.
pub(crate) fn record(line: &[u8; 106]) -> Auction {
    Auction {
        items: count(line, 1),
        bidders: count(line, 4),
        prices: amounts(line, 27, 32, 37, 40),
        floors: floors(line),
        sets: sets(line),
        nulls: bidders(line, 54, 62),
        reported: bidders(line, 71, 79),
        phase: phase(line),
        raised: number(line, 9, 8),
        lowered: number(line, 18, 8),
    }
}
