// The tables: 1,089 numbers for each bidder, kept from call to call beside the record. Each call is lent those of its bidders.
ghost use Rattle.std.specs.Prelude.{◌≤◌, length};

// How many numbers are kept: those of 64 bidders.
pub(crate) const HELD_NUMBERS: usize = 64 * 1089;

// How many numbers the tables of so many bidders have, and all that there are for more than 64.
fn whole(bidders: usize) -> usize
    ensures { result ≤ 69696 }
{
    bidders.min(64) * 1089
}

// How many numbers a call is lent: those of its bidders; for 1 one number too few, for 2 one too many.
fn wanted(how: u32, bidders: usize) -> usize {
    let n = whole(bidders);
    match how {
        1 => n.saturating_sub(1),
        2 => n + 1,
        _ => n,
    }
}

// The same, and no more than there are.
pub(crate) fn lent(how: u32, bidders: usize, tables: &[i16; HELD_NUMBERS]) -> usize
    ensures { result ≤ length tables.now }
{
    let n = wanted(how, bidders);
    if n <= tables.len() { n } else { 0 }
}

// The tables of so many bidders, filled anew, each for all bids of 0 to 4,095.
pub(crate) fn fill_all(tables: &mut [i16], bidders: usize, items: usize) {
    for table in tables.chunks_exact_mut(1089).take(bidders) {
        differences::fill(table, items);
    }
}

// Where the number of a bidder's table stands, by row and column.
pub(crate) fn place(bidder: u32, row: u32, column: u32) -> usize {
    if bidder == 0 {
        return 0;
    }
    (bidder - 1) as usize * 1089 + row as usize * 33 + column as usize
}

pub(crate) fn put(tables: &mut [i16], at: usize, value: i16) {
    if let Some(number) = tables.get_mut(at) {
        *number = value;
    }
}

// The number at a place, and 0 where there is none.
pub(crate) fn value(tables: &[i16], at: usize) -> i16 {
    tables.get(at).copied().unwrap_or(0)
}
