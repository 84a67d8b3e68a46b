// The live calls on a record in lent lists, and the writing of a closing sheet, which `bench_exports_c` exports for the benchmark and the comparison to link. A
// record is lent as its numbers (items, bidders, the bidders who say null, the bidders who have reported), its prices, its floors, its item sets, and its rounds
// (raised, lowered, and the phase: 0 rising, 1 falling, 2 closed); each call leaves the next record there. The tables are lent behind it.
#![tactic(auto)]

ghost use Rattle.std.specs.Prelude.{◌≡◌, length};
ghost use Rattle.lines.specs.Lines.{closing_sheet, closing_length, writes, after_writing};
ghost use Rattle.reports.specs.Report.{saying};
ghost use Rattle.live.specs.Calls.{open_number, open_above_number, open_auction, open_above, filled_by, report, clear, ending_of, end_answer, end_next, end_tables};
ghost use Rattle.live.specs.Reading.{read_number, read_bytes};
ghost use Rattle.bench_exports.specs.Lent.{phase_of, phase_number, record_in, StandsIn, end_number_of, move_in};

use live::{Auction, Ended, Kind, Phase};

// Stays: `Phase` and `u32` are both of other crates, so that no `From` between them can stand here, and `live` has no use for one.
fn phase_of(number: u32) -> Phase
    ensures { result ≡ phase_of number }
{
    match number {
        0 => Phase::Rising,
        1 => Phase::Falling,
        _ => Phase::Closed,
    }
}

// Stays: as `phase_of`, and likewise `end_number` below.
fn phase_number(phase: Phase) -> u32
    ensures { result ≡ phase_number phase }
{
    match phase {
        Phase::Rising => 0,
        Phase::Falling => 1,
        Phase::Closed => 2,
    }
}

// The record that stands in the lists. Stays: lists are the C interface.
fn record_in(
    numbers: &[u64; 4],
    prices: &[u16; 32],
    floors: &[u16; 32],
    sets: &[u32; 64],
    rounds: &[u32; 3],
) -> Auction
    ensures { result ≡ record_in numbers.now prices.now floors.now sets.now rounds.now }
{
    Auction {
        items: numbers[0] as usize,
        bidders: numbers[1] as usize,
        prices: *prices,
        floors: *floors,
        sets: *sets,
        nulls: numbers[2],
        reported: numbers[3],
        phase: phase_of(rounds[2]),
        raised: rounds[0],
        lowered: rounds[1],
    }
}

// Leaves a record in the lists.
fn leave(
    auction: Auction,
    numbers: &mut [u64; 4],
    prices: &mut [u16; 32],
    floors: &mut [u16; 32],
    sets: &mut [u32; 64],
    rounds: &mut [u32; 3],
)
    ensures { StandsIn auction numbers.new prices.new floors.new sets.new rounds.new }
{
    *numbers = [
        auction.items as u64,
        auction.bidders as u64,
        auction.nulls,
        auction.reported,
    ];
    // Stays: no proof is made of an array field that is stored straight.
    let next_prices = auction.prices;
    let next_floors = auction.floors;
    let next_sets = auction.sets;
    *prices = next_prices;
    *floors = next_floors;
    *sets = next_sets;
    *rounds = [auction.raised, auction.lowered, phase_number(auction.phase)];
}

// Opens an auction without floors: the number that turns it down, or 0, and the record beside it.
pub fn bench_open(
    items: usize,
    bidders: usize,
    start: &[u16],
    numbers: &mut [u64; 4],
    prices: &mut [u16; 32],
    floors: &mut [u16; 32],
    sets: &mut [u32; 64],
    rounds: &mut [u32; 3],
    tables: &mut [i16],
) -> u8
    ensures number { result ≡ (open_auction items bidders start.now tables.old).number }
    ensures record { StandsIn (open_auction items bidders start.now tables.old).next
        numbers.new prices.new floors.new sets.new rounds.new }
    ensures tables { tables.new ≡ filled_by (open_number items bidders start.now tables.old) items bidders tables.old }
{
    let opened = live::open(items, bidders, start, tables);
    leave(opened.next, numbers, prices, floors, sets, rounds);
    opened.number
}

// Opens one with floors, `lowest`: the same.
pub fn bench_open_above(
    items: usize,
    bidders: usize,
    start: &[u16],
    lowest: &[u16],
    numbers: &mut [u64; 4],
    prices: &mut [u16; 32],
    floors: &mut [u16; 32],
    sets: &mut [u32; 64],
    rounds: &mut [u32; 3],
    tables: &mut [i16],
) -> u8
    ensures number { result ≡ (open_above items bidders start.now lowest.now tables.old).number }
    ensures record { StandsIn (open_above items bidders start.now lowest.now tables.old).next
        numbers.new prices.new floors.new sets.new rounds.new }
    ensures tables { tables.new ≡ filled_by (open_above_number items bidders start.now lowest.now tables.old) items bidders tables.old }
{
    let opened = live::open_above(items, bidders, start, lowest, tables);
    leave(opened.next, numbers, prices, floors, sets, rounds);
    opened.number
}

// A bidder's report: the number that turns it down, or 0.
pub fn bench_report(
    numbers: &mut [u64; 4],
    prices: &mut [u16; 32],
    floors: &mut [u16; 32],
    sets: &mut [u32; 64],
    rounds: &mut [u32; 3],
    bidder: usize,
    null: bool,
    set: u32,
    tables: &[i16],
) -> u8
    ensures number { result ≡ (report (record_in numbers.old prices.old floors.old sets.old rounds.old) tables.now bidder (saying null set)).number }
    ensures record { StandsIn (report (record_in numbers.old prices.old floors.old sets.old rounds.old) tables.now bidder (saying null set)).next
        numbers.new prices.new floors.new sets.new rounds.new }
{
    let auction = record_in(numbers, prices, floors, sets, rounds);
    let reported = auction.report(bidder, null, set, tables);
    leave(reported.next, numbers, prices, floors, sets, rounds);
    reported.number
}

// Clears the round's reports: the number that turns it down, or 0.
pub fn bench_clear(
    numbers: &mut [u64; 4],
    prices: &mut [u16; 32],
    floors: &mut [u16; 32],
    sets: &mut [u32; 64],
    rounds: &mut [u32; 3],
) -> u8
    ensures number { result ≡ (clear (record_in numbers.old prices.old floors.old sets.old rounds.old)).number }
    ensures record { StandsIn (clear (record_in numbers.old prices.old floors.old sets.old rounds.old)).next
        numbers.new prices.new floors.new sets.new rounds.new }
{
    let cleared = record_in(numbers, prices, floors, sets, rounds).clear();
    leave(cleared.next, numbers, prices, floors, sets, rounds);
    cleared.number
}

// What ending a round gave: its number, or 0.
fn end_number(ended: Ended) -> u8
    ensures { result ≡ end_number_of (ending_of ended) }
{
    match ended {
        Ended::Moved(..) | Ended::Closed => 0,
        Ended::Refused(number) => number,
    }
}

// The move: 1 and the items raised, 2 and the items lowered, or zeros where nothing moves.
fn put_move(ended: Ended, moved: &mut [u32; 2])
    ensures { moved.new ≡ move_in (ending_of ended) }
{
    *moved = match ended {
        Ended::Moved(Kind::Raised, set) => [1, set],
        Ended::Moved(Kind::Lowered, set) => [2, set],
        Ended::Closed | Ended::Refused(_) => [0, 0],
    };
}

// Ends the round: the number that turns it down, or 0.
pub fn bench_end(
    numbers: &mut [u64; 4],
    prices: &mut [u16; 32],
    floors: &mut [u16; 32],
    sets: &mut [u32; 64],
    rounds: &mut [u32; 3],
    moved: &mut [u32; 2],
    tables: &mut [i16],
) -> u8
    ensures number { result ≡ end_number_of (end_answer (record_in numbers.old prices.old floors.old sets.old rounds.old) tables.old) }
    ensures moved { moved.new ≡ move_in (end_answer (record_in numbers.old prices.old floors.old sets.old rounds.old) tables.old) }
    ensures record { StandsIn (end_next (record_in numbers.old prices.old floors.old sets.old rounds.old) tables.old)
        numbers.new prices.new floors.new sets.new rounds.new }
    ensures tables { tables.new ≡ end_tables (record_in numbers.old prices.old floors.old sets.old rounds.old) tables.old }
{
    let step = record_in(numbers, prices, floors, sets, rounds).end(tables);
    leave(step.next, numbers, prices, floors, sets, rounds);
    put_move(step.ended, moved);
    end_number(step.ended)
}

// Reads the close: the number that turns it down, or 0 with the closing sheet at the front of `out`.
pub fn bench_read(
    numbers: &[u64; 4],
    prices: &[u16; 32],
    floors: &[u16; 32],
    sets: &[u32; 64],
    rounds: &[u32; 3],
    out: &mut [u8],
) -> u8
    ensures number { result ≡ read_number (record_in numbers.now prices.now floors.now sets.now rounds.now) out.old }
    ensures bytes { out.new ≡ read_bytes (record_in numbers.now prices.now floors.now sets.now rounds.now) out.old }
{
    record_in(numbers, prices, floors, sets, rounds).read(out)
}

// Writes a closing sheet to the front of `out`, where there is room for it and the counts are at most 32 and 64.
pub fn bench_write_closing<'a>(
    out: &mut [u8],
    items: u32,
    bidders: u32,
    raised: u32,
    lowered: u32,
    prices: &'a [u16; 32],
    options: &'a [u8; 64],
) -> bool
    ensures { (result ≡ writes items bidders (closing_length items bidders) (length out.old))
        × (out.new ≡ after_writing items bidders (closing_sheet items bidders raised lowered prices.now options.now) out.old) }
{
    let m = items as usize;
    let n = bidders as usize;
    lines::write_closing(out, m, n, raised, lowered, prices, options)
}
