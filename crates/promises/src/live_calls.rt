// The live letting's calls, and its console.
ghost use Rattle.std.specs.Prelude.{◌≡◌, length};
ghost use Rattle.lines.specs.Lines.{closing_sheet, closing_length, written_to, writes, after_writing};
ghost use Rattle.reports.specs.Report.{saying};
ghost use Rattle.live.specs.Calls.{open_number, open_above_number, open_auction, open_above, filled_by, report, clear, ending_of, end_answer, end_next, end_tables};
ghost use Rattle.live.specs.Reading.{read_number, read_bytes};
ghost use Rattle.console.specs.Orders.{order_of};
ghost use Rattle.console.specs.Steps.{told_to};
ghost use Rattle.bench_exports.specs.Lent.{record_in, end_number_of, move_in};
ghost use Rattle.promises.specs.Calls.{InLists};

use live::{Auction, Reply, Step};

pub fn open(items: usize, bidders: usize, start: &[u16], tables: &mut [i16]) -> Reply
    ensures answer { result ≡ open_auction items bidders start.now tables.old }
    ensures tables { tables.new ≡ filled_by (open_number items bidders start.now tables.old) items bidders tables.old }
{
    live::open(items, bidders, start, tables)
}

pub fn open_above(
    items: usize,
    bidders: usize,
    start: &[u16],
    floors: &[u16],
    tables: &mut [i16],
) -> Reply
    ensures answer { result ≡ open_above items bidders start.now floors.now tables.old }
    ensures tables { tables.new ≡ filled_by (open_above_number items bidders start.now floors.now tables.old) items bidders tables.old }
{
    live::open_above(items, bidders, start, floors, tables)
}

pub fn report(held: Auction, bidder: usize, null: bool, set: u32, tables: &[i16]) -> Reply
    ensures { result ≡ report held tables.now bidder (saying null set) }
{
    held.report(bidder, null, set, tables)
}

pub fn end(held: Auction, tables: &mut [i16]) -> Step
    ensures answer { ending_of result.ended ≡ end_answer held tables.old }
    ensures next { result.next ≡ end_next held tables.old }
    ensures tables { tables.new ≡ end_tables held tables.old }
{
    held.end(tables)
}

pub fn clear(held: Auction) -> Reply
    ensures { result ≡ clear held }
{
    held.clear()
}

pub fn read(held: Auction, out: &mut [u8]) -> u8
    ensures number { result ≡ read_number held out.old }
    ensures bytes { out.new ≡ read_bytes held out.old }
{
    held.read(out)
}

// ---- the console: what a line says, and what is answered; it keeps the record and the tables

pub fn order_of(line: &[u8]) -> console::Order
    ensures { result ≡ order_of line.now }
{
    console::order_of(line)
}

pub fn console_answer(
    held: Auction,
    line: &[u8],
    out: &mut [u8],
    tables: &mut [i16],
) -> console::Answered
    ensures next { result.next ≡ (told_to held tables.old line.now (length out.old)).next }
    ensures count { result.length ≡ length (told_to held tables.old line.now (length out.old)).bytes }
    ensures bytes { out.new ≡ written_to out.old (told_to held tables.old line.now (length out.old)).bytes }
    ensures tables { tables.new ≡ (told_to held tables.old line.now (length out.old)).tables }
{
    console::answer(held, line, out, tables)
}

// ---- exported: the same calls on a record in lent lists

pub fn bench_open(
    items: usize,
    bidders: usize,
    start: &[u16],
    numbers: &mut [u64; 4],
    prices: &mut [u16; 32],
    floors: &mut [u16; 32],
    sets: &mut [u32; 64],
    rounds: &mut [u32; 3],
    tables: &mut [i16],
) -> u8
    ensures number { result ≡ (open_auction items bidders start.now tables.old).number }
    ensures record { InLists (open_auction items bidders start.now tables.old).next
        numbers.new prices.new floors.new sets.new rounds.new }
    ensures tables { tables.new ≡ filled_by (open_number items bidders start.now tables.old) items bidders tables.old }
{
    bench_exports::bench_open(
        items, bidders, start, numbers, prices, floors, sets, rounds, tables,
    )
}

pub fn bench_open_above(
    items: usize,
    bidders: usize,
    start: &[u16],
    lowest: &[u16],
    numbers: &mut [u64; 4],
    prices: &mut [u16; 32],
    floors: &mut [u16; 32],
    sets: &mut [u32; 64],
    rounds: &mut [u32; 3],
    tables: &mut [i16],
) -> u8
    ensures number { result ≡ (open_above items bidders start.now lowest.now tables.old).number }
    ensures record { InLists (open_above items bidders start.now lowest.now tables.old).next
        numbers.new prices.new floors.new sets.new rounds.new }
    ensures tables { tables.new ≡ filled_by (open_above_number items bidders start.now lowest.now tables.old) items bidders tables.old }
{
    bench_exports::bench_open_above(
        items, bidders, start, lowest, numbers, prices, floors, sets, rounds, tables,
    )
}

pub fn bench_report(
    numbers: &mut [u64; 4],
    prices: &mut [u16; 32],
    floors: &mut [u16; 32],
    sets: &mut [u32; 64],
    rounds: &mut [u32; 3],
    bidder: usize,
    null: bool,
    set: u32,
    tables: &[i16],
) -> u8
    ensures number { result ≡ (report (record_in numbers.old prices.old floors.old sets.old rounds.old) tables.now bidder (saying null set)).number }
    ensures record { InLists (report (record_in numbers.old prices.old floors.old sets.old rounds.old) tables.now bidder (saying null set)).next
        numbers.new prices.new floors.new sets.new rounds.new }
{
    bench_exports::bench_report(
        numbers, prices, floors, sets, rounds, bidder, null, set, tables,
    )
}

pub fn bench_clear(
    numbers: &mut [u64; 4],
    prices: &mut [u16; 32],
    floors: &mut [u16; 32],
    sets: &mut [u32; 64],
    rounds: &mut [u32; 3],
) -> u8
    ensures number { result ≡ (clear (record_in numbers.old prices.old floors.old sets.old rounds.old)).number }
    ensures record { InLists (clear (record_in numbers.old prices.old floors.old sets.old rounds.old)).next
        numbers.new prices.new floors.new sets.new rounds.new }
{
    bench_exports::bench_clear(numbers, prices, floors, sets, rounds)
}

pub fn bench_end(
    numbers: &mut [u64; 4],
    prices: &mut [u16; 32],
    floors: &mut [u16; 32],
    sets: &mut [u32; 64],
    rounds: &mut [u32; 3],
    moved: &mut [u32; 2],
    tables: &mut [i16],
) -> u8
    ensures number { result ≡ end_number_of (end_answer (record_in numbers.old prices.old floors.old sets.old rounds.old) tables.old) }
    ensures moved { moved.new ≡ move_in (end_answer (record_in numbers.old prices.old floors.old sets.old rounds.old) tables.old) }
    ensures record { InLists (end_next (record_in numbers.old prices.old floors.old sets.old rounds.old) tables.old)
        numbers.new prices.new floors.new sets.new rounds.new }
    ensures tables { tables.new ≡ end_tables (record_in numbers.old prices.old floors.old sets.old rounds.old) tables.old }
{
    bench_exports::bench_end(numbers, prices, floors, sets, rounds, moved, tables)
}

pub fn bench_read(
    numbers: &[u64; 4],
    prices: &[u16; 32],
    floors: &[u16; 32],
    sets: &[u32; 64],
    rounds: &[u32; 3],
    out: &mut [u8],
) -> u8
    ensures number { result ≡ read_number (record_in numbers.now prices.now floors.now sets.now rounds.now) out.old }
    ensures bytes { out.new ≡ read_bytes (record_in numbers.now prices.now floors.now sets.now rounds.now) out.old }
{
    bench_exports::bench_read(numbers, prices, floors, sets, rounds, out)
}

pub fn bench_write_closing<'a>(
    out: &mut [u8],
    items: u32,
    bidders: u32,
    raised: u32,
    lowered: u32,
    prices: &'a [u16; 32],
    options: &'a [u8; 64],
) -> bool
    ensures answer { result ≡ writes items bidders (closing_length items bidders) (length out.old) }
    ensures bytes { out.new ≡ after_writing items bidders (closing_sheet items bidders raised lowered prices.now options.now) out.old }
{
    bench_exports::bench_write_closing(out, items, bidders, raised, lowered, prices, options)
}
