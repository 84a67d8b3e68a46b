// The functions of `bench_exports` for the benchmark and the comparison to link: the same names, arguments and clauses. A slice is passed as its address and its
// length.
#![tactic(auto)]

ghost use Rattle.std.specs.Prelude.{◌≡◌, length};
ghost use Rattle.lines.specs.Lines.{closing_sheet, closing_length, writes, after_writing};
ghost use Rattle.reports.specs.Report.{saying};
ghost use Rattle.live.specs.Calls.{open_number, open_above_number, open_auction, open_above, filled_by, report, clear, end_answer, end_next, end_tables};
ghost use Rattle.live.specs.Reading.{read_number, read_bytes};
ghost use Rattle.bench_exports.specs.Lent.{record_in, StandsIn, end_number_of, move_in};

// Opens an auction without floors: the number that turns it down, or 0, and the record beside it.
#[unsafe(no_mangle)]
pub extern "C" fn bench_open(
    items: usize,
    bidders: usize,
    start: &[u16],
    numbers: &mut [u64; 4],
    prices: &mut [u16; 32],
    floors: &mut [u16; 32],
    sets: &mut [u32; 64],
    rounds: &mut [u32; 3],
    tables: &mut [i16],
) -> u8
    ensures number { result ≡ (open_auction items bidders start.now tables.old).number }
    ensures record { StandsIn (open_auction items bidders start.now tables.old).next
        numbers.new prices.new floors.new sets.new rounds.new }
    ensures tables { tables.new ≡ filled_by (open_number items bidders start.now tables.old) items bidders tables.old }
{
    bench_exports::bench_open(
        items, bidders, start, numbers, prices, floors, sets, rounds, tables,
    )
}

// Opens one with floors, `lowest`: the same.
#[unsafe(no_mangle)]
pub extern "C" fn bench_open_above(
    items: usize,
    bidders: usize,
    start: &[u16],
    lowest: &[u16],
    numbers: &mut [u64; 4],
    prices: &mut [u16; 32],
    floors: &mut [u16; 32],
    sets: &mut [u32; 64],
    rounds: &mut [u32; 3],
    tables: &mut [i16],
) -> u8
    ensures number { result ≡ (open_above items bidders start.now lowest.now tables.old).number }
    ensures record { StandsIn (open_above items bidders start.now lowest.now tables.old).next
        numbers.new prices.new floors.new sets.new rounds.new }
    ensures tables { tables.new ≡ filled_by (open_above_number items bidders start.now lowest.now tables.old) items bidders tables.old }
{
    bench_exports::bench_open_above(
        items, bidders, start, lowest, numbers, prices, floors, sets, rounds, tables,
    )
}

// A bidder's report: the number that turns it down, or 0.
#[unsafe(no_mangle)]
pub extern "C" fn bench_report(
    numbers: &mut [u64; 4],
    prices: &mut [u16; 32],
    floors: &mut [u16; 32],
    sets: &mut [u32; 64],
    rounds: &mut [u32; 3],
    bidder: usize,
    null: bool,
    set: u32,
    tables: &[i16],
) -> u8
    ensures number { result ≡ (report (record_in numbers.old prices.old floors.old sets.old rounds.old) tables.now bidder (saying null set)).number }
    ensures record { StandsIn (report (record_in numbers.old prices.old floors.old sets.old rounds.old) tables.now bidder (saying null set)).next
        numbers.new prices.new floors.new sets.new rounds.new }
{
    bench_exports::bench_report(
        numbers, prices, floors, sets, rounds, bidder, null, set, tables,
    )
}

// Clears the round's reports: the number that turns it down, or 0.
#[unsafe(no_mangle)]
pub extern "C" fn bench_clear(
    numbers: &mut [u64; 4],
    prices: &mut [u16; 32],
    floors: &mut [u16; 32],
    sets: &mut [u32; 64],
    rounds: &mut [u32; 3],
) -> u8
    ensures number { result ≡ (clear (record_in numbers.old prices.old floors.old sets.old rounds.old)).number }
    ensures record { StandsIn (clear (record_in numbers.old prices.old floors.old sets.old rounds.old)).next
        numbers.new prices.new floors.new sets.new rounds.new }
{
    bench_exports::bench_clear(numbers, prices, floors, sets, rounds)
}

// Ends the round: the number that turns it down, or 0.
#[unsafe(no_mangle)]
pub extern "C" fn bench_end(
    numbers: &mut [u64; 4],
    prices: &mut [u16; 32],
    floors: &mut [u16; 32],
    sets: &mut [u32; 64],
    rounds: &mut [u32; 3],
    moved: &mut [u32; 2],
    tables: &mut [i16],
) -> u8
    ensures number { result ≡ end_number_of (end_answer (record_in numbers.old prices.old floors.old sets.old rounds.old) tables.old) }
    ensures moved { moved.new ≡ move_in (end_answer (record_in numbers.old prices.old floors.old sets.old rounds.old) tables.old) }
    ensures record { StandsIn (end_next (record_in numbers.old prices.old floors.old sets.old rounds.old) tables.old)
        numbers.new prices.new floors.new sets.new rounds.new }
    ensures tables { tables.new ≡ end_tables (record_in numbers.old prices.old floors.old sets.old rounds.old) tables.old }
{
    bench_exports::bench_end(numbers, prices, floors, sets, rounds, moved, tables)
}

// Reads the close: the number that turns it down, or 0 with the closing sheet at the front of `out`.
#[unsafe(no_mangle)]
pub extern "C" fn bench_read(
    numbers: &[u64; 4],
    prices: &[u16; 32],
    floors: &[u16; 32],
    sets: &[u32; 64],
    rounds: &[u32; 3],
    out: &mut [u8],
) -> u8
    ensures number { result ≡ read_number (record_in numbers.now prices.now floors.now sets.now rounds.now) out.old }
    ensures bytes { out.new ≡ read_bytes (record_in numbers.now prices.now floors.now sets.now rounds.now) out.old }
{
    bench_exports::bench_read(numbers, prices, floors, sets, rounds, out)
}

// Writes a closing sheet to the front of `out`, where there is room for it and the counts are at most 32 and 64.
#[unsafe(no_mangle)]
pub extern "C" fn bench_write_closing<'a>(
    out: &mut [u8],
    items: u32,
    bidders: u32,
    raised: u32,
    lowered: u32,
    prices: &'a [u16; 32],
    options: &'a [u8; 64],
) -> bool
    ensures { (result ≡ writes items bidders (closing_length items bidders) (length out.old))
        × (out.new ≡ after_writing items bidders (closing_sheet items bidders raised lowered prices.now options.now) out.old) }
{
    bench_exports::bench_write_closing(out, items, bidders, raised, lowered, prices, options)
}
