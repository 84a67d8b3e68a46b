// Sealed letting, in numbers.
ghost use Rattle.std.specs.Prelude.{◌≡◌, ◌+◌, ◌*◌, replicate};
ghost use Rattle.rule.specs.Round.{close};
ghost use Rattle.rule.specs.FallingFirst.{falling_close};
ghost use Rattle.bids.specs.Lent.{rows_of, sheet_of, sheet_above};
ghost use Rattle.bids.specs.Refusal.{sealed_refusal, sealed_above_refusal};
ghost use Rattle.bids.specs.Line.{row_shown, row_start, line_refusal, line_shown, line_start};
ghost use Rattle.assignment.specs.Assigned.{assigned};
ghost use Rattle.demands.specs.Demands.{surplus_of, demands_of, surpluses_of, held};
ghost use Rattle.auction.specs.Sealed.{sealed_of, sealed_above_of, falling_first_of};
ghost use Rattle.dewgneiss.specs.Lent.{lent_refusal, lent_above_refusal};
ghost use Rattle.promises.specs.Calls.{Stands, Leaves};
ghost use Rattle.promises.specs.Demand3Sealed.{Least};

// ---- exported, into lent lists

pub fn dewgneiss_sealed(
    items: u32,
    bidders: u32,
    start: &[u16],
    bids: &[u16],
    rounds: &mut [u32],
    prices: &mut [u16],
    options: &mut [u8],
    gains: &mut [u16],
) -> u8
    ensures number { result ≡ lent_refusal items bidders start.now bids.now rounds.old prices.old options.old gains.old }
    ensures lists { Leaves (sheet_of items bidders start.now bids.now) (close (sheet_of items bidders start.now bids.now))
        result rounds.old prices.old options.old gains.old rounds.new prices.new options.new gains.new }
{
    dewgneiss::dewgneiss_sealed(items, bidders, start, bids, rounds, prices, options, gains)
}

pub fn dewgneiss_sealed_above(
    items: u32,
    bidders: u32,
    start: &[u16],
    floors: &[u16],
    bids: &[u16],
    rounds: &mut [u32],
    prices: &mut [u16],
    options: &mut [u8],
    gains: &mut [u16],
) -> u8
    ensures number { result ≡ lent_above_refusal items bidders start.now floors.now bids.now rounds.old prices.old options.old gains.old }
    ensures lists { Leaves (sheet_above items bidders start.now floors.now bids.now) (close (sheet_above items bidders start.now floors.now bids.now))
        result rounds.old prices.old options.old gains.old rounds.new prices.new options.new gains.new }
{
    dewgneiss::dewgneiss_sealed_above(
        items, bidders, start, floors, bids, rounds, prices, options, gains,
    )
}

pub fn dewgneiss_falling_first(
    items: u32,
    bidders: u32,
    start: &[u16],
    floors: &[u16],
    bids: &[u16],
    rounds: &mut [u32],
    prices: &mut [u16],
    options: &mut [u8],
    gains: &mut [u16],
) -> u8
    ensures number { result ≡ lent_above_refusal items bidders start.now floors.now bids.now rounds.old prices.old options.old gains.old }
    ensures lists { Leaves (sheet_above items bidders start.now floors.now bids.now) (falling_close (sheet_above items bidders start.now floors.now bids.now))
        result rounds.old prices.old options.old gains.old rounds.new prices.new options.new gains.new }
{
    dewgneiss::dewgneiss_falling_first(
        items, bidders, start, floors, bids, rounds, prices, options, gains,
    )
}

// ---- by value

pub fn sealed(items: usize, bidders: usize, start: &[u16], bids: &[u16]) -> auction::Closing
    ensures outcome { result ≡ sealed_of items bidders start.now bids.now }
    ensures stands { result.refusal ≡ 0 → Stands (sheet_of items bidders start.now bids.now) (close (sheet_of items bidders start.now bids.now)) result }
{
    auction::sealed(items, bidders, start, bids)
}

pub fn sealed_above(
    items: usize,
    bidders: usize,
    start: &[u16],
    floors: &[u16],
    bids: &[u16],
) -> auction::Closing
    ensures outcome { result ≡ sealed_above_of items bidders start.now floors.now bids.now }
    ensures stands { result.refusal ≡ 0
        → Stands (sheet_above items bidders start.now floors.now bids.now) (close (sheet_above items bidders start.now floors.now bids.now)) result }
{
    auction::sealed_above(items, bidders, start, floors, bids)
}

// but for its rounds, the outcome of rising first
pub fn falling_first(
    items: usize,
    bidders: usize,
    start: &[u16],
    floors: &[u16],
    bids: &[u16],
) -> auction::Closing
    ensures outcome { result ≡ falling_first_of items bidders start.now floors.now bids.now }
    ensures stands { result.refusal ≡ 0
        → Stands (sheet_above items bidders start.now floors.now bids.now) (falling_close (sheet_above items bidders start.now floors.now bids.now)) result }
    ensures prices { result.refusal ≡ 0 → result.prices ≡ (sealed_above_of items bidders start.now floors.now bids.now).prices }
    ensures names { result.refusal ≡ 0 → result.assignment ≡ (sealed_above_of items bidders start.now floors.now bids.now).assignment }
    ensures gains { result.refusal ≡ 0 → result.gains ≡ (sealed_above_of items bidders start.now floors.now bids.now).gains }
{
    auction::falling_first(items, bidders, start, floors, bids)
}

// ---- the lent numbers of a sheet: what turns them down; a raker's line, which is that part itself, 2 bytes further on for each number; a row of a table likewise

pub fn refusal(items: usize, bidders: usize, start: &[u16], bids: &[u16]) -> u8
    ensures { result ≡ sealed_refusal items bidders start.now bids.now }
{
    bids::refusal(items, bidders, start, bids)
}

pub fn refusal_above(
    items: usize,
    bidders: usize,
    start: &[u16],
    floors: &[u16],
    bids: &[u16],
) -> u8
    ensures { result ≡ sealed_above_refusal items bidders start.now floors.now bids.now }
{
    bids::refusal_above(items, bidders, start, floors, bids)
}

pub fn line_refusal(bids: &[u16], items: usize, bidders: usize, bidder: usize) -> u8
    ensures { result ≡ line_refusal items bidders bidder bids.now }
{
    bids::line_refusal(bids, items, bidders, bidder)
}

pub fn line(bids: &[u16], items: usize, bidders: usize, bidder: usize) -> &[u16]
    ensures holds { result.now ≡ line_shown items bidders bidder bids.now }
    ensures block { result.ref_ptr.0 ≡ bids.entry.ref_ptr.0 }
    ensures place { result.ref_ptr.1 ≡ bids.entry.ref_ptr.1 + 2 * line_start items bidders bidder bids.now }
{
    bids::line(bids, items, bidders, bidder)
}

pub fn row(table: &[u16], columns: usize, b: u16) -> &[u16]
    ensures holds { result.now ≡ row_shown columns b table.now }
    ensures block { result.ref_ptr.0 ≡ table.entry.ref_ptr.0 }
    ensures place { result.ref_ptr.1 ≡ table.entry.ref_ptr.1 + 2 * row_start columns b table.now }
{
    bids::row(table, columns, b)
}

// ---- the parts of sealed letting: demands and the highest gains, the least rents, the first names

pub fn surplus_of(prices: &[u16; 32], line: &[u16]) -> u16
    ensures { result ≡ surplus_of prices.now line.now }
{
    demands::surplus_of(prices, line)
}

pub fn demands_at(
    prices: &[u16; 32],
    bids: &[u16],
    items: usize,
    bidders: usize,
) -> demands::Demands
    ensures { result ≡ held (demands_of items bidders prices.now bids.now) (surpluses_of items bidders prices.now bids.now) }
{
    demands::demands_at(prices, bids, items, bidders)
}

pub fn close_and_turn(
    start: &[u16],
    floors: &[u16],
    bids: &[u16],
    items: usize,
    bidders: usize,
) -> least::Ends
    ensures close { sealed_above_refusal items bidders start.now floors.now bids.now ≡ 0
        → Least items (rows_of items bidders bids.now) floors.now result.close }
    ensures turn { sealed_above_refusal items bidders start.now floors.now bids.now ≡ 0
        → Least items (rows_of items bidders bids.now) start.now result.turn }
    ensures zeros { (sealed_above_refusal items bidders start.now floors.now bids.now ≡ 0 → ⊥)
        → (result.close ≡ replicate 32 0) × (result.turn ≡ replicate 32 0) }
{
    least::close_and_turn(start, floors, bids, items, bidders)
}

pub fn first(sets: &[u32; 64], nulls: u64, above: u32, bidders: usize) -> [u8; 64]
    ensures { result ≡ assigned sets.now nulls above bidders }
{
    assignment::first(sets, nulls, above, bidders)
}
