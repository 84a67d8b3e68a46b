// The lent numbers of a sheet: what turns them down, and a bidder's line of the bids.
#![tactic(auto)]

ghost use Rattle.std.specs.Prelude.{◌≡◌, ◌*◌, ◌≤◌};
ghost use Rattle.bids.specs.Refusal.{sealed_refusal, sealed_above_refusal};
ghost use Rattle.bids.specs.Line.{row_shown, row_start, line_refusal, line_shown, line_start, starts_at};

// How many bids there are.
fn bid_count(items: usize, bidders: usize) -> usize
    requires { (items ≤ 32) × (bidders ≤ 64) }
    ensures { result ≡ bidders * items }
{
    bidders * items
}

// The number that turns a sheet with floors down, or 0: starting prices and floors, one for each item, and bids, bidder after bidder. Where no starting
// price is above 4,095, a floor above 4,095 is above its starting price: 18 is one test.
// Stays: a number, here and in `refusal` and `line_refusal`. Clauses and theorems say document 01's numbers, and C is given them.
#[tactic(auto, using(crate::proofs::Telling::floors_told), unfolding(crate::proofs::Telling::telling))]
pub fn refusal_above(
    items: usize,
    bidders: usize,
    start: &[u16],
    floors: &[u16],
    bids: &[u16],
) -> u8
    ensures { result ≡ sealed_above_refusal items bidders start.now floors.now bids.now }
{
    if sets::outside(32, items) {
        return 1;
    }
    if sets::outside(64, bidders) {
        return 2;
    }
    if start.len() != items || floors.len() != items || bids.len() != bid_count(items, bidders) {
        return 3;
    }
    if prices::any_over(start) {
        return 4;
    }
    if prices::any_under(start, floors) {
        return 18;
    }
    if prices::any_over(bids) {
        return 5;
    }
    0
}

// The number that turns a sheet without floors down, or 0: they are 0.
pub fn refusal(items: usize, bidders: usize, start: &[u16], bids: &[u16]) -> u8
    ensures { result ≡ sealed_refusal items bidders start.now bids.now }
{
    if 32 < items {
        return 1;
    }
    let floors = [0u16; 32];
    refusal_above(items, bidders, start, &floors[..items], bids)
}

// The number that turns down the asking for a bidder's line, or 0.
#[tactic(auto, unfolding(crate::proofs::Telling::telling))]
pub fn line_refusal(bids: &[u16], items: usize, bidders: usize, bidder: usize) -> u8
    ensures { result ≡ line_refusal items bidders bidder bids.now }
{
    if sets::outside(32, items) {
        return 1;
    }
    if sets::outside(64, bidders) {
        return 2;
    }
    if bids.len() != bid_count(items, bidders) {
        return 3;
    }
    if sets::outside(bidders, bidder) {
        return 7;
    }
    0
}

// Row b, counted from 0, of a table of numbers with at most 64 columns: that part itself, or one of length 0 where there is no such row.
// Stays: an index, and not `get`, which does not promise where the part starts, as the clause here does.
pub fn row(table: &[u16], columns: usize, b: u16) -> &[u16]
    ensures { (result.now ≡ row_shown columns b table.now) × starts_at (row_start columns b table.now) table.entry result }
{
    if 64 < columns {
        return &table[..0];
    }
    let start = usize::from(b) * columns;
    let end = start + columns;
    if table.len() < end {
        return &table[..0];
    }
    &table[start..end]
}

// A bidder's line: the part of the bids that is theirs, of length 0 where the call is turned down.
pub fn line(bids: &[u16], items: usize, bidders: usize, bidder: usize) -> &[u16]
    ensures { (result.now ≡ line_shown items bidders bidder bids.now) × starts_at (line_start items bidders bidder bids.now) bids.entry result }
{
    if line_refusal(bids, items, bidders, bidder) != 0 {
        return &bids[..0];
    }
    row(bids, items, (bidder - 1) as u16)
}
