// The sealed auction, the sheets and the tables on lent memory. `dewgneiss_c` exports these functions for Rust or C to link.
// Stays: `as` for `usize`, which has no `From<u32>`.
#![tactic(auto)]

pub mod tables; // tables.rt: one bidder's table of differences

ghost use Rattle.std.specs.Prelude.{◌≡◌, [], ◌∷◌, ◌≤◌, length};
ghost use Rattle.sets.specs.Lists.{places};
ghost use Rattle.auction.specs.Sealed.{sealed_of, sealed_above_of, falling_first_of};
ghost use Rattle.lines.specs.Lines.{written_to};
ghost use Rattle.sheet.specs.Close.{sheet_refusal, closed_to, by_number};
ghost use Rattle.reasons.specs.Sheets.{answer_of};
ghost use Rattle.dewgneiss.specs.Lent.{unfit, lent_refusal, lent_above_refusal, with_lengths};

// Whether the lists lent for the results are not exact.
#[tactic(auto, unfolding(crate::specs::Lent::unfit, rule::specs::Refusal::bad_length))]
fn unfit(
    items: usize,
    bidders: usize,
    rounds: &[u32],
    prices: &[u16],
    options: &[u8],
    gains: &[u16],
) -> bool
    ensures { result ≡ unfit items bidders rounds.now prices.now options.now gains.now }
{
    rounds.len() != 2 || prices.len() != items || options.len() != bidders || gains.len() != bidders
}

// The number of the auction itself, and 3 in its place.
#[tactic(auto, unfolding(crate::specs::Lent::with_lengths))]
fn with_lengths(why: u8, unfit: bool) -> u8
    ensures { result ≡ with_lengths why unfit }
{
    if why != 1 && why != 2 && unfit {
        3
    } else {
        why
    }
}

// Lends an outcome back: answers 0 and leaves it in lists that fit it, or answers the number that turns the call down, and leaves them as they came.
// Stays: a number and not a Result, and four lists side by side. So C lends them and is answered; a struct of the four would be taken apart again right here.
#[tactic(auto, using(crate::proofs::Accepted::no_refusal, crate::proofs::Results::kept))]
fn lend(
    c: auction::Closing,
    items: usize,
    bidders: usize,
    rounds: &mut [u32],
    prices: &mut [u16],
    options: &mut [u8],
    gains: &mut [u16],
) -> u8
    requires { c.refusal ≡ 0 → (items ≤ 32) × (bidders ≤ 64) }
    ensures number { result ≡ with_lengths c.refusal (unfit items bidders rounds.old prices.old options.old gains.old) }
    ensures rounds { rounds.new ≡ by_number result (c.raised ∷ c.lowered ∷ []) rounds.old }
    ensures prices { prices.new ≡ by_number result (places items c.prices) prices.old }
    ensures options { options.new ≡ by_number result (places bidders c.assignment) options.old }
    ensures gains { gains.new ≡ by_number result (places bidders c.gains) gains.old }
{
    let why = with_lengths(
        c.refusal,
        unfit(items, bidders, rounds, prices, options, gains),
    );
    if why != 0 {
        return why;
    }
    rounds.copy_from_slice(&[c.raised, c.lowered]);
    prices.copy_from_slice(&c.prices[..items]);
    options.copy_from_slice(&c.assignment[..bidders]);
    gains.copy_from_slice(&c.gains[..bidders]);
    0
}

// The sealed auction: starting prices, one for each item, and bids, bidder after bidder. Answers 0 and leaves rounds raised and lowered, the
// closing prices, each bidder's item, or 0 for null, and each bidder's gain in the lent lists; or answers the number that turns the call down, and
// leaves them as they came.
pub fn dewgneiss_sealed(
    items: u32,
    bidders: u32,
    start: &[u16],
    bids: &[u16],
    rounds: &mut [u32],
    prices: &mut [u16],
    options: &mut [u8],
    gains: &mut [u16],
) -> u8
    ensures number { result ≡ lent_refusal items bidders start.now bids.now rounds.old prices.old options.old gains.old }
    ensures rounds { rounds.new ≡ by_number result
        ((sealed_of items bidders start.now bids.now).raised ∷ (sealed_of items bidders start.now bids.now).lowered ∷ [])
        rounds.old }
    ensures prices { prices.new ≡ by_number result (places items (sealed_of items bidders start.now bids.now).prices) prices.old }
    ensures options { options.new ≡ by_number result (places bidders (sealed_of items bidders start.now bids.now).assignment) options.old }
    ensures gains { gains.new ≡ by_number result (places bidders (sealed_of items bidders start.now bids.now).gains) gains.old }
{
    let m = items as usize;
    let n = bidders as usize;
    let c = auction::sealed(m, n, start, bids);
    lend(c, m, n, rounds, prices, options, gains)
}

// The sealed auction with floors, one for each item. Answers and leaves as above.
pub fn dewgneiss_sealed_above(
    items: u32,
    bidders: u32,
    start: &[u16],
    floors: &[u16],
    bids: &[u16],
    rounds: &mut [u32],
    prices: &mut [u16],
    options: &mut [u8],
    gains: &mut [u16],
) -> u8
    ensures number { result ≡ lent_above_refusal items bidders start.now floors.now bids.now rounds.old prices.old options.old gains.old }
    ensures rounds { rounds.new ≡ by_number result
        ((sealed_above_of items bidders start.now floors.now bids.now).raised ∷ (sealed_above_of items bidders start.now floors.now bids.now).lowered ∷ [])
        rounds.old }
    ensures prices { prices.new ≡ by_number result (places items (sealed_above_of items bidders start.now floors.now bids.now).prices) prices.old }
    ensures options { options.new ≡ by_number result (places bidders (sealed_above_of items bidders start.now floors.now bids.now).assignment) options.old }
    ensures gains { gains.new ≡ by_number result (places bidders (sealed_above_of items bidders start.now floors.now bids.now).gains) gains.old }
{
    let m = items as usize;
    let n = bidders as usize;
    let c = auction::sealed_above(m, n, start, floors, bids);
    lend(c, m, n, rounds, prices, options, gains)
}

// The same falling first.
pub fn dewgneiss_falling_first(
    items: u32,
    bidders: u32,
    start: &[u16],
    floors: &[u16],
    bids: &[u16],
    rounds: &mut [u32],
    prices: &mut [u16],
    options: &mut [u8],
    gains: &mut [u16],
) -> u8
    ensures number { result ≡ lent_above_refusal items bidders start.now floors.now bids.now rounds.old prices.old options.old gains.old }
    ensures rounds { rounds.new ≡ by_number result
        ((falling_first_of items bidders start.now floors.now bids.now).raised ∷ (falling_first_of items bidders start.now floors.now bids.now).lowered ∷ [])
        rounds.old }
    ensures prices { prices.new ≡ by_number result (places items (falling_first_of items bidders start.now floors.now bids.now).prices) prices.old }
    ensures options { options.new ≡ by_number result (places bidders (falling_first_of items bidders start.now floors.now bids.now).assignment) options.old }
    ensures gains { gains.new ≡ by_number result (places bidders (falling_first_of items bidders start.now floors.now bids.now).gains) gains.old }
{
    let m = items as usize;
    let n = bidders as usize;
    let c = auction::falling_first(m, n, start, floors, bids);
    lend(c, m, n, rounds, prices, options, gains)
}

// Closes a bid sheet: writes the closing sheet to the front of `out` and answers 0, or answers the number that turns the sheet down and leaves
// `out` as it came.
pub fn dewgneiss_close_sheet(bytes: &[u8], out: &mut [u8]) -> u8
    ensures { (result ≡ sheet_refusal bytes.now (length out.old))
        × (out.new ≡ closed_to bytes.now out.old) }
{
    sheet::close_sheet(bytes, out)
}

// Answers a bid sheet at the front of `out`, by its sheet of reasons or by the line of the number that turns it down, and says how many bytes that
// is. Where the answer does not fit nothing is written; 253,890 bytes are room for every one.
pub fn dewgneiss_reasons(bytes: &[u8], out: &mut [u8]) -> usize
    ensures { (result ≡ length (answer_of bytes.now (length out.old)))
        × (out.new ≡ written_to out.old (answer_of bytes.now (length out.old))) }
{
    reasons::answer(bytes, out)
}
