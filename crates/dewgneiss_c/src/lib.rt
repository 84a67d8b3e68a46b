// The functions of `dewgneiss` for Rust or C to link: the same names, arguments and clauses. A slice is passed as its address and its length.
#![tactic(auto)]

mod tables; // tables.rt: one bidder's table of differences

ghost use Rattle.std.specs.Prelude.{◌≡◌, [], ◌∷◌, length};
ghost use Rattle.sets.specs.Lists.{places};
ghost use Rattle.auction.specs.Sealed.{sealed_of, sealed_above_of, falling_first_of};
ghost use Rattle.lines.specs.Lines.{written_to};
ghost use Rattle.sheet.specs.Close.{sheet_refusal, closed_to, by_number};
ghost use Rattle.reasons.specs.Sheets.{answer_of};
ghost use Rattle.dewgneiss.specs.Lent.{lent_refusal, lent_above_refusal};

// The sealed auction: starting prices, one for each item, and bids, bidder after bidder. Answers 0 and leaves rounds raised and lowered, the
// closing prices, each bidder's item, or 0 for null, and each bidder's gain in the lent lists; or answers the number that turns the call down, and
// leaves them as they came.
#[unsafe(no_mangle)]
pub extern "C" fn dewgneiss_sealed(
    items: u32,
    bidders: u32,
    start: &[u16],
    bids: &[u16],
    rounds: &mut [u32],
    prices: &mut [u16],
    options: &mut [u8],
    gains: &mut [u16],
) -> u8
    ensures number { result ≡ lent_refusal items bidders start.now bids.now rounds.old prices.old options.old gains.old }
    ensures rounds { rounds.new ≡ by_number result
        ((sealed_of items bidders start.now bids.now).raised ∷ (sealed_of items bidders start.now bids.now).lowered ∷ [])
        rounds.old }
    ensures prices { prices.new ≡ by_number result (places items (sealed_of items bidders start.now bids.now).prices) prices.old }
    ensures options { options.new ≡ by_number result (places bidders (sealed_of items bidders start.now bids.now).assignment) options.old }
    ensures gains { gains.new ≡ by_number result (places bidders (sealed_of items bidders start.now bids.now).gains) gains.old }
{
    dewgneiss::dewgneiss_sealed(items, bidders, start, bids, rounds, prices, options, gains)
}

// The sealed auction with floors, one for each item. Answers and leaves as above.
#[unsafe(no_mangle)]
pub extern "C" fn dewgneiss_sealed_above(
    items: u32,
    bidders: u32,
    start: &[u16],
    floors: &[u16],
    bids: &[u16],
    rounds: &mut [u32],
    prices: &mut [u16],
    options: &mut [u8],
    gains: &mut [u16],
) -> u8
    ensures number { result ≡ lent_above_refusal items bidders start.now floors.now bids.now rounds.old prices.old options.old gains.old }
    ensures rounds { rounds.new ≡ by_number result
        ((sealed_above_of items bidders start.now floors.now bids.now).raised ∷ (sealed_above_of items bidders start.now floors.now bids.now).lowered ∷ [])
        rounds.old }
    ensures prices { prices.new ≡ by_number result (places items (sealed_above_of items bidders start.now floors.now bids.now).prices) prices.old }
    ensures options { options.new ≡ by_number result (places bidders (sealed_above_of items bidders start.now floors.now bids.now).assignment) options.old }
    ensures gains { gains.new ≡ by_number result (places bidders (sealed_above_of items bidders start.now floors.now bids.now).gains) gains.old }
{
    dewgneiss::dewgneiss_sealed_above(
        items, bidders, start, floors, bids, rounds, prices, options, gains,
    )
}

// The same falling first.
#[unsafe(no_mangle)]
pub extern "C" fn dewgneiss_falling_first(
    items: u32,
    bidders: u32,
    start: &[u16],
    floors: &[u16],
    bids: &[u16],
    rounds: &mut [u32],
    prices: &mut [u16],
    options: &mut [u8],
    gains: &mut [u16],
) -> u8
    ensures number { result ≡ lent_above_refusal items bidders start.now floors.now bids.now rounds.old prices.old options.old gains.old }
    ensures rounds { rounds.new ≡ by_number result
        ((falling_first_of items bidders start.now floors.now bids.now).raised ∷ (falling_first_of items bidders start.now floors.now bids.now).lowered ∷ [])
        rounds.old }
    ensures prices { prices.new ≡ by_number result (places items (falling_first_of items bidders start.now floors.now bids.now).prices) prices.old }
    ensures options { options.new ≡ by_number result (places bidders (falling_first_of items bidders start.now floors.now bids.now).assignment) options.old }
    ensures gains { gains.new ≡ by_number result (places bidders (falling_first_of items bidders start.now floors.now bids.now).gains) gains.old }
{
    dewgneiss::dewgneiss_falling_first(
        items, bidders, start, floors, bids, rounds, prices, options, gains,
    )
}

// Closes a bid sheet: writes the closing sheet to the front of `out` and answers 0, or answers the number that turns the sheet down and leaves
// `out` as it came.
#[unsafe(no_mangle)]
pub extern "C" fn dewgneiss_close_sheet(bytes: &[u8], out: &mut [u8]) -> u8
    ensures { (result ≡ sheet_refusal bytes.now (length out.old))
        × (out.new ≡ closed_to bytes.now out.old) }
{
    dewgneiss::dewgneiss_close_sheet(bytes, out)
}

// Answers a bid sheet at the front of `out`, by its sheet of reasons or by the line of the number that turns it down, and says how many bytes that
// is. Where the answer does not fit nothing is written; 253,890 bytes are room for every one.
#[unsafe(no_mangle)]
pub extern "C" fn dewgneiss_reasons(bytes: &[u8], out: &mut [u8]) -> usize
    ensures { (result ≡ length (answer_of bytes.now (length out.old)))
        × (out.new ≡ written_to out.old (answer_of bytes.now (length out.old))) }
{
    dewgneiss::dewgneiss_reasons(bytes, out)
}
