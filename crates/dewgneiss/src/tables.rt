// One bidder's table of largest differences between two bids, in a lent part of 1,089 numbers, row after row. Each answers 1 for yes or done, and 0 for no, with
// nothing changed. Any argument may be given.
// Stays: 1 and 0, and not `bool`, `Option` or `Result`: C is answered by them, and the clauses say so (`fill_answer`, `fits_answer`, `explains_answer`).
ghost use Rattle.std.specs.Prelude.{◌≡◌};
ghost use Rattle.dewgneiss.specs.Tables.{is_lent, is_call, fill_answer, fill_part, fits_answer, explains_answer, narrow_part};

// the part has 1,089 numbers, and the items are 1 to 32
#[tactic(auto, unfolding(crate::specs::Tables::is_lent, rule::specs::Refusal::bad_items))]
fn is_lent(part: &[i16], items: usize) -> bool
    ensures { result ≡ is_lent items part.now }
{
    !sets::outside(32, items) && part.len() == 1089
}

// the items are 1 to 32, there is a price for each, and null is 0 or 1
#[tactic(auto, unfolding(crate::specs::Tables::is_call, rule::specs::Refusal::bad_items, rule::specs::Refusal::bad_length))]
fn is_call(items: usize, prices: &[u16], null: u8) -> bool
    ensures { result ≡ is_call items prices.now null }
{
    !sets::outside(32, items) && prices.len() == items && null <= 1
}

// Fills the part for all bids of 0 to 4,095.
#[tactic(auto, unfolding(crate::specs::Tables::fill_answer, crate::specs::Tables::fill_part))]
pub fn dewgneiss_table_fill(part: &mut [i16], items: u32) -> u8
    ensures answer { result ≡ fill_answer items part.old }
    ensures part { part.new ≡ fill_part items part.old }
{
    let m = items as usize;
    if !is_lent(part, m) {
        return 0;
    }
    differences::fill(part, m);
    1
}

// Some bids of 0 to 4,095 meet the part's table, its numbers are from -4,095 to 4,095, and places for items beyond the count hold 0.
#[tactic(auto, unfolding(crate::specs::Tables::fits_answer, rule::specs::Refusal::bad_items))]
pub fn dewgneiss_table_fits(part: &[i16], items: u32) -> u8
    ensures { result ≡ fits_answer items part.now }
{
    let m = items as usize;
    u8::from(!sets::outside(32, m) && differences::fits(part, m))
}

// Some bids of 0 to 4,095 meet the part's table and explain the report, of null and an item set: it is exactly their demand at these prices, one for each item.
#[tactic(auto, unfolding(crate::specs::Tables::explains_answer, crate::specs::Tables::said_by))]
pub fn dewgneiss_table_explains(part: &[i16], items: u32, prices: &[u16], null: u8, set: u32) -> u8
    ensures { result ≡ explains_answer items part.now prices.now null set }
{
    let m = items as usize;
    let all = prices::in_places(prices);
    u8::from(is_call(m, prices, null) && differences::explains(part, m, &all, null == 1, set))
}

// If so, narrows the part to those bids.
#[tactic(auto, unfolding(crate::specs::Tables::explains_answer, crate::specs::Tables::narrow_part, crate::specs::Tables::said_by))]
pub fn dewgneiss_table_narrow(
    part: &mut [i16],
    items: u32,
    prices: &[u16],
    null: u8,
    set: u32,
) -> u8
    ensures answer { result ≡ explains_answer items part.old prices.now null set }
    ensures part { part.new ≡ narrow_part items part.old prices.now null set }
{
    let m = items as usize;
    if !is_call(m, prices, null) {
        return 0;
    }
    let all = prices::in_places(prices);
    u8::from(differences::narrow(part, m, &all, null == 1, set))
}
