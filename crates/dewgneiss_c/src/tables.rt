// One bidder's table, as `dewgneiss::tables` has it.
ghost use Rattle.std.specs.Prelude.{◌≡◌};
ghost use Rattle.dewgneiss.specs.Tables.{fill_answer, fill_part, fits_answer, explains_answer, narrow_part};

// Fills the part for all bids of 0 to 4,095.
#[unsafe(no_mangle)]
pub extern "C" fn dewgneiss_table_fill(part: &mut [i16], items: u32) -> u8
    ensures answer { result ≡ fill_answer items part.old }
    ensures part { part.new ≡ fill_part items part.old }
{
    dewgneiss::tables::dewgneiss_table_fill(part, items)
}

// Some bids of 0 to 4,095 meet the part's table, its numbers are from -4,095 to 4,095, and places for items beyond the count hold 0.
#[unsafe(no_mangle)]
pub extern "C" fn dewgneiss_table_fits(part: &[i16], items: u32) -> u8
    ensures { result ≡ fits_answer items part.now }
{
    dewgneiss::tables::dewgneiss_table_fits(part, items)
}

// Some bids of 0 to 4,095 meet the part's table and explain the report, of null and an item set: it is exactly their demand at these prices, one for each item.
#[unsafe(no_mangle)]
pub extern "C" fn dewgneiss_table_explains(
    part: &[i16],
    items: u32,
    prices: &[u16],
    null: u8,
    set: u32,
) -> u8
    ensures { result ≡ explains_answer items part.now prices.now null set }
{
    dewgneiss::tables::dewgneiss_table_explains(part, items, prices, null, set)
}

// If so, narrows the part to those bids.
#[unsafe(no_mangle)]
pub extern "C" fn dewgneiss_table_narrow(
    part: &mut [i16],
    items: u32,
    prices: &[u16],
    null: u8,
    set: u32,
) -> u8
    ensures answer { result ≡ explains_answer items part.old prices.now null set }
    ensures part { part.new ≡ narrow_part items part.old prices.now null set }
{
    dewgneiss::tables::dewgneiss_table_narrow(part, items, prices, null, set)
}
