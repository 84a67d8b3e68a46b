// One raker's table of largest differences between two bids.
ghost use Rattle.std.specs.Prelude.{◌≡◌};
ghost use Rattle.reports.specs.Report.{saying};
ghost use Rattle.differences.specs.Lent.{filled, part_fits, part_explains, part_narrowed};
ghost use Rattle.dewgneiss.specs.Tables.{fill_answer, fill_part, fits_answer, explains_answer, narrow_part};

// ---- exported

pub fn dewgneiss_table_fill(part: &mut [i16], items: u32) -> u8
    ensures answer { result ≡ fill_answer items part.old }
    ensures part { part.new ≡ fill_part items part.old }
{
    dewgneiss::tables::dewgneiss_table_fill(part, items)
}

pub fn dewgneiss_table_fits(part: &[i16], items: u32) -> u8
    ensures { result ≡ fits_answer items part.now }
{
    dewgneiss::tables::dewgneiss_table_fits(part, items)
}

pub fn dewgneiss_table_explains(part: &[i16], items: u32, prices: &[u16], null: u8, set: u32) -> u8
    ensures { result ≡ explains_answer items part.now prices.now null set }
{
    dewgneiss::tables::dewgneiss_table_explains(part, items, prices, null, set)
}

pub fn dewgneiss_table_narrow(
    part: &mut [i16],
    items: u32,
    prices: &[u16],
    null: u8,
    set: u32,
) -> u8
    ensures answer { result ≡ explains_answer items part.old prices.now null set }
    ensures part { part.new ≡ narrow_part items part.old prices.now null set }
{
    dewgneiss::tables::dewgneiss_table_narrow(part, items, prices, null, set)
}

// ---- for the live letting

pub fn fill(part: &mut [i16], items: usize)
    ensures { part.new ≡ filled items part.old }
{
    differences::fill(part, items)
}

pub fn fits(part: &[i16], items: usize) -> bool
    ensures { result ≡ part_fits items part.now }
{
    differences::fits(part, items)
}

pub fn explains(part: &[i16], items: usize, prices: &[u16; 32], null: bool, set: u32) -> bool
    ensures { result ≡ part_explains items part.now prices.now (saying null set) }
{
    differences::explains(part, items, prices, null, set)
}

pub fn narrow(part: &mut [i16], items: usize, prices: &[u16; 32], null: bool, set: u32) -> bool
    ensures answer { result ≡ part_explains items part.old prices.now (saying null set) }
    ensures part { part.new ≡ part_narrowed items part.old prices.now (saying null set) }
{
    differences::narrow(part, items, prices, null, set)
}
