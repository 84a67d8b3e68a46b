// Bid sheets, closing sheets and sheets of reasons, and below them lines and digits.
ghost use Rattle.std.specs.Prelude.{◌≡◌, cond, ◌+◌, leb, ltb, length, unwrap_or};
ghost use Rattle.std.proofs.lemmas.List.Edits.{sets};
ghost use Rattle.digits.specs.Digits.{hex};
ghost use Rattle.digits.specs.Reading.{digit_value, number_in};
ghost use Rattle.digits.specs.Table.{by_table};
ghost use Rattle.lines.specs.Lines.{number_text, number_line, amounts_line, closing_sheet, sealed_sheet, closing_length, sealed_length, bytes_of, written_to, writes, after_writing, has_room};
ghost use Rattle.sheet.specs.Close.{sheet_refusal, closed_to, answer_of};
ghost use Rattle.sheet.specs.Contents.{contents_of};
ghost use Rattle.reasons.specs.Sheets.{answer_of as reasonsTo};

// ---- exported

pub fn dewgneiss_close_sheet(bytes: &[u8], out: &mut [u8]) -> u8
    ensures number { result ≡ sheet_refusal bytes.now (length out.old) }
    ensures bytes { out.new ≡ closed_to bytes.now out.old }
{
    dewgneiss::dewgneiss_close_sheet(bytes, out)
}

pub fn dewgneiss_reasons(bytes: &[u8], out: &mut [u8]) -> usize
    ensures count { result ≡ length (reasonsTo bytes.now (length out.old)) }
    ensures bytes { out.new ≡ written_to out.old (reasonsTo bytes.now (length out.old)) }
{
    dewgneiss::dewgneiss_reasons(bytes, out)
}

// ---- what a bid sheet says, its closing sheet, what the two programs print

pub fn bid_sheet(bytes: &[u8]) -> sheet::Contents
    ensures { result ≡ contents_of bytes.now }
{
    sheet::bid_sheet(bytes)
}

pub fn close_sheet(bytes: &[u8], out: &mut [u8]) -> u8
    ensures number { result ≡ sheet_refusal bytes.now (length out.old) }
    ensures bytes { out.new ≡ closed_to bytes.now out.old }
{
    sheet::close_sheet(bytes, out)
}

pub fn sheet_answer(bytes: &[u8], out: &mut [u8]) -> usize
    ensures count { result ≡ length (answer_of bytes.now (length out.old)) }
    ensures bytes { out.new ≡ written_to out.old (answer_of bytes.now (length out.old)) }
{
    sheet::answer(bytes, out)
}

pub fn reasons_answer(bytes: &[u8], out: &mut [u8]) -> usize
    ensures count { result ≡ length (reasonsTo bytes.now (length out.old)) }
    ensures bytes { out.new ≡ written_to out.old (reasonsTo bytes.now (length out.old)) }
{
    reasons::answer(bytes, out)
}

// ---- lines

pub fn closing_length(items: usize, bidders: usize) -> usize
    ensures { result ≡ bytes_of items bidders (closing_length items bidders) }
{
    lines::closing_length(items, bidders)
}

pub fn sealed_length(items: usize, bidders: usize) -> usize
    ensures { result ≡ bytes_of items bidders (sealed_length items bidders) }
{
    lines::sealed_length(items, bidders)
}

pub fn write_closing<'a>(
    out: &mut [u8],
    items: usize,
    bidders: usize,
    raised: u32,
    lowered: u32,
    prices: &'a [u16; 32],
    options: &'a [u8; 64],
) -> bool
    ensures answer { result ≡ writes items bidders (closing_length items bidders) (length out.old) }
    ensures bytes { out.new ≡ after_writing items bidders (closing_sheet items bidders raised lowered prices.now options.now) out.old }
{
    lines::write_closing(out, items, bidders, raised, lowered, prices, options)
}

pub fn write_sealed<'a>(
    out: &mut [u8],
    items: usize,
    bidders: usize,
    raised: u32,
    lowered: u32,
    prices: &'a [u16; 32],
    options: &'a [u8; 64],
    gains: &'a [u16; 64],
) -> bool
    ensures answer { result ≡ writes items bidders (sealed_length items bidders) (length out.old) }
    ensures bytes { out.new
        ≡ after_writing items bidders (sealed_sheet items bidders raised lowered prices.now options.now gains.now) out.old }
{
    lines::write_sealed(out, items, bidders, raised, lowered, prices, options, gains)
}

pub fn write_prices(out: &mut [u8], at: usize, items: usize, prices: &[u16; 32]) -> bool
    ensures answer { result ≡ has_room items at (length out.old) }
    ensures bytes { out.new
        ≡ cond (has_room items at (length out.old)) (sets out.old at (amounts_line items prices.now)) out.old }
{
    lines::write_prices(out, at, items, prices)
}

pub fn write_two(out: &mut [u8], number: u8)
    ensures { out.new ≡ cond (ltb (length out.old) 2) out.old (sets out.old 0 (number_text number)) }
{
    lines::write_two(out, number)
}

pub fn write_refusal(out: &mut [u8], number: u8)
    ensures { out.new ≡ cond (ltb (length out.old) 3) out.old (sets out.old 0 (number_line number)) }
{
    lines::write_refusal(out, number)
}

// ---- digits

pub fn digit_value(byte: u8) -> u8
    ensures rule { result ≡ unwrap_or (digit_value byte) 16 }
    ensures table { result ≡ unwrap_or (by_table byte) 16 }
{
    digits::digit_value(byte)
}

pub fn number_at(s: &[u8], at: usize, digits: usize) -> Option<u32>
    ensures { result ≡ number_in digits s.now at }
{
    digits::number_at(s, at, digits)
}

pub fn write_number(out: &mut [u8], at: usize, digits: usize, x: u32) -> bool
    ensures answer { result ≡ leb (at + digits) (length out.old) }
    ensures bytes { out.new ≡ cond (leb (at + digits) (length out.old)) (sets out.old at (hex digits x)) out.old }
{
    digits::write_number(out, at, digits, x)
}
