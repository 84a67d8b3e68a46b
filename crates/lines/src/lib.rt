// The closing sheet's bytes, line by line.
#![tactic(auto)]

ghost use Rattle.std.specs.Prelude.{◌≡◌, cond, ◌++◌, ◌+◌, ◌*◌, ◌≤◌, ltb, length, get_or};
ghost use Rattle.std.proofs.lemmas.List.Edits.{sets};
ghost use Rattle.digits.specs.Digits.{hex};
ghost use Rattle.lines.specs.Lines.{newline, joined, number_text, number_line, amounts_line, closing_sheet, sealed_sheet, closing_length, sealed_length, few_enough, bytes_of, writes, after_writing, has_room};

// The first line: rounds raised and rounds lowered.
fn put_rounds(out: &mut [u8], raised: u32, lowered: u32)
    requires { 13 ≤ length out.old }
    ensures { out.new ≡ sets out.old 0 (hex 6 raised ++ hex 6 lowered ++ newline) }
{
    digits::write_number(out, 0, 6, raised);
    digits::write_number(out, 6, 6, lowered);
    out[12] = b'\n';
}

// A line of so many amounts, 4 digits each, from `at` on: prices, or gains.
fn put_amounts(out: &mut [u8], at: usize, count: usize, amounts: &[u16])
    requires { (count ≤ length amounts.now) × (at + 4 * count + 1 ≤ length out.old) }
    ensures { out.new ≡ sets out.old at (amounts_line count amounts.now) }
{
    for (i, amount) in amounts[..count].iter().enumerate() {
        digits::write_number(out, at + 4 * i, 4, u32::from(*amount));
    }
    out[at + 4 * count] = b'\n';
}

// The third line, from `at` on: each bidder's option.
fn put_options(out: &mut [u8], at: usize, bidders: usize, options: &[u8; 64])
    requires { (bidders ≤ 64) × (at + 2 * bidders + 1 ≤ length out.old) }
    ensures { out.new ≡ sets out.old at (joined bidders (λ b. hex 2 (get_or options.now b 0)) ++ newline) }
{
    for (b, option) in options[..bidders].iter().enumerate() {
        digits::write_number(out, at + 2 * b, 2, u32::from(*option));
    }
    out[at + 2 * bidders] = b'\n';
}

// A number in 2 decimal digits, to the front of `out`, where it has 2 bytes.
#[tactic(auto, unfolding(crate::specs::Lines::number_text))]
pub fn write_two(out: &mut [u8], number: u8)
    ensures { out.new ≡ cond (ltb (length out.old) 2) out.old (sets out.old 0 (number_text number)) }
{
    if out.len() < 2 {
        return;
    }
    out[0] = b'0' + number / 10;
    out[1] = b'0' + number % 10;
}

// A number alone on its line, to the front of `out`, where it has 3 bytes.
#[tactic(auto, unfolding(crate::specs::Lines::number_text, crate::specs::Lines::number_line, crate::specs::Lines::newline))]
pub fn write_refusal(out: &mut [u8], number: u8)
    ensures { out.new ≡ cond (ltb (length out.old) 3) out.old (sets out.old 0 (number_line number)) }
{
    if out.len() < 3 {
        return;
    }
    write_two(out, number);
    out[2] = b'\n';
}

// Whether sheets of such counts are written: at most 32 items and 64 bidders.
#[tactic(auto, unfolding(crate::specs::Lines::few_enough))]
fn few_enough(items: usize, bidders: usize) -> bool
    ensures { result ≡ few_enough items bidders }
{
    items <= 32 && bidders <= 64
}

// Stays: the next two differ in the numbers of a formula. One function of these numbers would be called with 15, 4, 2 and 16, 4, 6, and say less.
// How many bytes a closing sheet of three lines is, and 0 for other counts, of which none is written.
#[tactic(auto, unfolding(crate::specs::Lines::few_enough, crate::specs::Lines::bytes_of, crate::specs::Lines::closing_length))]
pub fn closing_length(items: usize, bidders: usize) -> usize
    ensures { result ≡ bytes_of items bidders (closing_length items bidders) }
{
    if !few_enough(items, bidders) {
        return 0;
    }
    15 + 4 * items + 2 * bidders
}

// The same of four lines, as a sealed auction has them.
#[tactic(auto, unfolding(crate::specs::Lines::few_enough, crate::specs::Lines::bytes_of, crate::specs::Lines::sealed_length))]
pub fn sealed_length(items: usize, bidders: usize) -> usize
    ensures { result ≡ bytes_of items bidders (sealed_length items bidders) }
{
    if !few_enough(items, bidders) {
        return 0;
    }
    16 + 4 * items + 6 * bidders
}

// Whether a sheet of so many bytes is written where there is so much room.
#[tactic(auto, unfolding(crate::specs::Lines::writes))]
fn writes(items: usize, bidders: usize, long: usize, room: usize) -> bool
    ensures { result ≡ writes items bidders long room }
{
    few_enough(items, bidders) && long <= room
}

// Writes a closing sheet's first three lines to the front of `out` and answers true. Where there is no room for them, or the counts are beyond
// 32 and 64, it answers false and leaves `out` as it came. Prices and options have one lifetime, so that they may be fields of one struct.
#[tactic(auto, unfolding(crate::specs::Lines::writes, crate::specs::Lines::few_enough, crate::specs::Lines::bytes_of, crate::specs::Lines::closing_length))]
pub fn write_closing<'a>(
    out: &mut [u8],
    items: usize,
    bidders: usize,
    raised: u32,
    lowered: u32,
    prices: &'a [u16; 32],
    options: &'a [u8; 64],
) -> bool
    ensures { (result ≡ writes items bidders (closing_length items bidders) (length out.old))
        × (out.new ≡ after_writing items bidders (closing_sheet items bidders raised lowered prices.now options.now) out.old) }
{
    if !writes(items, bidders, closing_length(items, bidders), out.len()) {
        return false;
    }
    put_rounds(out, raised, lowered);
    put_amounts(out, 13, items, prices);
    put_options(out, 14 + 4 * items, bidders, options);
    true
}

// Writes a sealed auction's closing sheet, those three lines and the line of gains, likewise.
#[tactic(auto, unfolding(crate::specs::Lines::writes, crate::specs::Lines::few_enough, crate::specs::Lines::bytes_of, crate::specs::Lines::sealed_length))]
pub fn write_sealed<'a>(
    out: &mut [u8],
    items: usize,
    bidders: usize,
    raised: u32,
    lowered: u32,
    prices: &'a [u16; 32],
    options: &'a [u8; 64],
    gains: &'a [u16; 64],
) -> bool
    ensures { (result ≡ writes items bidders (sealed_length items bidders) (length out.old))
        × (out.new ≡ after_writing items bidders (sealed_sheet items bidders raised lowered prices.now options.now gains.now) out.old) }
{
    if !writes(items, bidders, sealed_length(items, bidders), out.len()) {
        return false;
    }
    write_closing(out, items, bidders, raised, lowered, prices, options);
    put_amounts(out, 15 + 4 * items + 2 * bidders, bidders, gains);
    true
}

// Writes a line of prices, 4 digits each, from `at` on and answers true. Where there is no room, or the count is beyond 32, it answers false
// and leaves `out` as it came.
#[tactic(auto, unfolding(crate::specs::Lines::has_room))]
pub fn write_prices(out: &mut [u8], at: usize, items: usize, prices: &[u16; 32]) -> bool
    ensures { (result ≡ has_room items at (length out.old))
        × (out.new ≡ cond (has_room items at (length out.old)) (sets out.old at (amounts_line items prices.now)) out.old) }
{
    if 32 < items {
        return false;
    }
    let long = 4 * items + 1;
    if out.len() < long || out.len() - long < at {
        return false;
    }
    put_amounts(out, at, items, prices);
    true
}
