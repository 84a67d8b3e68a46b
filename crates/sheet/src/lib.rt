// Bid sheet in, and out either what it says, by value, or its closing sheet. The bytes are not copied: reading goes on at a place of the lent bytes.
#![tactic(auto)]

ghost use Rattle.std.specs.Prelude.{◌≡◌, false, [], ◌+◌, ◌*◌, ◌^◌, ◌≤◌, ◌<◌, length, take, replicate, Some};
ghost use Rattle.digits.specs.Reading.{number_in};
ghost use Rattle.lines.specs.Reading.{ends_at, line_at};
ghost use Rattle.lines.specs.Lines.{written_to};
ghost use Rattle.rule.specs.Refusal.{first, bad_items, bad_bidders};
ghost use Rattle.sheet.specs.BidSheet.{items_in, bidders_in, bids_at};
ghost use Rattle.sheet.specs.Close.{bid_sheet_of, unreadable, sheet_refusal, closed_to, answer_of};
ghost use Rattle.sheet.specs.Contents.{bid_sheet_refusal, contents, contents_of};
ghost use Rattle.sheet.specs.Steps.{read_as, unless_refused, ClosedRead, Closed};

// The sheet's bytes, lent, and the place of the byte to be read next. It is thin: the work is left to functions on bytes and a place.
// Stays: docs/PROMISES.md has it that numbers are read by such a struct.
#[derive(Drop)]
struct Reader<'a> {
    src: &'a [u8],
    at: usize,
}

impl<'a> Reader<'a> {
    fn new(src: &'a [u8], at: usize) -> Reader<'a>
        ensures { (result.src ≡ src.entry) × (result.at ≡ at) }
    {
        Reader { src, at }
    }

    // Reading goes on so many bytes further.
    fn after(self, bytes: usize) -> Reader<'a>
        requires { self.at + bytes < 2 ^ 64 }
        ensures { (result.src ≡ self.entry.src) × (result.at ≡ self.entry.at + bytes) }
    {
        Reader {
            at: self.at + bytes,
            ..self
        }
    }

    // What stands in so many digits where the reader is.
    fn number(self, digits: usize) -> Option<u32>
        ensures { result ≡ number_in digits self.entry.src.now self.entry.at }
    {
        digits::number_at(self.src, self.at, digits)
    }
}

// What stands in so many digits, so many bytes past a place: the sheet's numbers are all read here.
fn read_number(s: &[u8], at: usize, passed: usize, digits: usize) -> Option<u32>
    requires { at + passed < 2 ^ 64 }
    ensures { result ≡ number_in digits s.now (at + passed) }
{
    Reader::new(s, at).after(passed).number(digits)
}

// Whether byte 0a stands at a place.
fn ends_at(s: &[u8], at: usize) -> bool
    ensures { result ≡ ends_at s.now at }
{
    at < s.len() && s[at] == b'\n'
}

// Reads a line from a place on, as many numbers as `into` has places, 4 digits each, and says whether there is one.
fn line_at(s: &[u8], at: usize, into: &mut [u16]) -> bool
    requires { (at ≤ length s.now) × (length into.old ≤ 32) }
    ensures { line_at (length into.old) 4 s.now at ≡ read_as result into.new }
{
    for (i, amount) in into.iter_mut().enumerate() {
        let Some(x) = read_number(s, at, 4 * i, 4) else {
            return false;
        };
        *amount = x as u16;
    }
    ends_at(s, at + 4 * into.len())
}

// Reads a line for each bidder from a place on, each line's bids behind those of the line before, and says whether they are there and nothing follows.
fn bids_at(s: &[u8], at: usize, items: usize, bidders: usize, into: &mut [u16]) -> bool
    requires { (at ≤ length s.now) × (items ≤ 32) × (bidders ≤ 64) × (bidders * items ≤ length into.old) }
    ensures { bids_at bidders items s.now at ≡ read_as result (take (bidders * items) into.new) }
{
    let mut here = at;
    for b in 0..bidders {
        let from = b * items;
        let to = from + items;
        if !line_at(s, here, &mut into[from..to]) {
            return false;
        }
        here += 4 * items + 1;
    }
    here == s.len()
}

// What a bid sheet says, by value: the number that turned it down, or 0; the counts; the starting prices; the bids, bidder after bidder.
#[derive(Drop)]
pub struct Contents {
    pub refusal: u8,
    pub items: usize,
    pub bidders: usize,
    pub start: [u16; 32],
    pub bids: [u16; 2048],
}

// Beside a number, zeros only.
// Stays: `Contents` is handed back by value with the number in it, as `contents_of` has it.
fn unread(why: u8) -> Contents
    ensures { result ≡ record { refusal = why; items = 0; bidders = 0; start = replicate 32 0; bids = replicate 2048 0 } }
{
    Contents {
        refusal: why,
        items: 0,
        bidders: 0,
        start: [0; 32],
        bids: [0; 2048],
    }
}

// Reads the lines of a sheet whose counts are read and in order.
fn read_counted(bytes: &[u8], items: usize, bidders: usize) -> Result<Contents, u8>
    requires { (items_in bytes.now ≡ Some items) × (bidders_in bytes.now ≡ Some bidders) × (bad_items items ≡ false) × (bad_bidders bidders ≡ false)
        × (items ≤ 32) × (bidders ≤ 64) }
    ensures { result ≡ unless_refused (first (unreadable bytes.now [])) (contents 0 (bid_sheet_of bytes.now)) }
{
    let size = bidders * items;
    let mut start = [0u16; 32];
    let mut bids = [0u16; 2048];
    if !line_at(bytes, 4, &mut start[..items]) {
        return Err(6);
    }
    if !bids_at(bytes, 5 + 4 * items, items, bidders, &mut bids[..size]) {
        return Err(6);
    }
    Ok(Contents {
        refusal: 0,
        items,
        bidders,
        start,
        bids,
    })
}

// Reads a bid sheet, whatever its amounts are: 6 for the first four bytes, 1, 2, 6 for the rest.
fn read(bytes: &[u8]) -> Result<Contents, u8>
    ensures { result ≡ unless_refused (first (unreadable bytes.now [])) (contents 0 (bid_sheet_of bytes.now)) }
{
    let items = read_number(bytes, 0, 0, 2).ok_or(6)? as usize;
    let bidders = read_number(bytes, 0, 2, 2).ok_or(6)? as usize;
    if sets::outside(32, items) {
        return Err(1);
    }
    if sets::outside(64, bidders) {
        return Err(2);
    }
    read_counted(bytes, items, bidders)
}

// What a bid sheet says whose amounts are in order too: the numbers of reading it, then 4 and 5.
fn in_order(bytes: &[u8]) -> Result<Contents, u8>
    ensures { result ≡ unless_refused (bid_sheet_refusal bytes.now) (contents 0 (bid_sheet_of bytes.now)) }
{
    let s = read(bytes)?;
    let size = s.bidders * s.items;
    let over = bids::refusal(s.items, s.bidders, &s.start[..s.items], &s.bids[..size]);
    if 0 < over {
        return Err(over);
    }
    Ok(s)
}

// What a bid sheet says, or the number that turns it down where no closing sheet is asked for: those of reading it, then 4 and 5.
pub fn bid_sheet(bytes: &[u8]) -> Contents
    ensures { result ≡ contents_of bytes.now }
{
    match in_order(bytes) {
        Ok(s) => s,
        Err(why) => unread(why),
    }
}

// Closes a sheet that was read: where there is room for it, the closing sheet of the sealed auction is written, unless that was turned down. Answers how many
// bytes were written, or the number.
fn close_read(
    items: usize,
    bidders: usize,
    start: &[u16],
    bids: &[u16],
    out: &mut [u8],
) -> Result<usize, u8>
    requires { (bad_items items ≡ false) × (bad_bidders bidders ≡ false) × (length start.now ≡ items) × (length bids.now ≡ bidders * items) }
    ensures { ClosedRead (record { items = items; bidders = bidders; start = start.now; bids = bids.now })
        out.old result out.new }
{
    let long = lines::sealed_length(items, bidders);
    if out.len() < long {
        return Err(3);
    }
    let c = auction::sealed(items, bidders, start, bids);
    if 0 < c.refusal {
        return Err(c.refusal);
    }
    lines::write_sealed(
        out,
        items,
        bidders,
        c.raised,
        c.lowered,
        &c.prices,
        &c.assignment,
        &c.gains,
    );
    Ok(long)
}

// Closes a bid sheet: first it is read, then what was read is closed.
fn close(bytes: &[u8], out: &mut [u8]) -> Result<usize, u8>
    ensures { Closed bytes.now out.old result out.new }
{
    let said = read(bytes)?;
    let size = said.bidders * said.items;
    close_read(
        said.items,
        said.bidders,
        &said.start[..said.items],
        &said.bids[..size],
        out,
    )
}

// Closes a bid sheet: writes the closing sheet to the front of `out` and answers 0, or answers the number that turns the sheet down and leaves `out`
// as it came.
pub fn close_sheet(bytes: &[u8], out: &mut [u8]) -> u8
    ensures { (result ≡ sheet_refusal bytes.now (length out.old)) × (out.new ≡ closed_to bytes.now out.old) }
{
    match close(bytes, out) {
        Ok(_) => 0,
        Err(why) => why,
    }
}

// Answers a bid sheet in full at the front of `out`, by the closing sheet or by the number's line, and says how many bytes that is; with room for
// fewer than 3 bytes there is no answer.
pub fn answer(bytes: &[u8], out: &mut [u8]) -> usize
    ensures { (result ≡ length (answer_of bytes.now (length out.old)))
        × (out.new ≡ written_to out.old (answer_of bytes.now (length out.old))) }
{
    if out.len() < 3 {
        return 0;
    }
    match close(bytes, out) {
        Ok(length) => length,
        Err(why) => {
            lines::write_refusal(out, why);
            3
        }
    }
}
