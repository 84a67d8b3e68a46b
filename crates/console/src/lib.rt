// The console of the live auction: what a line says, and what is answered to it. A line comes without its newline.
//
// `o` + 2 hexadecimal digits items + 2 bidders + 4 for each starting price opens; `f` opens with floors, 4 digits for each behind those of the starting
// prices; `r` + 2 digits bidder + 01 or 00 for null + 8 digits item set reports; `e` ends the round; `c` clears the reports; `s` reads the close. Any other
// line is answered 06.
#![tactic(auto)]

ghost use Rattle.std.specs.Prelude.{◌≡◌, true, ◌++◌, ◌+◌, ◌*◌, ◌-◌, ◌≤◌, ◌<◌, min, length, get_or, take, drop, unwrap_or, is_some};
ghost use Rattle.std.proofs.lemmas.List.Edits.{sets};
ghost use Rattle.sets.specs.Lists.{places};
ghost use Rattle.digits.specs.Digits.{hex};
ghost use Rattle.lines.specs.Lines.{number_text};
ghost use Rattle.digits.specs.Reading.{number_at};
ghost use Rattle.rule.specs.Round.{Round};
ghost use Rattle.live.specs.Calls.{open_number, open_above_number, open_auction, open_above, filled_by, ending_of, gives};
ghost use Rattle.console.specs.Orders.{opening, reporting, order_of, amounts_at, amounts_of, starts_of, floors_of};
ghost use Rattle.console.specs.Answers.{prices_text, opens, replies, ends, reads, told};
ghost use Rattle.console.specs.Steps.{longest_answer, held_numbers, open_by, letter_order, Puts, told_to, Answers};

use live::{Auction, Ended, Kind, Reply, Step};
use std::array;

// How many numbers the tables have that the console holds: 1,089 for each of the most bidders.
pub const HELD_NUMBERS: usize = live::MOST_BIDDERS * 1089;

// The longest answer: a number's line and the three lines of the most items and bidders.
const LONGEST_ANSWER: usize = 18 + 4 * 32 + 2 * live::MOST_BIDDERS;

// Room for it.
type Room = [u8; LONGEST_ANSWER];

// The order of a line. The starting prices and floors of an opening stay in the line.
#[derive(Drop)]
pub enum Order {
    Open(usize, usize),
    OpenAbove(usize, usize),
    Report(usize, bool, u32),
    End,
    Clear,
    Read,
    Unknown,
}

// How many bytes were answered, and the record to keep.
#[derive(Drop)]
pub struct Answered {
    pub length: usize,
    pub next: Auction,
}

// The first byte, and 0 where there is none.
fn first_byte(line: &[u8]) -> u8
    ensures { result ≡ get_or line.now 0 0 }
{
    line.first().copied().unwrap_or(0)
}

// How many bytes stand behind the letter and the two counts.
fn rest(line: &[u8]) -> usize
    ensures { result ≡ length line.now - 5 }
{
    line.len().saturating_sub(5)
}

// Whether amount i + 1 stands in the line.
fn amount_there(line: &[u8], i: usize) -> bool
    requires { 4 * i ≤ length line.now }
    ensures { result ≡ is_some (number_at 4 line.now (5 + 4 * i)) }
{
    digits::number_at(line, 5 + 4 * i, 4).is_some()
}

// Whether whole amounts stand behind the counts.
fn amounts_there(line: &[u8]) -> bool
    ensures { result ≡ is_some (amounts_at line.now) }
{
    let bytes = rest(line);
    if bytes % 4 != 0 {
        return false;
    }
    for i in 0..bytes / 4 {
        if !amount_there(line, i) {
            return false;
        }
    }
    true
}

// Stays: that whole amounts stand in the line is asked of the line itself, which an order leaves there: a type for such a line would be made of it again in each of the
// four functions that ask.
// Amount i + 1, and 0 past the last.
fn amount(line: &[u8], i: usize) -> u16
    requires { (is_some (amounts_at line.now) ≡ true) × (i < 65) }
    ensures { result ≡ get_or (amounts_of line.now) i 0 }
{
    if rest(line) / 4 <= i {
        return 0;
    }
    match digits::number_at(line, 5 + 4 * i, 4) {
        Some(a) => a as u16,
        None => 0,
    }
}

// The first 65 amounts: one more than starting prices and floors of the most items, which is enough to tell that there are too many.
fn first_amounts(line: &[u8]) -> [u16; 65]
    requires { is_some (amounts_at line.now) ≡ true }
    ensures { result ≡ places 65 (amounts_of line.now) }
{
    array::from_fn(|i| amount(line, i))
}

// Opens with the line's amounts, all of them starting prices.
fn open_by(line: &[u8], items: usize, bidders: usize, tables: &mut [i16]) -> Reply
    requires { is_some (amounts_at line.now) ≡ true }
    ensures { (result ≡ open_auction items bidders (amounts_of line.now) tables.old) × (tables.new ≡ filled_by (open_number items bidders (amounts_of line.now) tables.old) items bidders tables.old) }
{
    let amounts = first_amounts(line);
    let count = (rest(line) / 4).min(65);
    live::open(items, bidders, &amounts[..count], tables)
}

// Opens with amounts: a starting price for each item, and the floors behind them.
fn open_split(items: usize, bidders: usize, amounts: &[u16], tables: &mut [i16]) -> Reply
    ensures { (result ≡ open_above items bidders (take items amounts.now) (drop items amounts.now) tables.old) × (tables.new ≡ filled_by (open_above_number items bidders (take items amounts.now) (drop items amounts.now) tables.old) items bidders tables.old) }
{
    let split = items.min(amounts.len());
    let (start, floors) = amounts.split_at(split);
    live::open_above(items, bidders, start, floors, tables)
}

// Opens with the line's amounts, starting prices and floors.
fn open_above_by(line: &[u8], items: usize, bidders: usize, tables: &mut [i16]) -> Reply
    requires { is_some (amounts_at line.now) ≡ true }
    ensures { (result ≡ open_above items bidders (starts_of items line.now) (floors_of items line.now) tables.old) × (tables.new ≡ filled_by (open_above_number items bidders (starts_of items line.now) (floors_of items line.now) tables.old) items bidders tables.old) }
{
    let amounts = first_amounts(line);
    let count = (rest(line) / 4).min(65);
    open_split(items, bidders, &amounts[..count], tables)
}

// The order of a line that starts with o, or, above floors, with f, if it is one.
// Stays: `above` says only which of two orders of the same counts it is, no plainer by a function from counts to an order.
fn opening(line: &[u8], above: bool) -> Option<Order>
    ensures { result ≡ opening (open_by above) line.now }
{
    let items = digits::number_at(line, 1, 2)? as usize;
    let bidders = digits::number_at(line, 3, 2)? as usize;
    if !amounts_there(line) {
        return None;
    }
    if above {
        return Some(Order::OpenAbove(items, bidders));
    }
    Some(Order::Open(items, bidders))
}

// The order of a line that starts with r, if it is one.
fn reporting(line: &[u8]) -> Option<Order>
    ensures { result ≡ reporting line.now }
{
    if line.len() != 13 {
        return None;
    }
    let bidder = digits::number_at(line, 1, 2)? as usize;
    let null = digits::number_at(line, 3, 2)?;
    let set = digits::number_at(line, 5, 8)?;
    if 1 < null {
        return None;
    }
    Some(Order::Report(bidder, null == 1, set))
}

// The order of a line of one byte.
#[tactic(auto, unfolding(crate::specs::Steps::letter_order))]
fn letter(byte: u8) -> Order
    ensures { result ≡ letter_order byte }
{
    match byte {
        b'e' => Order::End,
        b'c' => Order::Clear,
        b's' => Order::Read,
        _ => Order::Unknown,
    }
}

// What a line says.
pub fn order_of(line: &[u8]) -> Order
    ensures { result ≡ order_of line.now }
{
    let first = first_byte(line);
    match first {
        b'o' => opening(line, false).unwrap_or(Order::Unknown),
        b'f' => opening(line, true).unwrap_or(Order::Unknown),
        b'r' => reporting(line).unwrap_or(Order::Unknown),
        _ if line.len() == 1 => letter(first),
        _ => Order::Unknown,
    }
}

// The answer to a report or a clear.
fn replied(out: &mut Room, reply: Reply) -> Answered
    ensures { Puts (replies reply) out.old out.new result }
{
    lines::write_refusal(out, reply.number);
    Answered {
        length: 3,
        next: reply.next,
    }
}

// The record's prices, behind `at` bytes and to the line's end.
fn priced(out: &mut Room, at: usize, next: Auction) -> Answered
    requires { (next.items ≤ 32) × (at ≤ 12) }
    ensures { (result ≡ record { length = at + 1 + 4 * next.items; next = next }) × (out.new ≡ sets out.old at (prices_text next)) }
{
    lines::write_prices(out, at, next.items, &next.prices);
    Answered {
        length: at + 1 + 4 * next.items,
        next,
    }
}

// The answer to an opening. One that is turned down leaves the record that is held.
fn opened(out: &mut Room, held: Auction, reply: Reply) -> Answered
    requires { reply.number ≡ 0 → reply.next.items ≤ 32 }
    ensures { Puts (opens held reply) out.old out.new result }
{
    if reply.number != 0 {
        let kept = Reply {
            next: held,
            ..reply
        };
        return replied(out, kept);
    }
    lines::write_two(out, 0);
    priced(out, 2, reply.next)
}

// A round's number, kind and item set.
fn put_round(out: &mut [u8], kind: u32, set: u32)
    requires { 12 ≤ length out.old }
    ensures { out.new ≡ sets out.old 0 (number_text 0 ++ (hex 2 kind ++ hex 8 set)) }
{
    lines::write_two(out, 0);
    digits::write_number(out, 2, 2, kind);
    digits::write_number(out, 4, 8, set);
}

// The answer to an end that was not turned down.
fn moved(out: &mut Room, kind: u32, set: u32, next: Auction) -> Answered
    requires { next.items ≤ 32 }
    ensures { Puts (record { bytes = number_text 0 ++ (hex 2 kind ++ hex 8 set) ++ prices_text next; next = next }) out.old out.new result }
{
    put_round(out, kind, set);
    priced(out, 12, next)
}

// The answer to an end.
fn ended(out: &mut Room, step: Step) -> Answered
    requires { (o : Round) → ending_of step.ended ≡ gives o → step.next.items ≤ 32 }
    ensures { Puts (ends (ending_of step.ended) step.next) out.old out.new result }
{
    match step.ended {
        Ended::Moved(kind, set) => match kind {
            Kind::Raised => moved(out, 1, set, step.next),
            Kind::Lowered => moved(out, 2, set, step.next),
        },
        Ended::Closed => moved(out, 3, 0, step.next),
        Ended::Refused(number) => replied(
            out,
            Reply {
                number,
                next: step.next,
            },
        ),
    }
}

// The answer to a read: the sheet stands behind the number's line.
fn shown(out: &mut Room, held: Auction) -> Answered
    ensures { Puts (reads held) out.old out.new result }
{
    let number = held.read(&mut out[3..]);
    lines::write_refusal(out, number);
    if number != 0 {
        return Answered {
            length: 3,
            next: held,
        };
    }
    Answered {
        length: 18 + 4 * held.items + 2 * held.bidders,
        next: held,
    }
}

// How many numbers of the tables are lent for so many bidders: 1,089 for each, and all of them for more than the most.
fn cut(bidders: usize) -> usize
    ensures { result ≡ min (bidders * 1089) held_numbers }
{
    bidders.min(live::MOST_BIDDERS) * 1089
}

// Carries out the order of a line, with the tables of the most bidders and room for the longest answer.
fn carry_out(held: Auction, line: &[u8], out: &mut Room, tables: &mut [i16]) -> Answered
    requires { length tables.old ≡ held_numbers }
    ensures answers { Answers (told held tables.old line.now) out.old out.new tables.new result }
    ensures long { length out.new ≡ length out.old }
{
    let own = cut(held.bidders);
    match order_of(line) {
        Order::Open(items, bidders) => {
            let n = cut(bidders);
            opened(out, held, open_by(line, items, bidders, &mut tables[..n]))
        }
        Order::OpenAbove(items, bidders) => {
            let n = cut(bidders);
            opened(
                out,
                held,
                open_above_by(line, items, bidders, &mut tables[..n]),
            )
        }
        Order::Report(bidder, null, set) => {
            replied(out, held.report(bidder, null, set, &tables[..own]))
        }
        Order::End => ended(out, held.end(&mut tables[..own])),
        Order::Clear => replied(out, held.clear()),
        Order::Read => shown(out, held),
        Order::Unknown => replied(
            out,
            Reply {
                number: 6,
                next: held,
            },
        ),
    }
}

// Answers a line: what is written to the front of `out`, the record to keep, and the tables, which are those of the most bidders. Where these are not 43,560
// numbers, or `out` has fewer than 226 bytes, nothing is done.
pub fn answer(held: Auction, line: &[u8], out: &mut [u8], tables: &mut [i16]) -> Answered
    ensures { Answers (told_to held tables.old line.now (length out.old)) out.old out.new tables.new result }
{
    let nothing = Answered {
        length: 0,
        next: held,
    };
    if tables.len() != HELD_NUMBERS {
        return nothing;
    }
    let Some(room) = out.first_chunk_mut::<LONGEST_ANSWER>() else {
        return nothing;
    };
    carry_out(held, line, room, tables)
}
