// The calls of the live auction. "kept" says that the record handed back is as the one given, field by field, and every number of the tables as before.
use crate::tables::HELD_NUMBERS;
use crate::{asked, record, say, tables};
use live::{Auction, Reply};

// What an opening gave. "zeros" says that the record beside it is one of zeros, and every number of the tables as before.
fn opened(reply: Reply, same: bool) -> Auction {
    say::number(reply.number);
    say::zeros(reply.next == record::zeros() && same);
    reply.next
}

fn open_with(line: &[u8; 106], prices: &[u16], held: &mut [i16; HELD_NUMBERS]) -> Auction {
    let before = *held;
    let n = asked::some(line, 7, prices);
    let bidders = asked::count(line, 4);
    let t = tables::lent(asked::lending(line), bidders, held);
    let reply = live::open(asked::count(line, 1), bidders, &prices[..n], &mut held[..t]);
    opened(reply, *held == before)
}

// Items, bidders, how many starting prices, and what each of them is.
pub(crate) fn open(line: &[u8; 106], held: &mut [i16; HELD_NUMBERS]) -> Auction {
    let prices = [asked::price(line, 10); 40];
    open_with(line, &prices, held)
}

fn open_above_with(
    line: &[u8; 106],
    prices: &[u16],
    floors: &[u16],
    held: &mut [i16; HELD_NUMBERS],
) -> Auction {
    let before = *held;
    let n = asked::some(line, 7, prices);
    let k = asked::some(line, 15, floors);
    let bidders = asked::count(line, 4);
    let t = tables::lent(asked::lending(line), bidders, held);
    let reply = live::open_above(
        asked::count(line, 1),
        bidders,
        &prices[..n],
        &floors[..k],
        &mut held[..t],
    );
    opened(reply, *held == before)
}

// The same, how many floors, and the floors as in a record.
pub(crate) fn open_above(line: &[u8; 106], held: &mut [i16; HELD_NUMBERS]) -> Auction {
    let prices = [asked::price(line, 10); 40];
    let floors = asked::floors(line);
    open_above_with(line, &prices, &floors, held)
}

// What a report or a clear gave. Neither can change a table: a report is lent them to read, and a clear is lent none.
fn told(r: Auction, reply: Reply) -> Auction {
    say::number(reply.number);
    say::kept(reply.next == r, true);
    reply.next
}

// Bidder, null or not, item set.
pub(crate) fn report(r: Auction, line: &[u8; 106], held: &[i16; HELD_NUMBERS]) -> Auction {
    let bidder = asked::count(line, 1);
    let null = asked::count(line, 4) != 0;
    let t = tables::lent(asked::lending(line), r.bidders, held);
    told(
        r,
        r.report(bidder, null, asked::number(line, 7, 8), &held[..t]),
    )
}

pub(crate) fn clear(r: Auction) -> Auction {
    told(r, r.clear())
}

pub(crate) fn end(r: Auction, lending: u32, held: &mut [i16; HELD_NUMBERS]) -> Auction {
    let before = *held;
    let t = tables::lent(lending, r.bidders, held);
    let step = r.end(&mut held[..t]);
    say::ended(step.ended);
    say::kept(step.next == r, *held == before);
    step.next
}

// The number, and all of the bytes, which were dots.
fn read_to(r: Auction, out: &mut [u8]) {
    say::number(r.read(out));
    io::write_all(1, b" ");
    io::write_all(1, out);
}

fn read_part(r: Auction, line: &[u8; 106], out: &mut [u8]) {
    let n = asked::some(line, 1, out);
    read_to(r, &mut out[..n]);
}

// How many bytes are lent.
pub(crate) fn read(r: Auction, line: &[u8; 106]) -> Auction {
    let mut out = [b'.'; 40];
    read_part(r, line, &mut out);
    r
}

// Each bidder's table of this record is filled anew.
pub(crate) fn fill(r: Auction, held: &mut [i16; HELD_NUMBERS]) -> Auction {
    tables::fill_all(held, r.bidders, r.items);
    io::write_all(1, b" filled");
    r
}

// Bidder, row and column, and the number that is put there: 01 for one below 0, and how much.
pub(crate) fn put(r: Auction, line: &[u8; 106], held: &mut [i16; HELD_NUMBERS]) -> Auction {
    let at = tables::place(
        asked::number(line, 1, 2),
        asked::number(line, 4, 2),
        asked::number(line, 7, 2),
    );
    tables::put(held, at, asked::signed(line, 10, 13));
    io::write_all(1, b" ");
    say::signed(tables::value(held, at));
    r
}

// Three numbers of a row.
fn show_row(held: &[i16; HELD_NUMBERS], bidder: u32, row: u32) {
    io::write_all(1, b" ");
    say::signed(tables::value(held, tables::place(bidder, row, 0)));
    io::write_all(1, b",");
    say::signed(tables::value(held, tables::place(bidder, row, 1)));
    io::write_all(1, b",");
    say::signed(tables::value(held, tables::place(bidder, row, 2)));
}

// Rows and columns of null and items 1 and 2 of a bidder's table.
pub(crate) fn show(r: Auction, line: &[u8; 106], held: &[i16; HELD_NUMBERS]) -> Auction {
    let bidder = asked::number(line, 1, 2);
    show_row(held, bidder, 0);
    show_row(held, bidder, 1);
    show_row(held, bidder, 2);
    r
}

// A report of null by bidder 1, an end, a clear and a read with 3 bytes, each on this record, with its tables filled anew.
pub(crate) fn all(r: Auction, held: &mut [i16; HELD_NUMBERS]) -> Auction {
    tables::fill_all(held, r.bidders, r.items);
    let t = tables::lent(0, r.bidders, held);
    told(r, r.report(1, true, 0, &held[..t]));
    end(r, 0, held);
    clear(r);
    let mut out = [b'.'; 3];
    read_to(r, &mut out);
    r
}
