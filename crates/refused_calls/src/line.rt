// A bidder's line of the bids 1, 2, 3, 4, 5, 6, and 9 from there on: the number of the second call on the same input, and the part itself.
use crate::{asked, say};
use live::Auction;

// How long the part is, and its bids.
fn show(part: &[u16]) {
    io::write_all(1, b" length ");
    io::print_decimal(1, part.len() as u64);
    for bid in part {
        io::write_all(1, b" ");
        io::print_decimal(1, u64::from(*bid));
    }
}

fn ask_of(line: &[u8; 106], bids: &[u16]) {
    let n = asked::some(line, 7, bids);
    let lent = &bids[..n];
    let items = asked::count(line, 1);
    let bidders = asked::count(line, 4);
    let bidder = asked::count(line, 10);
    say::number(bids::line_refusal(lent, items, bidders, bidder));
    show(bids::line(lent, items, bidders, bidder));
}

// Items, bidders, how many bids, bidder.
pub(crate) fn ask(r: Auction, line: &[u8; 106]) -> Auction {
    let mut bids = [9u16; 65];
    bids[..6].copy_from_slice(&[1, 2, 3, 4, 5, 6]);
    ask_of(line, &bids);
    r
}
