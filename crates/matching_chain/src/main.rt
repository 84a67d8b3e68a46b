// One long chain. Bidder k, up to 31, wants items k and k + 1, and holds item k when bidder 32 comes, who wants item 1 alone: the chain runs
// from item 1 through all 32 items to the last, which is free. Bidders 33 to 64 want item 32 alone: the chain of the first of them runs back
// through all items and fails. Prints a line for 32 bidders and a line for 64: the largest set in excess demand, whether a match covers
// all items and the bidders named, and who holds items 1 to 32. Of the 64, bidders 1 to 31 and 64 are named: in both there is only one match.
#![tactic(auto)]

// Stays: std's `println!` stands on one function of C more, the error number, and nothing new may be assumed.
fn say(n: u64) {
    io::write_all(1, b" ");
    io::print_decimal(1, n);
}

// Who holds each item.
fn say_holders(holder: &[u8; 32]) {
    for bidder in holder {
        say(u64::from(*bidder));
    }
}

// The first 31 bidders' sets, each an item and the next.
fn links(demand: &mut [u32; 64]) {
    for (k, set) in demand[..31].iter_mut().enumerate() {
        *set = 3 << k;
    }
}

// Bidders 33 to 64 want the last item.
fn crowd(demand: &mut [u32; 64]) {
    demand[32..].fill(0x8000_0000);
}

fn show(demand: &[u32; 64], bidders: u64) {
    io::write_all(1, b"excess demand");
    say(u64::from(matching::excess_demand(demand)));
    let c = matching::cover(demand, bidders, 0xffff_ffff);
    io::write_all(1, b", found");
    say(u64::from(c.found));
    io::write_all(1, b", holders");
    say_holders(&c.holder);
    io::write_all(1, b"\n");
}

fn main() {
    let mut demand = [0u32; 64];
    links(&mut demand);
    demand[31] = 1;
    show(&demand, 0xffff_ffff);
    crowd(&mut demand);
    show(&demand, 0x8000_0000_7fff_ffff);
}
