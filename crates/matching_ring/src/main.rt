// A displacement ring. Bidder 1 wants items 1 and 2, bidder 2 wants 2 and 3, bidder 3 wants 3 and 1: each holds what another wants as well. A
// fourth, who wants item 1, sets off a chain that comes round to item 1, which it does not enter twice: treated as a tree, the chain would go
// round for ever. Prints one line for three bidders and one for four: the largest set in excess demand, whether a match covers bidders and
// items (which match is free), and who holds items 1 to 3.
#![tactic(auto)]

// Stays: std's `println!` stands on one function of C more, the error number, and nothing new may be assumed.
fn say(n: u64) {
    io::write_all(1, b" ");
    io::print_decimal(1, n);
}

fn show(demand: &[u32; 64], bidders: u64) {
    io::write_all(1, b"excess demand");
    say(u64::from(matching::excess_demand(demand)));
    let c = matching::cover(demand, bidders, 7);
    io::write_all(1, b", found");
    say(u64::from(c.found));
    io::write_all(1, b", holders");
    for bidder in &c.holder[..3] {
        say(u64::from(*bidder));
    }
    io::write_all(1, b"\n");
}

fn main() {
    let mut demand = [0u32; 64];
    demand[0] = 3;
    demand[1] = 6;
    demand[2] = 5;
    show(&demand, 7);
    demand[3] = 1;
    show(&demand, 15);
}
