// What bidders demand at prices.
#![tactic(auto)]

ghost use Rattle.std.specs.Prelude.{◌≡◌, ◌&&◌, ◌+◌, ◌≤◌, ltb, eqb, length};
ghost use Rattle.rule.specs.Demand.{surplus, demand};
ghost use Rattle.demands.specs.Demands.{surplus_of, complete, demands_of, surpluses_of, held};

// The highest surplus of the items of the line, and of null, whose surplus is 0.
#[tactic(auto, unfolding(rule::specs::Sheet::greatest, rule::specs::Sheet::amount, rule::specs::Demand::surplus))]
fn highest(prices: &[u16; 32], line: &[u16]) -> u16
    requires { length line.now ≤ 32 }
    ensures { result ≡ surplus (length line.now) prices.now line.now }
{
    let mut top: u16 = 0;
    for (i, bid) in line.iter().enumerate() {
        top = prices::larger(top, prices::over(*bid, prices[i]));
    }
    top
}

// The same of any line; 0 of one with more than 32 bids.
#[tactic(auto, unfolding(crate::specs::Demands::surplus_of))]
pub fn surplus_of(prices: &[u16; 32], line: &[u16]) -> u16
    ensures { result ≡ surplus_of prices.now line.now }
{
    if line.len() <= 32 {
        highest(prices, line)
    } else {
        0
    }
}

// Whether an item is demanded where the highest surplus is `top`: it is bid for, 0 being no bid, and its surplus is the highest.
fn demanded(bid: u16, price: u16, top: u16) -> bool
    ensures { result ≡ ltb 0 bid && eqb bid (price + top) }
{
    if bid == 0 || bid < price {
        return false;
    }
    bid - price == top
}

// A demand: whether null, and which items; and the highest surplus, which each of these options has.
#[derive(Drop)]
struct Demand {
    null: bool,
    items: u32,
    surplus: u16,
}

// The demand of the bidder whose bids are the line.
#[tactic(auto, unfolding(sets::specs::Bit::set_of))]
fn demand_of(prices: &[u16; 32], line: &[u16]) -> Demand
    requires { length line.now ≤ 32 }
    ensures { (result.null ≡ (demand (length line.now) prices.now line.now).null)
        × (result.items ≡ (demand (length line.now) prices.now line.now).items)
        × (result.surplus ≡ surplus (length line.now) prices.now line.now) }
{
    // No line is longer. The test tells the compiler so, which then takes several items at a time.
    if 32 < line.len() {
        return Demand {
            null: false,
            items: 0,
            surplus: 0,
        };
    }
    let top = highest(prices, line);
    let mut items: u32 = 0;
    for (i, bid) in line.iter().enumerate() {
        items = round::add(items, i + 1, demanded(*bid, prices[i], top));
    }
    Demand {
        null: top == 0,
        items,
        surplus: top,
    }
}

// Whether there are so many bids as the counts say, and the counts are within the limits.
#[tactic(auto, unfolding(crate::specs::Demands::complete))]
fn complete(items: usize, bidders: usize, bids: usize) -> bool
    ensures { result ≡ complete items bidders bids }
{
    items <= 32 && bidders <= 64 && bids == bidders * items
}

// The demands of all bidders: an item set for each, the set of those who demand null, and each one's highest surplus.
#[derive(Drop)]
pub struct Demands {
    pub sets: [u32; 64],
    pub nulls: u64,
    pub surpluses: [u16; 64],
}

// The demands at prices, by bids that stand bidder after bidder; zeros where the bids are not complete.
// Stays: zeros and not an Option, and arrays of 64 places and not a Vec. The clause promises them (the definition `held`), and nothing here takes heap.
pub fn demands_at(prices: &[u16; 32], bids: &[u16], items: usize, bidders: usize) -> Demands
    ensures { result ≡ held (demands_of items bidders prices.now bids.now) (surpluses_of items bidders prices.now bids.now) }
{
    let mut sets = [0u32; 64];
    let mut nulls: u64 = 0;
    let mut surpluses = [0u16; 64];
    if !complete(items, bidders, bids.len()) {
        return Demands {
            sets,
            nulls,
            surpluses,
        };
    }
    for b in 0..bidders {
        let d = demand_of(prices, bids::row(bids, items, b as u16));
        sets[b] = d.items;
        nulls = round::add(nulls, b + 1, d.null);
        surpluses[b] = d.surplus;
    }
    Demands {
        sets,
        nulls,
        surpluses,
    }
}
