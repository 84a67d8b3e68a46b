// What stands below the calls: the matching, the two sets of a round, reports, prices, and sets of items and bidders.
ghost use Rattle.std.specs.Prelude.{◌≡◌, false, ◌&&◌, ◌||◌, not, ℕ, ◌-◌, ◌≤◌, min, max, leb, eqb, get_or, replicate};
ghost use Rattle.sets.specs.Bit.{outside, has, set_of, size, lowest};
ghost use Rattle.sets.specs.Lists.{places};
ghost use Rattle.matching.specs.Demand.{largest_excess};
ghost use Rattle.rule.specs.Excess.{excess_demand, excess_supply, above_floors};
ghost use Rattle.rule.specs.Round.{lower};
ghost use Rattle.rule.specs.Refusal.{any_over, any_under};
ghost use Rattle.prices.specs.Prices.{raise_places};
ghost use Rattle.round.specs.Reports.{reports};
ghost use Rattle.reports.specs.Report.{saying, unfit};
ghost use Rattle.reports.specs.Places.{all_fit, any_missing};
ghost use Rattle.promises.specs.Matching.{MatchOrNone};

use sets::Set;

// ---- the matching, and exported

pub fn excess_demand(demand: &[u32; 64]) -> u32
    ensures { result ≡ largest_excess 32 64 demand.now }
{
    matching::excess_demand(demand)
}

pub fn cover(demand: &[u32; 64], bidders: u64, items: u32) -> matching::Coverage
    ensures found { MatchOrNone demand.now bidders items result.found (λ i. get_or result.holder i 0) }
    ensures zeros { result.found ≡ false → result.holder ≡ replicate 32 0 }
{
    matching::cover(demand, bidders, items)
}

pub fn matching_excess_demand(demand: &[u32; 64]) -> u32
    ensures { result ≡ largest_excess 32 64 demand.now }
{
    matching_exports::matching_excess_demand(demand)
}

pub fn matching_covers(demand: &[u32; 64], bidders: u64, items: u32) -> bool
    ensures { (holder : ℕ → ℕ) × MatchOrNone demand.now bidders items result holder }
{
    matching_exports::matching_covers(demand, bidders, items)
}

// ---- the two sets of a round, by reports

pub fn add_item(s: u32, i: usize, on: bool) -> u32
    ensures { result ≡ set_of 32 (λ k. has s k || (on && eqb k i)) }
{
    round::add(s, i, on)
}

pub fn add_bidder(s: u64, i: usize, on: bool) -> u64
    ensures { result ≡ set_of 64 (λ k. has s k || (on && eqb k i)) }
{
    round::add(s, i, on)
}

pub fn rising(sets: &[u32; 64], nulls: u64) -> u32
    ensures { result ≡ excess_demand 32 (reports 64 sets.now nulls) }
{
    round::rising(sets, nulls)
}

pub fn falling(sets: &[u32; 64], above: u32) -> u32
    ensures { (nulls : ℕ) → result ≡ excess_supply 32 above (reports 64 sets.now nulls) }
{
    round::falling(sets, above)
}

pub fn above_floors(floors: &[u16; 32], prices: &[u16; 32]) -> u32
    ensures { result ≡ above_floors 32 floors.now prices.now }
{
    round::above_floors(floors, prices)
}

// ---- reports

pub fn refuses(items: usize, null: bool, set: u32) -> bool
    ensures { result ≡ unfit items (saying null set) }
{
    reports::refuses(items, null, set)
}

pub fn all_fit(items: usize, bidders: usize, sets: &[u32], nulls: u64, reported: u64) -> bool
    ensures { result ≡ all_fit items bidders sets.now nulls reported }
{
    reports::all_fit(items, bidders, sets, nulls, reported)
}

pub fn misses(bidders: usize, reported: u64) -> bool
    ensures { result ≡ any_missing bidders reported }
{
    reports::misses(bidders, reported)
}

// ---- prices

pub fn smaller(a: u16, b: u16) -> u16
    ensures { result ≡ min a b }
{
    prices::smaller(a, b)
}

pub fn larger(a: u16, b: u16) -> u16
    ensures { result ≡ max a b }
{
    prices::larger(a, b)
}

pub fn over(a: u16, b: u16) -> u16
    ensures { result ≡ a - b }
{
    prices::over(a, b)
}

pub fn wide(x: u16) -> u32
    ensures { (result ≡ x) × (result ≤ 65535) }
{
    prices::wide(x)
}

pub fn raised(prices: &[u16; 32], set: u32) -> [u16; 32]
    ensures { result ≡ raise_places prices.now set }
{
    prices::raised(prices, set)
}

pub fn lowered(prices: &[u16; 32], set: u32) -> [u16; 32]
    ensures { result ≡ lower 32 prices.now set }
{
    prices::lowered(prices, set)
}

pub fn any_over(xs: &[u16]) -> bool
    ensures { result ≡ any_over xs.now }
{
    prices::any_over(xs)
}

pub fn any_under(prices: &[u16], floors: &[u16]) -> bool
    ensures { result ≡ any_under prices.now floors.now }
{
    prices::any_under(prices, floors)
}

pub fn in_places(xs: &[u16]) -> [u16; 32]
    ensures { result ≡ places 32 xs.now }
{
    prices::in_places(xs)
}

// ---- sets of items and of bidders

pub fn outside(most: usize, number: usize) -> bool
    ensures { result ≡ outside most number }
{
    sets::outside(most, number)
}

pub fn has_item(s: u32, i: usize) -> bool
    ensures { result ≡ has s i }
{
    s.has(i)
}

pub fn only_item(i: usize) -> u32
    ensures { result ≡ set_of 32 (λ k. eqb k i) }
{
    u32::only(i)
}

pub fn first_items(n: usize) -> u32
    ensures { result ≡ set_of 32 (λ k. leb k n) }
{
    u32::first(n)
}

pub fn with_item(s: u32, i: usize) -> u32
    ensures { result ≡ set_of 32 (λ k. has s k || eqb k i) }
{
    s.with(i)
}

pub fn without_item(s: u32, i: usize) -> u32
    ensures { result ≡ set_of 32 (λ k. has s k && not (eqb k i)) }
{
    s.without(i)
}

pub fn common_items(s: u32, t: u32) -> u32
    ensures { result ≡ set_of 32 (λ k. has s k && has t k) }
{
    s.common(t)
}

pub fn other_items(s: u32, t: u32) -> u32
    ensures { result ≡ set_of 32 (λ k. has s k && not (has t k)) }
{
    s.but(t)
}

pub fn lowest_item(s: u32) -> usize
    ensures { result ≡ lowest 32 (has s) }
{
    s.lowest()
}

pub fn has_bidder(g: u64, b: usize) -> bool
    ensures { result ≡ has g b }
{
    g.has(b)
}

pub fn only_bidder(b: usize) -> u64
    ensures { result ≡ set_of 64 (λ k. eqb k b) }
{
    u64::only(b)
}

pub fn first_bidders(n: usize) -> u64
    ensures { result ≡ set_of 64 (λ k. leb k n) }
{
    u64::first(n)
}

pub fn with_bidder(g: u64, b: usize) -> u64
    ensures { result ≡ set_of 64 (λ k. has g k || eqb k b) }
{
    g.with(b)
}

pub fn without_bidder(g: u64, b: usize) -> u64
    ensures { result ≡ set_of 64 (λ k. has g k && not (eqb k b)) }
{
    g.without(b)
}

pub fn common_bidders(g: u64, h: u64) -> u64
    ensures { result ≡ set_of 64 (λ k. has g k && has h k) }
{
    g.common(h)
}

pub fn other_bidders(g: u64, h: u64) -> u64
    ensures { result ≡ set_of 64 (λ k. has g k && not (has h k)) }
{
    g.but(h)
}

pub fn bidder_count(g: u64) -> u32
    ensures { result ≡ size 64 g }
{
    sets::bidder_count(g)
}

pub fn lowest_bidder(g: u64) -> usize
    ensures { result ≡ lowest 64 (has g) }
{
    g.lowest()
}
