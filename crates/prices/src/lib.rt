// What is done with prices alone. They stand in 32 places; where there are fewer items, the places past them hold zeros, and the laws of proofs/
// carry each result over.
#![tactic(auto)]

ghost use Rattle.std.specs.Prelude.{◌≡◌, ◌+◌, ◌-◌, ◌≤◌, min, max, ltb, length, get_or};
ghost use Rattle.sets.specs.Count.{to_nat, any_below};
ghost use Rattle.sets.specs.Lists.{places};
ghost use Rattle.rule.specs.Round.{lower};
ghost use Rattle.rule.specs.Refusal.{any_over, any_under};
ghost use Rattle.prices.specs.Prices.{raise_places};

use sets::Set;
use std::array;

// The smaller of two amounts.
pub fn smaller(a: u16, b: u16) -> u16
    ensures { result ≡ min a b }
{
    a.min(b)
}

// The larger of two amounts.
pub fn larger(a: u16, b: u16) -> u16
    ensures { result ≡ max a b }
{
    a.max(b)
}

// How far one amount is over another, and 0 where it is not.
pub fn over(a: u16, b: u16) -> u16
    ensures { result ≡ a - b }
{
    a.saturating_sub(b)
}

// An amount where sums or rounds are counted.
pub fn wide(x: u16) -> u32
    ensures { (result ≡ x) × (result ≤ 65535) }
{
    u32::from(x)
}

// Stays: `on` is what a set says of an item, and counts as 1 or 0; two functions for it would say less.
// The price, up by 1 where `on` says so; 65,535 stays.
fn up(price: u16, on: bool) -> u16
    ensures { result ≡ min 65535 (price + to_nat on) }
{
    price.saturating_add(u16::from(on))
}

// The price, down by 1 where `on` says so; 0 stays.
fn down(price: u16, on: bool) -> u16
    ensures { result ≡ price - to_nat on }
{
    price.saturating_sub(u16::from(on))
}

// The prices, with those of the items in the set up by 1.
pub fn raised(prices: &[u16; 32], set: u32) -> [u16; 32]
    ensures { result ≡ raise_places prices.now set }
{
    array::from_fn(|i| up(prices[i], set.has(i + 1)))
}

// And down by 1.
pub fn lowered(prices: &[u16; 32], set: u32) -> [u16; 32]
    ensures { result ≡ lower 32 prices.now set }
{
    array::from_fn(|i| down(prices[i], set.has(i + 1)))
}

// The loops below have no early end, so that the compiler takes several places at a time.

// Some amount is above the limit.
fn any_past(xs: &[u16], limit: u16) -> bool
    ensures { result ≡ any_below (length xs.now) (λ k. ltb limit (get_or xs.now k 0)) }
{
    let mut most = 0;
    for x in xs {
        most = larger(most, *x);
    }
    limit < most
}

// Some amount is above 4,095: what 4 asks of starting prices, 5 of bids and 18 of floors.
pub fn any_over(xs: &[u16]) -> bool
    ensures { result ≡ any_over xs.now }
{
    any_past(xs, 4095)
}

// Some price that has a floor is below it.
fn first_under(prices: &[u16], floors: &[u16]) -> bool
    ensures { result ≡ any_below (min (length prices.now) (length floors.now)) (λ k. ltb 0 (get_or floors.now k 0 - get_or prices.now k 0)) }
{
    let mut most = 0;
    for (price, floor) in prices.iter().zip(floors) {
        most = larger(most, over(*floor, *price));
    }
    0 < most
}

// Some price is below its floor; a floor past the last price is held against 0.
pub fn any_under(prices: &[u16], floors: &[u16]) -> bool
    ensures { result ≡ any_under prices.now floors.now }
{
    if first_under(prices, floors) {
        return true;
    }
    any_past(&floors[prices.len().min(floors.len())..], 0)
}

// Starting prices, or floors, in 32 places; what stands past 32 is left out.
pub fn in_places(xs: &[u16]) -> [u16; 32]
    ensures { result ≡ places 32 xs.now }
{
    let mut next = [0u16; 32];
    let n = xs.len().min(32);
    next[..n].copy_from_slice(&xs[..n]);
    next
}
