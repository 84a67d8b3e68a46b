// What the rule of a round makes of reports, and the items of price above the floor. The reports are held as an item set for each of 64 bidders and the
// set of the bidders who say null; prices stand in 32 places. Where there are fewer items and bidders, the places past them hold zeros, and the laws
// of proofs/ carry each result over.
#![tactic(auto)]

ghost use Rattle.std.specs.Prelude.{◌≡◌, cond, ◌&&◌, ◌||◌, ℕ, ◌+◌, eqb, get_or};
ghost use Rattle.sets.specs.Bit.{has, set_of};
ghost use Rattle.sets.specs.Lists.{tabulate};
ghost use Rattle.rule.specs.Excess.{excess_demand, excess_supply, above_floors};
ghost use Rattle.round.specs.Reports.{reports};

use sets::Set;
use std::array;

// The set, and the number where `on` says so: number 0 is in no set.
pub fn add<S: Set>(set: S, number: usize, on: bool) -> S
    ensures { S.bits result ≡ set_of S.width (λ k. has (S.bits set) k || (on && eqb k number)) }
{
    if on { set.with(number) } else { set.with(0) }
}

// The item sets of the bidders who do not say null.
fn active(sets: &[u32; 64], nulls: u64) -> [u32; 64]
    ensures { result ≡ tabulate 64 (λ b. cond (has nulls (b + 1)) 0 (get_or sets.now b 0)) 0 }
{
    array::from_fn(|b| {
        let null = nulls.has(b + 1);
        if null { 0 } else { sets[b] }
    })
}

// The item sets, as far as they lie in `above`.
fn inside(sets: &[u32; 64], above: u32) -> [u32; 64]
    ensures { result ≡ tabulate 64 (λ b. set_of 32 (λ k. has (get_or sets.now b 0) k && has above k)) 0 }
{
    array::from_fn(|b| sets[b].common(above))
}

// The rising set of reports.
pub fn rising(sets: &[u32; 64], nulls: u64) -> u32
    ensures { result ≡ excess_demand 32 (reports 64 sets.now nulls) }
{
    let own = active(sets, nulls);
    matching::excess_demand(&own)
}

// The falling set of reports, `above` being the items of price above the floor. It does not depend on who says null.
pub fn falling(sets: &[u32; 64], above: u32) -> u32
    ensures { (nulls : ℕ) → result ≡ excess_supply 32 above (reports 64 sets.now nulls) }
{
    let own = inside(sets, above);
    let kept = matching::excess_demand(&own);
    above.but(kept)
}

// The items of price above the floor.
pub fn above_floors(floors: &[u16; 32], prices: &[u16; 32]) -> u32
    ensures { result ≡ above_floors 32 floors.now prices.now }
{
    let mut s: u32 = 0;
    for i in 0..32 {
        s = add(s, i + 1, floors[i] < prices[i]);
    }
    s
}
