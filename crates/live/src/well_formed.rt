// Number 11 (document 01: turned down by the state), clause by clause: what a well formed record keeps. The order is that of the sentence; the clauses on
// reports are tested place by place in one loop, which `reports` has.
ghost use Rattle.std.specs.Prelude.{◌≡◌, true, ◌&&◌, ◌+◌, ◌*◌, ◌≤◌, leb, eqb};
ghost use Rattle.rule.specs.Sheet.{price_sum};
ghost use Rattle.live.specs.Auction.{counts_fit, prices_fit, unused_prices, floors_fit, from_floors, unused_floors, rounds_fit, rising_set, falling_set, close_fits, well_formed};

use crate::{Auction, MOST_BIDDERS, Phase, Tidied};

// the sum of the items' prices, or of their floors
fn price_sum(items: usize, prices: &[u16; 32]) -> u32
    requires { items ≤ 32 }
    ensures { (result ≡ price_sum items prices.now) × (result ≤ 65535 * items) }
{
    let mut sum = 0;
    for price in &prices[..items] {
        sum += prices::wide(*price);
    }
    sum
}

impl Tidied {
    // both sets of the reports are empty
    fn both_empty(self) -> bool
        ensures { result ≡ eqb (rising_set self.auction) 0 && eqb (falling_set self.auction) 0 }
    {
        self.rising_set() == 0 && self.falling_set() == 0
    }

    // not: if closed, a report is missing or a set is not empty
    fn close_fits(self) -> bool
        ensures { result ≡ close_fits self.auction.phase self.auction }
    {
        !self.auction.is_closed()
            || !reports::misses(self.auction.bidders, self.auction.reported) && self.both_empty()
    }
}

impl Auction {
    // not: a count is outside 1 or 2
    fn counts_fit(self) -> bool
        ensures { result ≡ counts_fit self }
    {
        !sets::outside(32, self.items) && !sets::outside(MOST_BIDDERS, self.bidders)
    }

    // not: a price exceeds 4,095
    fn prices_fit(self) -> bool
        ensures { result ≡ prices_fit self }
    {
        !prices::any_over(&self.prices)
    }

    // not: an unused place or bit is not zero. Prices past the items
    fn unused_prices(self) -> bool
        ensures { result ≡ unused_prices self }
    {
        for i in self.items..32 {
            if self.prices[i] != 0 {
                return false;
            }
        }
        true
    }

    // not: a floor exceeds 4,095, a price is below its floor, or an unused floor is not zero. As no price exceeds 4,095 and every unused one is zero, the second
    // clause over all 32 places is all three
    fn floors_fit(self) -> bool
        requires { (prices_fit self ≡ true) × (unused_prices self ≡ true) }
        ensures { result ≡ floors_fit self && from_floors self && unused_floors self }
    {
        !prices::any_under(&self.prices, &self.floors)
    }

    // Stays: the three tests of rounds each ask for at most 32 items, since they are part of the test of the record, which is `Tidied` only behind them.

    // while rising: no round was lowered, and the rounds raised are at most the sum of prices less floors. The sums are in 64 bits, where none wraps
    fn rounds_rising(self, sum: u32) -> bool
        requires { (self.items ≤ 32) × (sum ≡ price_sum self.items self.prices) }
        ensures { result ≡ eqb self.lowered 0 && leb (self.raised + price_sum self.items self.floors) (price_sum self.items self.prices) }
    {
        self.lowered == 0
            && u64::from(self.raised) + u64::from(price_sum(self.items, &self.floors))
                <= u64::from(sum)
    }

    // while falling or closed: the rounds raised, and the sum of prices with the rounds lowered, are at most 4,095 × items
    fn rounds_within(self, sum: u32) -> bool
        requires { (self.items ≤ 32) × (sum ≡ price_sum self.items self.prices) }
        ensures { result ≡ leb self.raised (4095 * self.items) && leb (price_sum self.items self.prices + self.lowered) (4095 * self.items) }
    {
        let most = 4095 * self.items as u64;
        u64::from(self.raised) <= most && u64::from(sum) + u64::from(self.lowered) <= most
    }

    // not: while rising, any round was lowered or the rounds raised exceed the sum of prices less floors; while falling or closed, as above
    fn rounds_fit(self) -> bool
        requires { self.items ≤ 32 }
        ensures { result ≡ rounds_fit self.phase self }
    {
        let sum = price_sum(self.items, &self.prices);
        match self.phase {
            Phase::Rising => self.rounds_rising(sum),
            Phase::Falling | Phase::Closed => self.rounds_within(sum),
        }
    }

    // number 11 does not apply
    pub(crate) fn well_formed(self) -> bool
        ensures { result ≡ well_formed self }
    {
        self.counts_fit()
            && self.prices_fit()
            && self.unused_prices()
            && self.floors_fit()
            // the clauses on reports, place by place in one loop
            && reports::all_fit(
                self.items,
                self.bidders,
                &self.sets,
                self.nulls,
                self.reported,
            )
            && self.rounds_fit()
            && self.tidied().close_fits()
    }
}
