// The matching of bidders to items, over demand sets. Items and bidders are numbered from 1: place b - 1 of `demand` has the set of bidder b,
// and place i - 1 of `holder` the bidder that holds item i, or 0 if nobody does.
#![tactic(auto)]

ghost use Rattle.std.specs.Prelude.{◌≡◌, true, false, ◌&&◌, ℕ, ◌+◌, ◌-◌, ◌≤◌, ◌<◌, get_or, set, replicate, eqb, MatchOption};
ghost use Rattle.sets.specs.Bit.{is_set, has, lowest};
ghost use Rattle.matching.specs.Demand.{largest_excess, Covered};
ghost use Rattle.matching.specs.Chain.{Kept, Placed, Taken, Settled, Seated, Seats};

use sets::Set;

// A bidder's number.
#[derive(Clone, Copy)]
struct Bidder {
    number: usize,
    ghost positive: { 0 < number },
    ghost at_most_64: { number ≤ 64 },
}

// A match in the making: who holds each item, and which items the chains have entered. The bidders' sets, and who may go without, are lent to
// each method. Stays: as fields they would be no plainer, since every contract had to say that they do not change.
#[derive(Drop)]
struct Matcher {
    holder: [u8; 32],
    entered: u32,
}

const EVERYBODY: u64 = u64::MAX;

impl Matcher {
    // Gives the item to the bidder.
    fn give(&mut self, item: usize, bidder: Bidder)
        requires { (0 < item) × (item ≤ 32) }
        ensures { self.new ≡ record self.old { holder = set self.old.holder (item - 1) bidder.number } }
    {
        self.holder[item - 1] = bidder.number as u8;
    }

    // A displacement chain, the bidder side: tries the lowest item of the bidder's set that is not entered yet, and on failure the next.
    // The number of items not yet entered falls.
    #[cycle(place_take)]
    fn place(&mut self, demand: &[u32; 64], may: u64, bidder: Bidder) -> bool
        requires { Kept demand.now self.old.holder }
        ensures { Placed demand.now may self.old.holder self.old.entered (bidder.number - 1)
            self.new.holder (record { placed = result; entered = self.new.entered }) }
    {
        let rest = demand[bidder.number - 1].but(self.entered);
        if rest == 0 {
            return false;
        }
        let item = rest.lowest();
        self.entered = self.entered.with(item);
        self.take(demand, may, item, bidder) || self.place(demand, may, bidder)
    }

    // The item side: gives the item to the bidder if it is free, if its holder may go without, or if its holder finds another.
    #[cycle(place_take)]
    fn take(&mut self, demand: &[u32; 64], may: u64, item: usize, bidder: Bidder) -> bool
        requires { (0 < item) × (item ≤ 32) × Kept demand.now self.old.holder
            × (is_set (get_or demand.now (bidder.number - 1) 0) (item - 1) ≡ true) × (is_set self.old.entered (item - 1) ≡ true) }
        ensures { Taken demand.now may self.old.holder self.old.entered (item - 1) (bidder.number - 1)
            self.new.holder (record { placed = result; entered = self.new.entered }) }
    {
        let last = usize::from(self.holder[item - 1]);
        if last == 0 || may.has(last) || self.place(demand, may, Bidder { number: last }) {
            self.give(item, bidder);
            return true;
        }
        false
    }

    // The lowest of the items that nobody holds, if there is one.
    fn free_item(&self, items: u32) -> Option<usize>
        ensures { let least = lowest 32 (λ i. has items i && eqb (get_or self.now.holder (i - 1) 0) 0)
            in MatchOption result (least ≡ 0) (λ i. (0 < i) × (i ≡ least)) }
    {
        let mut rest = items;
        while rest != 0 {
            let item = rest.lowest();
            if self.holder[item - 1] == 0 {
                return Some(item);
            }
            rest = rest.without(item);
        }
        None
    }

    // Places one bidder more, where nobody goes without again: at a free item if there is one, and else along a chain. What a failed chain has
    // entered stays entered for the next bidder, and what a chain that succeeds has entered does not.
    fn settle(&mut self, demand: &[u32; 64], bidder: Bidder)
        requires { Settled demand.now self.old.holder self.old.entered (bidder.number - 1) }
        ensures { Settled demand.now self.new.holder self.new.entered bidder.number }
    {
        let before = self.entered;
        if let Some(item) = self.free_item(demand[bidder.number - 1].but(before)) {
            self.give(item, bidder);
        } else if self.place(demand, 0, bidder) {
            self.entered = before;
        }
    }

    // All bidders placed, one after the other, as far as they can be.
    fn settled(demand: &[u32; 64]) -> Self
        ensures { Settled demand.now result.holder result.entered 64 }
    {
        let mut matcher = Matcher {
            holder: [0u8; 32],
            entered: 0,
        };
        for b in 1..=64 {
            matcher.settle(demand, Bidder { number: b });
        }
        matcher
    }

    // Places the bidder if it must be placed and is not; a bidder outside `bidders` may go without.
    fn seat(&mut self, demand: &[u32; 64], bidders: u64, bidder: Bidder) -> bool
        requires { Seated demand.now bidders self.old.holder (bidder.number - 1) }
        ensures { Seats demand.now bidders self.old.holder bidder.number self.new.holder result }
    {
        if !bidders.has(bidder.number) || self.holder.contains(&(bidder.number as u8)) {
            return true;
        }
        self.entered = 0;
        self.place(demand, EVERYBODY.but(bidders), bidder)
    }

    // Places all that must be placed.
    fn seat_all(&mut self, demand: &[u32; 64], bidders: u64) -> bool
        requires { Seated demand.now bidders self.old.holder 0 }
        ensures { Seats demand.now bidders self.old.holder 64 self.new.holder result }
    {
        for b in 1..=64 {
            if !self.seat(demand, bidders, Bidder { number: b }) {
                return false;
            }
        }
        true
    }
}

// The largest set in excess demand: what failed chains have entered when all bidders are placed as far as they can be.
pub fn excess_demand(demand: &[u32; 64]) -> u32
    ensures { result ≡ largest_excess 32 64 demand.now }
{
    Matcher::settled(demand).entered
}

// Each bidder's set, as far as it lies in `items`. Stays a loop: `demand.map(..)` copies the sets several times, and `cover` takes up to a
// third longer then.
fn within(demand: &[u32; 64], items: u32) -> [u32; 64]
    ensures { (b i : ℕ) → b < 64 → i < 32 → is_set (get_or result b 0) i ≡ is_set (get_or demand.now b 0) i && is_set items i }
{
    let mut wanted = *demand;
    for set in wanted.iter_mut() {
        *set = (*set).common(items);
    }
    wanted
}

// A match that was asked for: place i - 1 of `holder` has the bidder that holds item i, or 0. Zeros only where none is found.
// Stays: no Option, since callers may rely on the zeros beside none, which `promises` states and the edit `not_zeros` guards.
#[derive(Drop)]
pub struct Coverage {
    pub found: bool,
    pub holder: [u8; 32],
}

// A match in which each of the bidders is placed and each of the items is held, or none. Which match it is, is free. First the items: the
// bidders are placed among them alone. Then the bidders: a chain that places one more leaves no item that was held.
pub fn cover(demand: &[u32; 64], bidders: u64, items: u32) -> Coverage
    ensures { Covered 32 64 demand.now bidders items result.found (λ i. get_or result.holder i 0)
        × (result.found ≡ false → result.holder ≡ replicate 32 0) }
{
    let mut matcher = Matcher::settled(&within(demand, items));
    if matcher.free_item(items).is_some() || !matcher.seat_all(demand, bidders) {
        return Coverage {
            found: false,
            holder: [0; 32],
        };
    }
    Coverage {
        found: true,
        holder: matcher.holder,
    }
}
