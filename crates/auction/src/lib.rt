// The sealed auction.
#![tactic(auto)]

ghost use Rattle.std.specs.Prelude.{◌≡◌, ◌≢◌, List, ℕ, ◌+◌, ◌-◌, ◌≤◌, length, MatchResult};
ghost use Rattle.sets.specs.Lists.{places};
ghost use Rattle.rule.specs.Sheet.{amount, greatest};
ghost use Rattle.rule.specs.Round.{close};
ghost use Rattle.rule.specs.Closing.{FitsAt, assignment_at};
ghost use Rattle.rule.specs.FallingFirst.{falling_close};
ghost use Rattle.bids.specs.Lent.{rows_of, sheet_above, sheet_of};
ghost use Rattle.bids.specs.Refusal.{sealed_above_refusal};
ghost use Rattle.least.specs.Least.{Least};
ghost use Rattle.auction.specs.Reduced.{ReducedTo, ReducedLines};
ghost use Rattle.auction.specs.Sealed.{refused, named_at, sealed_above_of, sealed_of, falling_first_of, Promised, PromisedFalling};

// ---- steps of the close, without its rounds

// The most that a price is over the other at its place.
#[tactic(auto, unfolding(rule::specs::Sheet::greatest))]
fn furthest(a: &[u16; 32], b: &[u16; 32]) -> u32
    ensures { result ≡ greatest 32 (λ i. amount a.now i - amount b.now i) }
{
    let mut most: u16 = 0;
    for (x, y) in a.iter().zip(b) {
        most = prices::larger(most, prices::over(*x, *y));
    }
    prices::wide(most)
}

// The rounds to the close, and the closing prices.
#[derive(Drop)]
struct Path {
    raised: u32,
    lowered: u32,
    prices: [u16; 32],
}

// A bidder's bids less the surplus, in their places of the table.
fn reduce_line(table: &mut [u16; 2048], at: usize, line: &[u16], surplus: u16)
    requires { (length table.old ≡ 2048) × (at + length line.now ≤ 2048) }
    ensures { ReducedTo line.now surplus at (length line.now) table.old table.new }
{
    for (i, bid) in line.iter().enumerate() {
        table[at + i] = prices::over(*bid, surplus);
    }
}

// ---- what is said of a close

// The close of a sealed auction: the number that turned it down, or 0; rounds raised and lowered; the closing prices; each bidder's item,
// or 0 for null; each bidder's gain, which is the bid less the price of that item, and 0 of null.
#[derive(Drop)]
pub struct Closing {
    pub refusal: u8,
    pub raised: u32,
    pub lowered: u32,
    pub prices: [u16; 32],
    pub assignment: [u8; 64],
    pub gains: [u16; 64],
}

// Beside a number, zeros only.
// Stays: zeros beside a number, and not a Result. `sealed`, `sealed_above` and `falling_first` promise them (the definition `refused`).
#[tactic(auto, unfolding(crate::specs::Sealed::refused))]
fn refused(why: u8) -> Closing
    ensures { result ≡ refused why }
{
    Closing {
        refusal: why,
        raised: 0,
        lowered: 0,
        prices: [0; 32],
        assignment: [0; 64],
        gains: [0; 64],
    }
}

// ---- a sheet that no number turns down

// Lent numbers that no number of document 01 turns down: starting prices and floors, one for each item, and bids, bidder after bidder.
#[derive(Clone, Copy)]
struct Accepted<'a> {
    items: usize,
    bidders: usize,
    start: &'a [u16],
    floors: &'a [u16],
    bids: &'a [u16],
    ghost accepted: { sealed_above_refusal items bidders start.now floors.now bids.now ≡ 0 },
}

impl<'a> Accepted<'a> {
    ghost use Rattle.auction.specs.Accepted.{sheet};

    // The numbers, or the number that turns them down.
    fn new(
        items: usize,
        bidders: usize,
        start: &'a [u16],
        floors: &'a [u16],
        bids: &'a [u16],
    ) -> Result<Self, u8>
        ensures { MatchResult result
            (λ a. (sealed_above_refusal items bidders start.now floors.now bids.now ≡ 0) × (sheet a ≡ sheet_above items bidders start.now floors.now bids.now))
            (λ why. (why ≡ sealed_above_refusal items bidders start.now floors.now bids.now) × (why ≢ 0)) }
    {
        let why = bids::refusal_above(items, bidders, start, floors, bids);
        if why != 0 {
            return Err(why);
        }
        Ok(Accepted {
            items,
            bidders,
            start,
            floors,
            bids,
        })
    }

    // No round is played: the least prices from the start up are those at the turn, the least from the floors up the closing prices, and the rounds are the
    // largest rise and the largest fall.
    fn rounds(&self) -> Path
        ensures { (result.raised ≡ (close (sheet self.now)).ups)
            × (result.lowered ≡ (close (sheet self.now)).downs)
            × (result.prices ≡ places 32 (close (sheet self.now)).prices) }
    {
        let first = prices::in_places(self.start);
        let ends = least::close_and_turn(
            self.start,
            self.floors,
            self.bids,
            self.items,
            self.bidders,
        );
        Path {
            raised: furthest(&ends.turn, &first),
            lowered: furthest(&ends.turn, &ends.close),
            prices: ends.close,
        }
    }

    // The bids, each less the bidder's highest surplus at the prices.
    fn reduced(&self, prices: &[u16; 32]) -> [u16; 2048]
        ensures { (length result ≡ 2048) × ReducedLines self.now.items prices.now self.now.bids.now self.now.bidders result }
    {
        let mut table = [0u16; 2048];
        for b in 0..self.bidders {
            let line = bids::row(self.bids, self.items, b as u16);
            let surplus = demands::surplus_of(prices, line);
            reduce_line(&mut table, b * self.items, line, surplus);
        }
        table
    }

    // The least prices from the floors up: a sheet that starts at its floors turns where it closes.
    fn closing_prices(&self) -> [u16; 32]
        ensures { Least self.now.items (rows_of self.now.items self.now.bidders self.now.bids.now) self.now.floors.now result }
    {
        least::close_and_turn(
            self.floors,
            self.floors,
            self.bids,
            self.items,
            self.bidders,
        )
        .close
    }

    // No round is played: the turn is where the auction with reduced bids closes, and the rounds are the largest fall up to it and the largest rise after it.
    fn falling_rounds(&self) -> Path
        ensures { (result.raised ≡ (falling_close (sheet self.now)).ups)
            × (result.lowered ≡ (falling_close (sheet self.now)).downs)
            × (result.prices ≡ places 32 (close (sheet self.now)).prices) }
    {
        let first = prices::in_places(self.start);
        let less = self.reduced(&first);
        let reduced = Accepted {
            items: self.items,
            bidders: self.bidders,
            start: self.floors,
            floors: self.floors,
            bids: &less[..self.bids.len()],
        };
        let turn = reduced.closing_prices();
        let end = self.closing_prices();
        Path {
            raised: furthest(&end, &turn),
            lowered: furthest(&first, &turn),
            prices: end,
        }
    }

    // The outcome with these rounds and closing prices: the names are the first in order at them, and who has an option of their demand gains their highest
    // surplus, which was found with it. Neither the order of the rounds nor the start is asked for.
    fn named(&self, path: Path) -> Closing
        ensures { (q : List ℕ) → length q ≡ self.now.items → path.prices ≡ places 32 q
            → FitsAt (sheet_above self.now.items self.now.bidders q self.now.floors.now self.now.bids.now) q
            (assignment_at (sheet_above self.now.items self.now.bidders q self.now.floors.now self.now.bids.now) q)
            → result ≡ named_at (sheet_above self.now.items self.now.bidders q self.now.floors.now self.now.bids.now) path.raised path.lowered q }
    {
        let d = demands::demands_at(&path.prices, self.bids, self.items, self.bidders);
        let low = prices::in_places(self.floors);
        let above = round::above_floors(&low, &path.prices);
        let names = assignment::first(&d.sets, d.nulls, above, self.bidders);
        Closing {
            refusal: 0,
            raised: path.raised,
            lowered: path.lowered,
            prices: path.prices,
            assignment: names,
            gains: d.surpluses,
        }
    }
}

// ---- the sealed auction

// The sealed auction with floors: starting prices and floors, one for each item, and bids, bidder after bidder.
pub fn sealed_above(
    items: usize,
    bidders: usize,
    start: &[u16],
    floors: &[u16],
    bids: &[u16],
) -> Closing
    ensures outcome { result ≡ sealed_above_of items bidders start.now floors.now bids.now }
    ensures promised { result.refusal ≡ 0 → Promised (sheet_above items bidders start.now floors.now bids.now) result }
{
    match Accepted::new(items, bidders, start, floors, bids) {
        Ok(sheet) => sheet.named(sheet.rounds()),
        Err(why) => refused(why),
    }
}

// The same falling first: the falling set goes down until it is empty, and then the rising set goes up.
pub fn falling_first(
    items: usize,
    bidders: usize,
    start: &[u16],
    floors: &[u16],
    bids: &[u16],
) -> Closing
    ensures outcome { result ≡ falling_first_of items bidders start.now floors.now bids.now }
    ensures promised { result.refusal ≡ 0 → PromisedFalling (sheet_above items bidders start.now floors.now bids.now) result }
{
    match Accepted::new(items, bidders, start, floors, bids) {
        Ok(sheet) => sheet.named(sheet.falling_rounds()),
        Err(why) => refused(why),
    }
}

// The sealed auction: starting prices, one for each item, and bids, bidder after bidder. The floors are 0.
pub fn sealed(items: usize, bidders: usize, start: &[u16], bids: &[u16]) -> Closing
    ensures outcome { result ≡ sealed_of items bidders start.now bids.now }
    ensures promised { result.refusal ≡ 0 → Promised (sheet_of items bidders start.now bids.now) result }
{
    if 32 < items {
        return refused(1);
    }
    let floors = [0u16; 32];
    sealed_above(items, bidders, start, &floors[..items], bids)
}
