// The least prices at which no set of items is overdemanded: from the floors up, which is the close, and from the starting prices up, which is the turn.
//
// Bidders are put in over items one at a time: a search by distance finds by how much prices must rise before the new bidder, and those whom they push on, all
// have an item that they demand, or null. From 0 up the items are put in over the bidders instead, by the transposed table of bids: there are fewer of them.
// Prices and holders that then balance fall to the least that do, in one more search. From there prices rise to the close, and from the close to the turn.
//
// Arrays have 64 places, for items or for bidders. Item i has place i - 1; a holder is a bidder counted from 1, or 0.
//
// Stays: 0 for null, for no holder and for what is left no more, and a list of numbers for each, not one of structs: the definitions speak of them so
// (specs/Holding, specs/Steps).
// Stays: bids, items and bidders go as parameters of their own. A struct of them, which was tried and proved, is no plainer: what calls no longer say the clauses
// say twice (`bids.now.table.now`). Random sheets take 2 to 8 per cent longer by it, within the limits of docs/BENCHMARKS.
#![tactic(auto)]

ghost use Rattle.std.specs.Prelude.{◌≡◌, Bool, true, false, cond, ◌||◌, List, ℕ, ◌+◌, ◌-◌, ◌*◌, ◌≤◌, ◌<◌, max, length, get_or, set, replicate, eqb};
ghost use Rattle.sets.specs.Bit.{has, set_of};
ghost use Rattle.sets.specs.Lists.{places};
ghost use Rattle.rule.specs.Sheet.{amount};
ghost use Rattle.bids.specs.Lent.{rows_of};
ghost use Rattle.rule.specs.Equilibrium.{Below};
ghost use Rattle.bids.specs.Refusal.{sealed_above_refusal};
ghost use Rattle.bids.specs.Fit.{Small, Fit};
ghost use Rattle.least.specs.Steps.{Reached, Lowest, Numbered, AllLeft, HeldLeft, WithDistance, Nearest, Enters, Entered, at_option};
ghost use Rattle.least.specs.Holding.{Joins};
ghost use Rattle.least.specs.Least.{Least};
ghost use Rattle.least.specs.Lifting.{Lifted, Starts, From};
ghost use Rattle.least.specs.Falling.{Seated, Offered, Descends, Descended, Lowered};
ghost use Rattle.least.specs.Transposing.{TransposedTo, Transposed, Options, Given, Balanced};
ghost use Rattle.least.specs.Putting.{Ready, Unsearched, Seeking, Changed, Chained, Shifted, Put, everyone, others, Standing, Table};

use sets::Set;
use std::array;

// ---- numbers

// One number where two are the same, and another where they are not.
// Stays: a function of its own keeps `if`s out of the loops below (CONTRIBUTING, rule 4), whose proofs would part in two at each.
fn if_same(a: u16, b: u16, then: u16, other: u16) -> u16
    ensures { result ≡ cond (eqb a b) then other }
{
    if a == b { then } else { other }
}

// ---- distances

// How far the items are from where a search starts, from where each was reached, and what stands for those that are left.
#[derive(Drop)]
struct Paths {
    dist: [u16; 64],
    via: [u16; 64],
    left: [u16; 64],
}

// The reach of who holds an item, and the least distance of the items that are left then.
#[derive(Drop)]
struct Reach {
    u: u16,
    low: u16,
}

impl Paths {
    // Nothing is reached yet: all is far.
    fn new(left: [u16; 64]) -> Paths
        ensures { (result.dist ≡ replicate 64 16384) × (result.via ≡ replicate 64 0) × (result.left ≡ left) }
    {
        Paths {
            dist: [16384; 64],
            via: [0; 64],
            left,
        }
    }

    // The paths after somebody with this line and reach u was entered at item j: an item is as much nearer as it is worth to them. Answers the least distance of
    // those that are left, and 65,535 if none is.
    // How many items there are is left to the compiler, which then takes several at a time; a loop over 64 it would unroll.
    fn relax(&mut self, prices: &[u16; 64], line: &[u16], u: u16, j: u16) -> u16
        requires { (length line.now ≤ 64) × Small prices.now × (u ≤ 8190) }
        ensures { Reached u j line.now prices.now self.old.dist self.old.via (length line.now) self.new.dist self.new.via
            × Lowest self.new.dist self.old.left (length line.now) result × (self.new.left ≡ self.old.left) }
    {
        let mut low = u16::MAX;
        for (x, &bid) in line.iter().enumerate() {
            let old = self.dist[x];
            let d = prices::smaller((u + prices[x]).saturating_sub(bid), old);
            self.via[x] = if_same(d, old, self.via[x], j);
            self.dist[x] = d;
            low = prices::smaller(low, if_same(self.left[x], 0, u16::MAX, d));
        }
        low
    }

    // What stands for an item at that distance that is left, and 0 if there is none.
    fn item_with(&self, items: usize, low: u16) -> u16
        requires { items ≤ 64 }
        ensures { WithDistance self.now.dist self.now.left low items result }
    {
        let mut item: u16 = 0;
        for x in 0..items {
            item = item.max(if_same(self.dist[x], low, self.left[x], 0));
        }
        item
    }

    // The nearest item that is left, a free one first, and 0 if null is as near.
    fn nearest(&self, items: usize, low: u16, null: u16) -> u16
        requires { (items ≤ 64) × Numbered self.now.left × Lowest self.now.dist self.now.left items low }
        ensures { Nearest items null self.now.dist self.now.left result }
    {
        if null <= low {
            return 0;
        }
        let item = self.item_with(items, low);
        if item <= 64 {
            return item;
        }
        item - 64
    }

    // Item j is entered, and its holder, who has this line, goes on from there.
    fn enter(&mut self, prices: &[u16; 64], line: &[u16], j: u16) -> Reach
        requires { Enters j line.now prices.now self.old.dist self.old.via self.old.left }
        ensures { Entered j line.now prices.now self.old.dist self.old.via self.old.left
            self.new.dist self.new.via self.new.left result.u result.low }
    {
        let x = usize::from(j - 1);
        let u = line[x] - prices[x] + self.dist[x];
        self.left[x] = 0;
        let low = self.relax(prices, line, u, j);
        Reach { u, low }
    }
}

// What stands for an option: for null, or in the place of an item.
fn at(xs: &[u16; 64], i: u16, null: u16) -> u16
    requires { i ≤ 64 }
    ensures { result ≡ at_option null xs.now i }
{
    if i == 0 {
        return null;
    }
    xs[usize::from(i - 1)]
}

// ---- one bidder more

// Prices, and who holds each item.
#[derive(Drop)]
struct Outcome {
    prices: [u16; 64],
    own: [u16; 64],
}

// Where a search has ended: the distance of null, and the item from where it was reached, or 0; and the nearest option, which is free.
#[derive(Drop)]
struct Found {
    null: u16,
    last: u16,
    next: u16,
}

impl Paths {
    // The bidder at place k looks for an option: from the nearest item to the next, as long as somebody holds it. Null is always free.
    fn search(&mut self, outcome: &Outcome, bids: &[u16], items: usize, k: usize) -> Found
        requires { Ready items k bids.now outcome.now.prices outcome.now.own × Unsearched outcome.now.own self.old.dist self.old.via self.old.left }
        ensures { (amount outcome.now.own result.next ≡ 0)
            × Seeking items k bids.now outcome.now.prices outcome.now.own self.new.dist self.new.via self.new.left result.null result.last result.next }
    {
        let mut null: u16 = 4095;
        let mut last: u16 = 0;
        let low = self.relax(&outcome.prices, bids::row(bids, items, k as u16), 4095, 0);
        let mut next = self.nearest(items, low, null);
        let mut h = at(&outcome.own, next, 0);
        while h != 0 {
            let line = bids::row(bids, items, h - 1);
            let reach = self.enter(&outcome.prices, line, next);
            let nearer = prices::smaller(reach.u, null);
            last = if_same(nearer, null, last, next);
            null = nearer;
            next = self.nearest(items, reach.low, null);
            h = at(&outcome.own, next, 0);
        }
        Found { null, last, next }
    }
}

// All items are left. A held one has its number; a free one has 64 more, so that it comes before held ones that are as near.
fn numbers(own: &[u16; 64]) -> [u16; 64]
    ensures { AllLeft own.now result }
{
    array::from_fn(|x| if_same(own[x], 0, (x + 65) as u16, (x + 1) as u16))
}

// Each price goes up by as much as the level is above its distance.
fn raise(prices: &mut [u16; 64], dist: &[u16; 64], items: usize, level: u16)
    requires { (items ≤ 64) × (level ≤ 4095) × Small prices.old }
    ensures { Changed items (λ x. get_or prices.old x 0 + (level - get_or dist.now x 0)) prices.old prices.new }
{
    for i in 0..items {
        prices[i] += level.saturating_sub(dist[i]);
    }
}

// Each item on the way back from the first goes to who reached it: the holder of the next, and bidder k at the end.
fn shift(own: &mut [u16; 64], via: &[u16; 64], first: u16, k: u16)
    requires { Chained k own.old via.now first }
    ensures { (s : Chained k own.old via.now first) → Shifted s own.new }
{
    let mut x = first;
    while x != 0 {
        let place = usize::from(x - 1);
        let y = via[place];
        own[place] = at(own, y, k + 1);
        x = y;
    }
}

impl Outcome {
    // The bidder at place k is put in.
    fn put_in(&mut self, bids: &[u16], items: usize, k: usize)
        requires { Ready items k bids.now self.old.prices self.old.own }
        ensures { (r : Ready items k bids.now self.old.prices self.old.own) (on : ℕ → Bool) → Joins k r.on on
            → Put items bids.now on self.old.prices self.old.own self.new.prices self.new.own }
    {
        let mut paths = Paths::new(numbers(&self.own));
        let s = paths.search(self, bids, items, k);
        let level = at(&paths.dist, s.next, s.null);
        let first = if_same(s.next, 0, s.last, s.next);
        raise(&mut self.prices, &paths.dist, items, level);
        shift(&mut self.own, &paths.via, first, k as u16);
    }

    // The bidders who wait are put in, one after the other.
    fn put_all(&mut self, bids: &[u16], items: usize, bidders: usize, waiting: u64)
        requires { Standing items bidders bids.now (others bidders waiting) self.old.prices self.old.own }
        ensures { Put items bids.now (everyone bidders) self.old.prices self.old.own self.new.prices self.new.own }
    {
        for k in 0..bidders {
            if waiting.has(k + 1) {
                self.put_in(bids, items, k);
            }
        }
    }
}

// ---- the items put in over the bidders

// Line i of the transposed table: what is bid for item i + 1, bidder after bidder.
fn transpose_line(table: &mut [u16; 2048], bids: &[u16], items: usize, bidders: usize, i: usize)
    requires { Fit items bidders bids.now × (i < items) × Small table.old }
    ensures { TransposedTo items bidders bids.now i bidders table.old table.new }
{
    let start = i * bidders;
    for b in 0..bidders {
        table[start + b] = bids[b * items + i];
    }
}

// The transposed table of bids.
fn transposed(bids: &[u16], items: usize, bidders: usize) -> [u16; 2048]
    requires { Fit items bidders bids.now }
    ensures { Small result × Transposed items bidders bids.now items result }
{
    let mut table = [0u16; 2048];
    for i in 0..items {
        transpose_line(&mut table, bids, items, bidders, i);
    }
    table
}

impl Outcome {
    // The bidder at place b takes their option, if it is an item: its price is what their surplus leaves of their bid.
    fn give(&mut self, line: &[u16], option: u16, surplus: u16, b: usize)
        requires { (option ≤ length line.now) × (length line.now ≤ 64) × (b < 64) × (0 < option → surplus ≤ get_or line.now (option - 1) 0) }
        ensures { (option ≡ 0 → (self.new.prices ≡ self.old.prices) × (self.new.own ≡ self.old.own))
            × (0 < option → (self.new.prices ≡ set self.old.prices (option - 1) (get_or line.now (option - 1) 0 - surplus))
            × (self.new.own ≡ set self.old.own (option - 1) (b + 1))) }
    {
        if option == 0 {
            return;
        }
        let x = usize::from(option - 1);
        self.prices[x] = line[x] - surplus;
        self.own[x] = (b + 1) as u16;
    }

    // Every bidder takes their option. The other way round it is the bidders who have a price, their surplus, and are held by an item, their option.
    fn give_all(&mut self, reverse: &Outcome, bids: &[u16], items: usize, bidders: usize)
        requires { Options items bidders bids.now reverse.now.prices reverse.now.own × (self.old.prices ≡ replicate 64 0) × (self.old.own ≡ replicate 64 0) }
        ensures { Given items bids.now reverse.now.prices reverse.now.own bidders self.new.prices self.new.own }
    {
        for b in 0..bidders {
            let line = bids::row(bids, items, b as u16);
            self.give(line, reverse.own[b], reverse.prices[b], b);
        }
    }
}

const EVERYONE: u64 = u64::MAX;

// Prices that balance: the items are put in over the bidders, whose prices are then their surpluses.
fn balance(bids: &[u16], items: usize, bidders: usize) -> Outcome
    requires { Fit items bidders bids.now }
    ensures { Balanced items bidders bids.now (replicate 64 0) result.prices result.own }
{
    let table = transposed(bids, items, bidders);
    let mut reverse = Outcome {
        prices: [0; 64],
        own: [0; 64],
    };
    reverse.put_all(&table, bidders, items, EVERYONE);
    let mut outcome = Outcome {
        prices: [0; 64],
        own: [0; 64],
    };
    outcome.give_all(&reverse, bids, items, bidders);
    outcome
}

// ---- down to the least prices

// The bidders who hold an item.
fn seated(own: &[u16; 64], items: usize) -> u64
    requires { items ≤ 64 }
    ensures { Seated items own.now result }
{
    let mut seats: u64 = 0;
    for &holder in &own[..items] {
        seats = seats.with(usize::from(holder));
    }
    seats
}

// One more line of offers.
fn offer(best: &mut [u16; 64], line: &[u16])
    requires { length line.now ≤ 64 }
    ensures { Changed (length line.now) (λ x. max (get_or best.old x 0) (get_or line.now x 0)) best.old best.new }
{
    for (x, &bid) in line.iter().enumerate() {
        best[x] = best[x].max(bid);
    }
}

// What keeps the prices up from outside: the base, which is given, and the bids of those who hold nothing.
fn offers(best: &mut [u16; 64], seats: u64, bids: &[u16], items: usize, bidders: usize)
    requires { Table items bidders bids.now }
    ensures { Offered items bids.now seats bidders best.old best.new }
{
    for b in 0..bidders {
        if !seats.has(b + 1) {
            offer(best, bids::row(bids, items, b as u16));
        }
    }
}

// The items that are held are left.
// Stays: one function for this and `numbers` would take what gives a free item's number, and say no more in less.
fn held(own: &[u16; 64]) -> [u16; 64]
    ensures { HeldLeft own.now result }
{
    array::from_fn(|x| if_same(own[x], 0, 0, (x + 1) as u16))
}

impl Paths {
    // How far each price can fall: from what keeps it up outside, and along the holders, from the nearest item to the next, until none is left.
    fn descend(&mut self, outcome: &Outcome, best: &[u16], bids: &[u16], items: usize)
        requires { Descends items bids.now outcome.now.prices outcome.now.own best.now
            × (self.old.dist ≡ replicate 64 16384) × (self.old.via ≡ replicate 64 0) × HeldLeft outcome.now.own self.old.left }
        ensures { Descended items bids.now outcome.now.prices outcome.now.own best.now self.new.dist self.new.via }
    {
        let low = self.relax(&outcome.prices, best, 0, 0);
        let mut next = self.nearest(items, low, u16::MAX);
        while next != 0 {
            let h = at(&outcome.own, next, 0);
            let line = bids::row(bids, items, h - 1);
            let reach = self.enter(&outcome.prices, line, next);
            next = self.nearest(items, reach.low, u16::MAX);
        }
    }
}

// Each price goes down by its distance.
fn lower(prices: &mut [u16; 64], dist: &[u16; 64], items: usize)
    requires { items ≤ 64 }
    ensures { Changed items (λ x. get_or prices.old x 0 - get_or dist.now x 0) prices.old prices.new }
{
    for i in 0..items {
        prices[i] = prices[i].saturating_sub(dist[i]);
    }
}

impl Outcome {
    // Prices that balance above the base fall to the least that do.
    fn fall(&mut self, base: [u16; 64], bids: &[u16], items: usize, bidders: usize)
        requires { Balanced items bidders bids.now base self.old.prices self.old.own }
        ensures { Lowered items bidders bids.now base self.new.prices self.new.own }
    {
        let mut best = base;
        offers(&mut best, seated(&self.own, items), bids, items, bidders);
        let mut paths = Paths::new(held(&self.own));
        paths.descend(self, &best[..items], bids, items);
        lower(&mut self.prices, &paths.dist, items);
    }
}

// ---- the close and the turn

impl Outcome {
    // Where the start is above the price at place x, the price goes up to it, and who holds the item waits.
    fn lift(&mut self, start: u16, x: usize, waiting: u64) -> u64
        requires { x < 64 }
        ensures { (start ≤ get_or self.old.prices x 0 → (self.new.prices ≡ self.old.prices) × (self.new.own ≡ self.old.own) × (result ≡ waiting))
            × (get_or self.old.prices x 0 < start → (self.new.prices ≡ set self.old.prices x start) × (self.new.own ≡ set self.old.own x 0)
            × (result ≡ set_of 64 (λ k. has waiting k || eqb k (get_or self.old.own x 0)))) }
    {
        if start <= self.prices[x] {
            return waiting;
        }
        let holder = usize::from(self.own[x]);
        self.prices[x] = start;
        self.own[x] = 0;
        waiting.with(holder)
    }

    // Every price goes up to the start, where that is higher. Answers who waits then.
    fn lift_all(&mut self, start: &[u16; 32]) -> u64
        ensures { Lifted 32 start.now self.old.prices self.old.own self.new.prices self.new.own result }
    {
        let mut waiting: u64 = 0;
        for (x, &price) in start.iter().enumerate() {
            waiting = self.lift(price, x, waiting);
        }
        waiting
    }

    // From the least prices from some base up to the least from the start up: those whose item costs more at the start are put in again.
    fn rise(&mut self, start: &[u16; 32], bids: &[u16], items: usize, bidders: usize)
        requires { ((base : List ℕ) × From items bidders bids.now base self.old.prices self.old.own × Below base start.now) × Starts items start.now }
        ensures { From items bidders bids.now start.now self.new.prices self.new.own }
    {
        let waiting = self.lift_all(start);
        if waiting == 0 {
            return;
        }
        let base = self.prices;
        self.put_all(bids, items, bidders, waiting);
        self.fall(base, bids, items, bidders);
    }
}

// The first 32 places.
fn narrow(prices: &[u16; 64]) -> [u16; 32]
    ensures { result ≡ places 32 prices.now }
{
    array::from_fn(|x| prices[x])
}

// The closing prices, and the prices at the turn.
#[derive(Drop)]
pub struct Ends {
    pub close: [u16; 32],
    pub turn: [u16; 32],
}

fn nothing() -> Ends
    ensures { (result.close ≡ replicate 32 0) × (result.turn ≡ replicate 32 0) }
{
    Ends {
        close: [0; 32],
        turn: [0; 32],
    }
}

// The least prices at which no set is overdemanded: from the floors up the closing prices, from the start up those at the turn. Zeros, where the sheet is
// turned down.
pub fn close_and_turn(
    start: &[u16],
    floors: &[u16],
    bids: &[u16],
    items: usize,
    bidders: usize,
) -> Ends
    ensures least { sealed_above_refusal items bidders start.now floors.now bids.now ≡ 0
        → Least items (rows_of items bidders bids.now) floors.now result.close
        × Least items (rows_of items bidders bids.now) start.now result.turn }
    ensures refused { (sealed_above_refusal items bidders start.now floors.now bids.now ≡ 0 → ⊥)
        → (result.close ≡ replicate 32 0) × (result.turn ≡ replicate 32 0) }
{
    if bids::refusal_above(items, bidders, start, floors, bids) != 0 {
        return nothing();
    }
    let mut outcome = balance(bids, items, bidders);
    outcome.fall([0; 64], bids, items, bidders);
    outcome.rise(&prices::in_places(floors), bids, items, bidders);
    let close = narrow(&outcome.prices);
    outcome.rise(&prices::in_places(start), bids, items, bidders);
    Ends {
        close,
        turn: narrow(&outcome.prices),
    }
}
