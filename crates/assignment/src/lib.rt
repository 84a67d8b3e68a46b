// The first assignment in order: bidder after bidder, the lowest item that the later bidders can complete, and null if there is none.
// The matching finds one complete assignment, and of it this crate uses only what it promises. Then each bidder in turn looks for the places from
// which what it has can be reached, takes the lowest of them that it demands, and the bidders on the way there move up.
#![tactic(auto)]

ghost use Rattle.std.specs.Prelude.{◌≡◌, true, false, ◌&&◌, ◌||◌, [], ◌∷◌, ◌++◌, ◌⊎◌, ℕ, ◌+◌, ◌-◌, ◌*◌, ◌≤◌, ◌<◌, length, get_or, set, replicate};
ghost use Rattle.sets.specs.Bit.{is_set, has, set_of, lowest};
ghost use Rattle.std.specs.Int.{from_bool};
ghost use Rattle.sets.specs.Lists.{places};
ghost use Rattle.rule.specs.Assignment.{assignment};
ghost use Rattle.round.specs.Reports.{reports};
ghost use Rattle.assignment.specs.Assigned.{assigned};
ghost use Rattle.assignment.specs.Choice.{next_option, Completes};
ghost use Rattle.assignment.specs.Search.{goes_on, Tree, Expanded, Moves, Start};
ghost use Rattle.assignment.specs.Turn.{Seat, Complete, Held, FirstOf, asks, Way};
ghost use Rattle.assignment.specs.Standing.{Grows, Pools, AtTurn, Chosen};

use sets::Set;
use std::array;

// The places of a set of items, and null if it is in too: null is place 0, item i is place i, and bit p stands for place p.
fn places_of(items: u32, null: bool) -> u64
    ensures { result ≡ items * 2 + from_bool null }
{
    u64::from(items) * 2 + u64::from(null)
}

// Each bidder's demand as a set of places.
fn demands(sets: &[u32; 64], nulls: u64) -> [u64; 64]
    ensures { (b p : ℕ) → b < 64 → is_set (get_or result b 0) p ≡ asks sets.now nulls b p }
{
    array::from_fn(|b| places_of(sets[b], nulls.has(b + 1)))
}

// The bidder, alone in a set, joins those who demand each of the items.
fn add_demand(who: &mut [u64; 33], items: u32, bidder: u64)
    ensures { (p c : ℕ) → p < 33
        → is_set (get_or who.new p 0) c ≡ is_set (get_or who.old p 0) c || (is_set bidder c && has items p) }
{
    let mut rest = items;
    while rest != 0 {
        let i = rest.lowest();
        who[i] |= bidder;
        rest = rest.without(i);
    }
}

// Stays: that there are at most 64 bidders is asked by each function that goes over the first n. It comes bare from the public call and goes
// bare into ranges and slices; a type for it would be opened at each of them.
// Who demands each place, of the first n bidders: bit b stands for bidder number b + 1.
fn wanted_by(sets: &[u32; 64], nulls: u64, n: usize) -> [u64; 33]
    requires { n ≤ 64 }
    ensures { (b p : ℕ) → b < n → p < 33 → is_set (get_or result p 0) b ≡ asks sets.now nulls b p }
{
    let mut who = [0u64; 33];
    who[0] = nulls;
    for b in 0..n {
        add_demand(&mut who, sets[b], u64::only(b + 1));
    }
    who
}

// What each bidder has in a match.
fn seats(holder: &[u8; 32]) -> [u8; 64]
    requires { (k : ℕ) → k < 32 → get_or holder.now k 0 ≤ 64 }
    ensures { (c : ℕ) → c < 64 → Seat 32 holder.now c (get_or result c 0) }
{
    let mut x = [0u8; 64];
    for (k, b) in holder.iter().enumerate() {
        give(&mut x, usize::from(*b), k + 1);
    }
    x
}

// Gives the place to bidder b; bidder 0 is nobody.
fn give(x: &mut [u8; 64], b: usize, p: usize)
    requires { (b ≤ 64) × (p ≤ 32) }
    ensures { (b ≡ 0 → x.new ≡ x.old) × (0 < b → x.new ≡ set x.old (b - 1) p) }
{
    if b == 0 {
        return;
    }
    x[b - 1] = p as u8;
}

// The places that the bidders from place k on have.
fn held(x: &[u8; 64], k: usize, n: usize) -> u64
    requires { (k ≤ n) × (n ≤ 64) × ((b : ℕ) → k ≤ b → b < n → get_or x.now b 0 < 33) }
    ensures { Held x.now k n result }
{
    let mut s: u64 = 0;
    for p in &x[k..n] {
        s = s.with(usize::from(*p) + 1);
    }
    s
}

// The lowest item of a set of places, and null if it has none.
fn first_item(s: u64) -> usize
    ensures { result ≡ lowest 63 (is_set s) }
{
    let p = s.without(1).lowest();
    if p == 0 {
        return 0;
    }
    p - 1
}

// Where the way goes on from q.
fn goes_on(spare: u64, q: usize) -> usize
    requires { q < 64 }
    ensures { result ≡ goes_on spare q }
{
    if spare.has(q + 1) {
        return 0;
    }
    q
}

// What is done, once the wish is seen: everything, for nothing better can be found.
fn settled(done: u64, seen: u64, wish: usize) -> u64
    requires { wish < 64 }
    ensures { (is_set seen wish ≡ true → result ≡ seen) × (is_set seen wish ≡ false → result ≡ done) }
{
    if seen.has(wish + 1) {
        return seen;
    }
    done
}

// The places that a search has seen. Of each it has the place to which the way goes on, and the time at which it was seen: 128 times the
// turn, and the number of the bidder who moves.
#[derive(Drop)]
struct Ways {
    next: [u8; 33],
    entered: [u16; 33],
    seen: u64,
}

impl Ways {
    // Stays: the bound of a place is asked of each step, as of an index. Places are made of trailing zeros and of lent bytes, each by its own proof.
    // Place p is seen, unless it is already: the way goes on from there to q, at time t.
    fn enter(&mut self, p: usize, q: usize, t: usize)
        requires { (p < 33) × (q < 33) × (t < 65536) }
        ensures { (is_set self.new.seen p ≡ true) × Grows q (λ o v. (o ≡ p) × (v ≡ t)) self.old self.new }
    {
        if self.seen.has(p + 1) {
            return;
        }
        self.next[p] = q as u8;
        self.entered[p] = t as u16;
        self.seen = self.seen.with(p + 1);
    }

    // The step of each mover: from what it has to q, which it demands.
    fn sweep(&mut self, x: &[u8; 64], q: usize, turn: usize, movers: u64)
        requires { (q < 33) × (turn ≤ 65) × ((b : ℕ) → is_set movers b ≡ true → get_or x.now b 0 < 33) }
        ensures { ((b : ℕ) → is_set movers b ≡ true → is_set self.new.seen (get_or x.now b 0) ≡ true)
            × Grows q (Moves x.now movers turn) self.old self.new }
    {
        let mut rest = movers;
        while rest != 0 {
            let b = rest.lowest();
            let p = usize::from(x[b - 1]);
            self.enter(p, q, 128 * turn + b);
            rest = rest.without(b);
        }
    }

    // The step of nobody: from null to q, if q may be left. With null the items that nobody has are seen.
    fn pool(&mut self, q: usize, unpriced: u64, spare: u64, turn: usize)
        requires { (q < 33) × (turn ≤ 65) }
        ensures { Pools q unpriced spare (128 * turn) self.old self.new }
    {
        if !unpriced.has(q + 1) {
            return;
        }
        self.enter(0, q, 128 * turn);
        self.seen |= spare;
    }

    // Bidder k takes place i, and the bidders on the way from there to what it leaves move up.
    fn shift(&self, x: &mut [u8; 64], spare: u64, i: usize, k: usize)
        requires { Way x.old self.now.next self.now.entered spare (get_or x.old k 0) i k }
        ensures { (s : Way x.old self.now.next self.now.entered spare (get_or x.old k 0) i k)
            → Completes s.n s.turn.sets s.turn.nulls s.above (s.turn.ys ++ (i ∷ [])) x.new }
    {
        let a = usize::from(x[k]);
        give(x, k + 1, i);
        let mut p = goes_on(spare, i);
        while p != a {
            let b = usize::from(self.entered[p]) % 128;
            let q = usize::from(self.next[p]);
            give(x, b, q);
            p = goes_on(spare, q);
        }
    }
}

// How things stand at the turn of bidder k of n: each bidder's demand as a set of places, who demands each place, the items of price above
// the floor, the places that are open, and the bidders after k.
#[derive(Drop)]
struct Standing {
    demands: [u64; 64],
    who: [u64; 33],
    above: u32,
    opens: u64,
    later: u64,
    k: usize,
    n: usize,
}

impl Standing {
    // The places from which what bidder k has can be reached, with a way from each: all of them, or so many that the wish is among them. Each
    // place is expanded once, and each later bidder takes at most one step.
    fn search(&self, x: &[u8; 64], unpriced: u64, spare: u64, wish: usize) -> Ways
        requires { Start self.now.who x.now spare self.now.later self.now.k × (wish < 64) }
        ensures { (s : Start self.now.who x.now spare self.now.later self.now.k)
            → ((is_set result.seen wish ≡ true) ⊎ Expanded s.w x.now unpriced spare self.now.k s.n result.seen result.seen)
            × Tree s.w x.now s.opens unpriced spare (get_or x.now self.now.k 0) self.now.k s.n result.next result.entered result.seen 65536 }
    {
        let a = usize::from(x[self.k]);
        let mut ways = Ways {
            next: [0; 33],
            entered: [0; 33],
            seen: u64::only(a + 1),
        };
        let mut done: u64 = 0;
        let mut left = self.later;
        let mut turn: usize = 1;
        while done != ways.seen {
            let q = ways.seen.but(done).lowest() - 1;
            ways.pool(q, unpriced, spare, turn);
            let movers = self.who[q].common(left);
            ways.sweep(x, q, turn, movers);
            left = left.but(movers);
            done = settled(done.with(q + 1), ways.seen, wish);
            turn += 1;
        }
        ways
    }

    // The next bidder's option, where its wish, the lowest open item that it demands, is another than the place that it has.
    fn better(&self, x: &mut [u8; 64], wish: usize) -> usize
        requires { AtTurn self.now x.old × FirstOf self.now.opens (get_or self.now.demands self.now.k 0) wish }
        ensures { Chosen self.now x.old result x.new }
    {
        let unpriced = self.opens.but(places_of(self.above, false));
        let spare = self.opens.but(held(x, self.k, self.n)).with(1);
        let ways = self.search(x, unpriced, spare, wish);
        let i = first_item(ways.seen.common(self.demands[self.k]));
        ways.shift(x, spare, i, self.k);
        i
    }

    // The next bidder's option: the lowest open item that it demands, if it has that, and else the lowest from which what it has can be reached.
    fn option(&self, x: &mut [u8; 64]) -> usize
        requires { AtTurn self.now x.old }
        ensures { Chosen self.now x.old result x.new }
    {
        let a = usize::from(x[self.k]);
        let wish = first_item(self.opens.common(self.demands[self.k]));
        if wish == a {
            return a;
        }
        self.better(x, wish)
    }
}

// Null and 32 items.
const PLACES: u64 = 0x1_ffff_ffff;

// The options of the bidders one after the other, from a complete assignment. An item that a bidder has is open no more; null always is.
fn options(sets: &[u32; 64], nulls: u64, above: u32, n: usize, start: [u8; 64]) -> [u8; 64]
    requires { (n ≤ 64) × Completes n sets.now nulls above [] start }
    ensures { result ≡ places 64 (assignment 32 above (reports n sets.now nulls)) }
{
    let mut at = Standing {
        demands: demands(sets, nulls),
        who: wanted_by(sets, nulls, n),
        above,
        opens: PLACES,
        later: u64::first(n),
        k: 0,
        n,
    };
    let mut x = start;
    let mut out = [0u8; 64];
    for b in 0..n {
        at.k = b;
        at.later = at.later.without(b + 1);
        let i = at.option(&mut x);
        out[b] = i as u8;
        at.opens = at.opens.without(i + 1).with(1);
    }
    out
}

// The item sets of the first n bidders, and the empty set for the others.
fn reported(sets: &[u32; 64], n: usize) -> [u32; 64]
    requires { n ≤ 64 }
    ensures { ((b : ℕ) → b < n → get_or result b 0 ≡ get_or sets.now b 0) × ((b : ℕ) → n ≤ b → get_or result b 0 ≡ 0) }
{
    let mut own = [0u32; 64];
    own[..n].copy_from_slice(&sets[..n]);
    own
}

// A complete assignment, by the match that it is, if there is one: those who do not say null must be placed, and the items of `above` held.
fn complete(sets: &[u32; 64], nulls: u64, above: u32, n: usize) -> matching::Coverage
    requires { n ≤ 64 }
    ensures { Complete n sets.now nulls above result.found result.holder }
{
    let own = reported(sets, n);
    let must = u64::first(n).but(nulls);
    matching::cover(&own, must, above)
}

// The first assignment in order of the reports of 1 to 64 bidders, `above` being the items of price above the floor: each bidder's item, or 0 for
// null. Where no assignment fits, and for more than 64 bidders, zeros.
pub fn first(sets: &[u32; 64], nulls: u64, above: u32, bidders: usize) -> [u8; 64]
    ensures { result ≡ assigned sets.now nulls above bidders }
{
    if 64 < bidders {
        return [0; 64];
    }
    let c = complete(sets, nulls, above, bidders);
    if !c.found {
        return [0; 64];
    }
    options(sets, nulls, above, bidders, seats(&c.holder))
}
