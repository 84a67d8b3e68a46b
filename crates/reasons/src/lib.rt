// The sheet of reasons: why each round of a bid sheet's path moved its set.
#![tactic(auto)]

ghost use Rattle.std.specs.Prelude.{◌≡◌, cond, ◌+◌, ◌*◌, ◌≤◌, leb, length, replicate};
ghost use Rattle.std.proofs.lemmas.List.Edits.{sets};
ghost use Rattle.rule.specs.Demand.{demands, surpluses};
ghost use Rattle.rule.specs.Excess.{above_floors};
ghost use Rattle.rule.specs.Round.{close};
ghost use Rattle.rule.specs.Reasons.{bidders_with, round_count};
ghost use Rattle.round.specs.Reports.{reports};
ghost use Rattle.lines.specs.Lines.{number_line, written_to};
ghost use Rattle.bids.specs.Lent.{rows_of, sheet_of};
ghost use Rattle.bids.specs.Refusal.{sealed_refusal};
ghost use Rattle.reasons.specs.Sheets.{reason_line, reason_sheet, fitting, answer_of};
ghost use Rattle.reasons.specs.Steps.{move_of, counts_for, moving_set, kind_of, ReasonIs, prices_after};

use sets::Set;

// ---- a round

// How a round moves its set: it raises it or, from the turn on, lowers it.
#[derive(Clone, Copy)]
enum Move {
    Rise,
    Fall,
}

impl Move {
    // The move of round k + 1: the first so many rounds raise.
    fn of_round(k: usize, raised: usize) -> Move
        ensures { result ≡ move_of (leb raised k) }
    {
        if raised <= k { Move::Fall } else { Move::Rise }
    }

    // Whether a demand counts: for a fall one that holds something in the set, for a rise one that holds nothing outside it.
    fn counts(self, items: u32, null: bool, set: u32) -> bool
        ensures { result ≡ counts_for self 32 set (record { null = null; items = items }) }
    {
        match self {
            Move::Rise => !null && items.but(set) == 0,
            Move::Fall => items.common(set) != 0,
        }
    }

    // The bidders whose demands count.
    fn who(self, sets: &[u32; 64], nulls: u64, bidders: usize, set: u32) -> u64
        requires { bidders ≤ 64 }
        ensures { result ≡ bidders_with (reports bidders sets.now nulls) (counts_for self 32 set) }
    {
        let mut g: u64 = 0;
        for (b, items) in sets[..bidders].iter().enumerate() {
            let counted = self.counts(*items, nulls.has(b + 1), set);
            g = round::add(g, b + 1, counted);
        }
        g
    }

    // The set that moves: of the demands the rising set, or the falling set.
    fn moving(self, sets: &[u32; 64], nulls: u64, above: u32) -> u32
        ensures { result ≡ moving_set self 32 above (reports 64 sets.now nulls) }
    {
        match self {
            Move::Rise => round::rising(sets, nulls),
            Move::Fall => round::falling(sets, above),
        }
    }

    // The kind's number, as a line has it: 1 raised, 2 lowered.
    fn kind(self) -> u32
        ensures { result ≡ kind_of self }
    {
        match self {
            Move::Rise => 1,
            Move::Fall => 2,
        }
    }

    // The prices after the round.
    fn moved(self, prices: &[u16; 32], set: u32) -> [u16; 32]
        ensures { result ≡ prices_after self prices.now set }
    {
        match self {
            Move::Rise => prices::raised(prices, set),
            Move::Fall => prices::lowered(prices, set),
        }
    }
}

// A round's kind, the set that moves, and the bidders whose demands count; and each bidder's highest surplus, which was found with the demands.
#[derive(Drop)]
struct Reason {
    kind: u32,
    items: u32,
    bidders: u64,
    surpluses: [u16; 64],
}

// The reason of the round at prices. A bid sheet has floors of 0.
fn reason_at(prices: &[u16; 32], bids: &[u16], items: usize, bidders: usize, step: Move) -> Reason
    requires { (items ≤ 32) × (bidders ≤ 64) × (length bids.now ≡ bidders * items) × (above_floors 32 (replicate 32 0) prices.now ≡ above_floors items (replicate 32 0) prices.now) }
    ensures { ReasonIs items (above_floors items (replicate 32 0) prices.now) (demands items (rows_of items bidders bids.now) prices.now) (surpluses items (rows_of items bidders bids.now) prices.now) step result }
{
    let d = demands::demands_at(prices, bids, items, bidders);
    let floors = [0u16; 32];
    let set = step.moving(&d.sets, d.nulls, round::above_floors(&floors, prices));
    Reason {
        kind: step.kind(),
        items: set,
        bidders: step.who(&d.sets, d.nulls, bidders, set),
        surpluses: d.surpluses,
    }
}

// ---- the sheet

// A round's line, from `at` on. The bidders are written in two halves.
fn put_line(out: &mut [u8], at: usize, number: u32, kind: u32, items: u32, bidders: u64)
    requires { at + 31 ≤ length out.old }
    ensures { out.new ≡ sets out.old at (reason_line number (record { kind = kind; items = items; bidders = bidders })) }
{
    digits::write_number(out, at, 4, number);
    digits::write_number(out, at + 4, 2, kind);
    digits::write_number(out, at + 6, 8, items);
    digits::write_number(out, at + 14, 8, (bidders / 4294967296) as u32);
    digits::write_number(out, at + 22, 8, (bidders % 4294967296) as u32);
    out[at + 30] = b'\n';
}

// The lines of all rounds, of which the first so many raise.
fn put_rounds(
    start: &[u16],
    bids: &[u16],
    items: usize,
    bidders: usize,
    raised: usize,
    rounds: usize,
    out: &mut [u8],
)
    requires { (sealed_refusal items bidders start.now bids.now ≡ 0) × (raised ≡ (close (sheet_of items bidders start.now bids.now)).ups)
        × (rounds ≡ round_count (sheet_of items bidders start.now bids.now)) × (31 * rounds ≤ length out.old) }
    ensures { out.new ≡ sets out.old 0 (reason_sheet (sheet_of items bidders start.now bids.now)) }
{
    let mut p = prices::in_places(start);
    for k in 0..rounds {
        let step = Move::of_round(k, raised);
        let r = reason_at(&p, bids, items, bidders, step);
        put_line(out, 31 * k, k as u32 + 1, r.kind, r.items, r.bidders);
        p = step.moved(&p, r.items);
    }
}

// The sheet of reasons of a sheet that no number turns down, at the front of `out`, and how many bytes that is; nothing where it does not fit. The
// sealed auction says how many rounds there are.
fn put_sheet(items: usize, bidders: usize, start: &[u16], bids: &[u16], out: &mut [u8]) -> usize
    requires { sealed_refusal items bidders start.now bids.now ≡ 0 }
    ensures { (result ≡ length (fitting (length out.old) (reason_sheet (sheet_of items bidders start.now bids.now))))
        × (out.new ≡ written_to out.old (fitting (length out.old) (reason_sheet (sheet_of items bidders start.now bids.now)))) }
{
    let c = auction::sealed(items, bidders, start, bids);
    let raised = c.raised as usize;
    let rounds = raised + c.lowered as usize;
    let long = 31 * rounds;
    if out.len() < long {
        return 0;
    }
    put_rounds(start, bids, items, bidders, raised, rounds, out);
    long
}

// The line of a number, at the front of `out`, and how many bytes that is; nothing where it does not fit.
fn put_number(why: u8, out: &mut [u8]) -> usize
    ensures { (result ≡ length (fitting (length out.old) (number_line why)))
        × (out.new ≡ written_to out.old (fitting (length out.old) (number_line why))) }
{
    if out.len() < 3 {
        return 0;
    }
    lines::write_refusal(out, why);
    3
}

// Answers a bid sheet at the front of `out`, by its sheet of reasons or by the line of the number that turns it down, and says how many bytes that
// is. Where the answer does not fit nothing is written; 253,890 bytes are room for every one.
pub fn answer(bytes: &[u8], out: &mut [u8]) -> usize
    ensures { (result ≡ length (answer_of bytes.now (length out.old)))
        × (out.new ≡ written_to out.old (answer_of bytes.now (length out.old))) }
{
    let s = sheet::bid_sheet(bytes);
    if 0 < s.refusal {
        return put_number(s.refusal, out);
    }
    let size = s.bidders * s.items;
    put_sheet(
        s.items,
        s.bidders,
        &s.start[..s.items],
        &s.bids[..size],
        out,
    )
}
