// What the live auction asks of the reports of a round (document 01: the live letting): which report 8 refuses, whether every place holds
// what it may, and whether a report is missing. Any counts are taken, and any number of places.
#![tactic(auto)]

ghost use Rattle.std.specs.Prelude.{◌≡◌, ◌&&◌, suc, leb};
ghost use Rattle.sets.specs.Count.{any_below};
ghost use Rattle.sets.specs.Bit.{has};
ghost use Rattle.reports.specs.Report.{saying, is_empty, unfit};
ghost use Rattle.reports.specs.Places.{place_fits, all_fit, any_missing};

use sets::Set;

// the report says no, and its set is empty
fn is_empty(null: bool, set: u32) -> bool
    ensures { result ≡ is_empty (saying null set) }
{
    !null && set == 0
}

// the set holds an item beyond the count
fn holds_beyond(items: usize, set: u32) -> bool
    ensures { result ≡ any_below 32 (λ k. leb items k && has set (suc k)) }
{
    set.but(u32::first(items)) != 0
}

// number 8 refuses the report
pub fn refuses(items: usize, null: bool, set: u32) -> bool
    ensures { result ≡ unfit items (saying null set) }
{
    is_empty(null, set) || holds_beyond(items, set)
}

// the place of bidder b holds what it may
fn place_fits(items: usize, bidders: usize, b: usize, reported: bool, null: bool, set: u32) -> bool
    ensures { result ≡ place_fits items bidders b reported (saying null set) }
{
    if !reported {
        return is_empty(null, set);
    }
    b <= bidders && !refuses(items, null, set)
}

// every place holds what it may
pub fn all_fit(items: usize, bidders: usize, sets: &[u32], nulls: u64, reported: u64) -> bool
    ensures { result ≡ all_fit items bidders sets.now nulls reported }
{
    for (k, set) in sets.iter().enumerate() {
        let b = k + 1;
        let has = reported.has(b);
        let null = nulls.has(b);
        if !place_fits(items, bidders, b, has, null, *set) {
            return false;
        }
    }
    true
}

// a report is missing: of the bidders, fewer have reported than there are
pub fn misses(bidders: usize, reported: u64) -> bool
    ensures { result ≡ any_missing bidders reported }
{
    let here = reported.common(u64::first(bidders));
    (sets::bidder_count(here) as usize) < bidders
}
