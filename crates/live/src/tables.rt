// The tables that the caller lends beside the record, 1,089 numbers for each bidder: filled, asked and narrowed one bidder after the other by `differences`.
ghost use Rattle.std.specs.Prelude.{◌≡◌, true, false, not, ◌*◌, ◌≤◌, ◌<◌, length};
ghost use Rattle.rule.specs.Refusal.{most_live_bidders};
ghost use Rattle.reports.specs.Report.{saying, unfit};
ghost use Rattle.live.specs.Auction.{well_formed};
ghost use Rattle.live.specs.Tables.{bad_tables, tables_fit, open_tables, unexplained_at, any_unexplained, narrowed_tables};
ghost use Rattle.live.specs.Tidy.{Fit};

use crate::{Auction, Complete};
use sets::Set;

// every bidder's table is the opening's
pub(crate) fn fill_all(tables: &mut [i16], bidders: usize, items: usize)
    requires { (length tables.old ≡ bidders * 1089) × (bidders ≤ most_live_bidders) × (items ≤ 32) }
    ensures { tables.new ≡ open_tables items bidders }
{
    for k in 0..bidders {
        let a = k * 1089;
        differences::fill(&mut tables[a..a + 1089], items);
    }
}

impl Auction {
    // not 11: every bidder's table fits
    pub(crate) fn tables_fit(self, tables: &[i16]) -> bool
        requires { (well_formed self ≡ true) × (bad_tables self.bidders tables.now ≡ false) }
        ensures { result ≡ tables_fit self tables.now }
    {
        for k in 0..self.bidders {
            let a = k * 1089;
            if !differences::fits(&tables[a..a + 1089], self.items) {
                return false;
            }
        }
        true
    }

    // not 19: some bids that meet the table of place k explain this report
    pub(crate) fn is_explained(self, k: usize, null: bool, set: u32, tables: &[i16]) -> bool
        requires { (Fit self tables.now) × (k < self.bidders) × (unfit self.items (saying null set) ≡ false) }
        ensures { result ≡ not (unexplained_at self tables.now k (saying null set)) }
    {
        let a = k * 1089;
        differences::explains(&tables[a..a + 1089], self.items, &self.prices, null, set)
    }
}

// Stays: `Fit` speaks of a record and of the tables that are lent with it, which `narrow_all` changes, so that no one value can hold it.
impl Complete {
    // not 19: so it is of every bidder's report
    pub(crate) fn all_explained(self, tables: &[i16]) -> bool
        requires { Fit self.auction tables.now }
        ensures { result ≡ not (any_unexplained self.auction tables.now) }
    {
        let auction = self.auction;
        for k in 0..auction.bidders {
            let null = auction.nulls.has(k + 1);
            if !auction.is_explained(k, null, auction.sets[k], tables) {
                return false;
            }
        }
        true
    }

    // each bidder's table is narrowed to the bids that explain the report
    pub(crate) fn narrow_all(self, tables: &mut [i16])
        requires { (Fit self.auction tables.old) × (any_unexplained self.auction tables.old ≡ false) }
        ensures { tables.new ≡ narrowed_tables self.auction tables.old }
    {
        for k in 0..self.auction.bidders {
            let null = self.auction.nulls.has(k + 1);
            let a = k * 1089;
            let table = &mut tables[a..a + 1089];
            differences::narrow(
                table,
                self.auction.items,
                &self.auction.prices,
                null,
                self.auction.sets[k],
            );
        }
    }
}
