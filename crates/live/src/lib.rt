// The live auction (document 01: the live letting): the record, and what a call on it hands back.
#![tactic(auto)]

mod tables; // tables.rt: the lent tables of all bidders
mod well_formed; // well_formed.rt: number 11

ghost use Rattle.std.specs.Prelude.{◌≡◌, true, not, cond, ◌≤◌, ◌<◌};
ghost use Rattle.sets.specs.Lists.{places};
ghost use Rattle.rule.specs.Round.{raised, lowered, closed};
ghost use Rattle.lines.specs.Lines.{written_to};
ghost use Rattle.reports.specs.Report.{saying};
ghost use Rattle.live.specs.Auction.{prices_fit, items_above, rising_set, falling_set};
ghost use Rattle.live.specs.Calls.{zeros, unopened, open_number, open_above_number, opened, open_auction, open_above, filled_by, cleared, with_report, is_closed, report_number, report, clear_number, clear, at_top, settled, ending_of, end_answer, end_next, end_tables};
ghost use Rattle.live.specs.declared.Phase.TheVariants.{Rising, Falling};
ghost use Rattle.live.specs.declared.Kind.TheVariants.{Raised, Lowered};
ghost use Rattle.live.specs.declared.Ended.TheVariants.{Moved, Refused};
ghost use Rattle.live.specs.declared.Ended.TheVariants.{Closed as Closes};
ghost use Rattle.live.specs.Reading.{too_few, names_of, sheet_of, read_number, read_bytes};
ghost use Rattle.live.specs.Tidy.{Tidy, Ready, fit_number, ready_number, round_answer, round_next, is_move};
ghost use Rattle.live.specs.Refusals.{refusal_number, number_of};

use sets::Set;

// the most bidders of a live auction, as the rule has them (document 02, #108)
pub const MOST_BIDDERS: usize = 40;

// document 01: rising, falling, closed
#[derive(Clone, Copy, Debug, PartialEq, Eq)]
pub enum Phase {
    Rising,
    Falling,
    Closed,
}

// the kind of a move: raised or lowered
#[derive(Clone, Copy, Debug, PartialEq, Eq)]
pub enum Kind {
    Raised,
    Lowered,
}

// what ending a round gives: moved, with the kind of move and its items; closed; or turned down, with its number
#[derive(Clone, Copy, Debug, PartialEq, Eq)]
pub enum Ended {
    Moved(Kind, u32),
    Closed,
    Refused(u8),
}

// the record: items, bidders, prices, floors, reports (an item set each, and the set of the bidders who say null), which bidders
// have reported, the phase, and the counts of raising and lowering rounds
#[derive(Clone, Copy, Debug, PartialEq, Eq)]
pub struct Auction {
    pub items: usize,
    pub bidders: usize,
    pub prices: [u16; 32],
    pub floors: [u16; 32],
    pub sets: [u32; 64],
    pub nulls: u64,
    pub reported: u64,
    pub phase: Phase,
    pub raised: u32,
    pub lowered: u32,
}

// opening, report and clear: the number that turned the call down, or 0, beside the next record
// Stays: zeros or the record beside a number are what the interface promises (edits open_not_zeros, refusal_changes).
#[derive(Clone, Copy, Debug, PartialEq, Eq)]
pub struct Reply {
    pub number: u8,
    pub next: Auction,
}

// ending a round: its answer beside the next record
#[derive(Clone, Copy, Debug, PartialEq, Eq)]
pub struct Step {
    pub ended: Ended,
    pub next: Auction,
}

// why a call is turned down, in the order of document 01's numbers
#[derive(Clone, Copy)]
enum Refusal {
    ItemCount,
    BidderCount,
    Length,
    StartingPrice,
    Bidder,
    Report,
    Record,
    AfterClose,
    Reported,
    Missing,
    BeforeClose,
    Rise,
    Ceiling,
    Floor,
    Unexplained,
}

// the number of a refusal
impl From<Refusal> for u8 {
    ghost from_gives = { λ refusal number. number ≡ refusal_number refusal };

    fn from(refusal: Refusal) -> u8 {
        match refusal {
            Refusal::ItemCount => 1,
            Refusal::BidderCount => 2,
            Refusal::Length => 3,
            Refusal::StartingPrice => 4,
            Refusal::Bidder => 7,
            Refusal::Report => 8,
            Refusal::Record => 11,
            Refusal::AfterClose => 12,
            Refusal::Reported => 13,
            Refusal::Missing => 14,
            Refusal::BeforeClose => 15,
            Refusal::Rise => 16,
            Refusal::Ceiling => 17,
            Refusal::Floor => 18,
            Refusal::Unexplained => 19,
        }
    }
}

impl Ended {
    // the round moved
    fn is_move(self) -> bool
        ensures { result ≡ is_move (ending_of self) }
    {
        matches!(self, Ended::Moved(..))
    }
}

// zeros only, the phase rising: the record beside an opening that is turned down
fn zeros() -> Auction
    ensures { result ≡ zeros }
{
    Auction {
        items: 0,
        bidders: 0,
        prices: [0; 32],
        floors: [0; 32],
        sets: [0; 64],
        nulls: 0,
        reported: 0,
        phase: Phase::Rising,
        raised: 0,
        lowered: 0,
    }
}

// an opening that is turned down
fn refused(refusal: Refusal) -> Reply
    ensures { result ≡ unopened (refusal_number refusal) }
{
    Reply {
        number: refusal.into(),
        next: zeros(),
    }
}

// whether an opening with floors is turned down: 1, 2, 3 (starting prices, floors, tables), 4, 18
fn check_open(
    items: usize,
    bidders: usize,
    start: &[u16],
    floors: &[u16],
    tables: &[i16],
) -> Result<(), Refusal>
    ensures { number_of result ≡ open_above_number items bidders start.now floors.now tables.now }
{
    if sets::outside(32, items) {
        return Err(Refusal::ItemCount);
    }
    if sets::outside(MOST_BIDDERS, bidders) {
        return Err(Refusal::BidderCount);
    }
    if start.len() != items {
        return Err(Refusal::Length);
    }
    if floors.len() != items {
        return Err(Refusal::Length);
    }
    if tables.len() != bidders * 1089 {
        return Err(Refusal::Length);
    }
    if prices::any_over(start) {
        return Err(Refusal::StartingPrice);
    }
    // no starting price is above 4,095 here, so a floor above 4,095 is above its starting price: one test for both halves of 18
    if prices::any_under(start, floors) {
        return Err(Refusal::Floor);
    }
    Ok(())
}

// the record that an opening makes
fn opened(items: usize, bidders: usize, start: &[u16], floors: &[u16]) -> Auction
    ensures { result ≡ opened items bidders start.now floors.now }
{
    Auction {
        items,
        bidders,
        prices: prices::in_places(start),
        floors: prices::in_places(floors),
        ..zeros()
    }
}

// opens a live auction with floors, and fills the tables for all bids of 0 to 4,095: 1, 2, 3 (starting prices, floors, tables), 4, 18
pub fn open_above(
    items: usize,
    bidders: usize,
    start: &[u16],
    floors: &[u16],
    tables: &mut [i16],
) -> Reply
    ensures { (result ≡ open_above items bidders start.now floors.now tables.old) × (tables.new ≡ filled_by (open_above_number items bidders start.now floors.now tables.old) items bidders tables.old) }
{
    match check_open(items, bidders, start, floors, tables) {
        Ok(()) => {
            tables::fill_all(tables, bidders, items);
            Reply {
                number: 0,
                next: opened(items, bidders, start, floors),
            }
        }
        Err(refusal) => refused(refusal),
    }
}

// opens a live auction without floors, which is one with floors of 0: 1, 2, 3 (starting prices, tables), 4
pub fn open(items: usize, bidders: usize, start: &[u16], tables: &mut [i16]) -> Reply
    ensures { (result ≡ open_auction items bidders start.now tables.old) × (tables.new ≡ filled_by (open_number items bidders start.now tables.old) items bidders tables.old) }
{
    if 32 < items {
        return refused(Refusal::ItemCount);
    }
    let floors = [0u16; 32];
    open_above(items, bidders, start, &floors[..items], tables)
}

// a record whose counts are in range and whose unused places and bits are zero: its reports are those of so many bidders on so many items
#[derive(Clone, Copy)]
struct Tidied {
    auction: Auction,
    ghost tidy: { Tidy auction },
}

impl Tidied {
    // ---- what the reports give

    // the rising set
    fn rising_set(self) -> u32
        ensures { result ≡ rising_set self.auction }
    {
        round::rising(&self.auction.sets, self.auction.nulls)
    }

    // the items of price above the floor
    fn items_above(self) -> u32
        ensures { result ≡ items_above self.auction }
    {
        round::above_floors(&self.auction.floors, &self.auction.prices)
    }

    // the falling set
    fn falling_set(self) -> u32
        ensures { result ≡ falling_set self.auction }
    {
        round::falling(&self.auction.sets, self.items_above())
    }

    // the names at the close, and zeros past the last bidder
    fn names(self) -> [u8; 64]
        ensures { result ≡ places 64 (names_of self.auction) }
    {
        assignment::first(
            &self.auction.sets,
            self.auction.nulls,
            self.items_above(),
            self.auction.bidders,
        )
    }

    // writes the closing sheet's three lines to the front of the bytes, unless they are too few
    fn written(self, out: &mut [u8]) -> bool
        ensures { (result ≡ not (too_few self.auction out.old)) × (out.new ≡ cond (too_few self.auction out.old) out.old (written_to out.old (sheet_of self.auction))) }
    {
        lines::write_closing(
            out,
            self.auction.items,
            self.auction.bidders,
            self.auction.raised,
            self.auction.lowered,
            &self.auction.prices,
            &self.names(),
        )
    }
}

// a record whose round can be looked for: well formed, not closed, and no report missing
#[derive(Clone, Copy)]
struct Complete {
    auction: Auction,
    ghost ready: { Ready auction },
}

impl Complete {
    // ---- the round

    // the rising set is empty: the falling set goes down, or the auction closes
    fn ended_low(self) -> Step
        requires { rising_set self.auction ≡ 0 }
        ensures { (ending_of result.ended ≡ round_answer self.auction) × (result.next ≡ round_next self.auction) }
    {
        let falling = self.auction.tidied().falling_set();
        if falling == 0 {
            return self.auction.closed();
        }
        self.auction.lowered_by(falling)
    }

    // while rising: 17 where an item of the rising set cannot go up
    fn ended_rising(self, set: u32) -> Step
        requires { (self.auction.phase ≡ Rising) × (set ≡ rising_set self.auction) }
        ensures { (ending_of result.ended ≡ round_answer self.auction) × (result.next ≡ round_next self.auction) }
    {
        if set == 0 {
            return self.ended_low();
        }
        if self.auction.at_top(set) {
            return self.auction.stopped(Refusal::Ceiling);
        }
        self.auction.raised_by(set)
    }

    // while falling: 16 where the rising set is not empty
    fn ended_falling(self, set: u32) -> Step
        requires { (self.auction.phase ≡ Falling) × (set ≡ rising_set self.auction) }
        ensures { (ending_of result.ended ≡ round_answer self.auction) × (result.next ≡ round_next self.auction) }
    {
        if set != 0 {
            return self.auction.stopped(Refusal::Rise);
        }
        self.ended_low()
    }

    // the round that the reports give: 16 or 17
    fn ended(self) -> Step
        ensures { (ending_of result.ended ≡ round_answer self.auction) × (result.next ≡ round_next self.auction) }
    {
        let set = self.auction.tidied().rising_set();
        match self.auction.phase {
            Phase::Rising => self.ended_rising(set),
            Phase::Falling => self.ended_falling(set),
            Phase::Closed => unreachable!(),
        }
    }
}

impl Auction {
    // the record as one whose unused places and bits are zero
    fn tidied(self) -> Tidied
        requires { Tidy self }
        ensures { result.auction ≡ self }
    {
        Tidied { auction: self }
    }

    // the record as one whose round can be looked for
    fn completed(self) -> Complete
        requires { Ready self }
        ensures { result.auction ≡ self }
    {
        Complete { auction: self }
    }

    // the phase is closed
    fn is_closed(self) -> bool
        ensures { result ≡ is_closed self.phase }
    {
        self.phase == Phase::Closed
    }

    // ---- report and clear

    // whether a clear is turned down: 11, 12
    fn check_clear(self) -> Result<(), Refusal>
        ensures { number_of result ≡ clear_number self }
    {
        if !self.well_formed() {
            return Err(Refusal::Record);
        }
        if self.is_closed() {
            return Err(Refusal::AfterClose);
        }
        Ok(())
    }

    // whether record and tables are turned down before anything is asked of them: 11, 3, 11
    fn check_fit(self, tables: &[i16]) -> Result<(), Refusal>
        ensures { number_of result ≡ fit_number self tables.now }
    {
        if !self.well_formed() {
            return Err(Refusal::Record);
        }
        if tables.len() != self.bidders * 1089 {
            return Err(Refusal::Length);
        }
        if !self.tables_fit(tables) {
            return Err(Refusal::Record);
        }
        Ok(())
    }

    // whether a report is turned down: 11, 3, 11, 12, 7, 13, 8, 19
    fn check_report(
        self,
        bidder: usize,
        null: bool,
        set: u32,
        tables: &[i16],
    ) -> Result<(), Refusal>
        ensures { number_of result ≡ report_number self tables.now bidder (saying null set) }
    {
        self.check_fit(tables)?;
        if self.is_closed() {
            return Err(Refusal::AfterClose);
        }
        if sets::outside(self.bidders, bidder) {
            return Err(Refusal::Bidder);
        }
        if self.reported.has(bidder) {
            return Err(Refusal::Reported);
        }
        if reports::refuses(self.items, null, set) {
            return Err(Refusal::Report);
        }
        if !self.is_explained(bidder - 1, null, set, tables) {
            return Err(Refusal::Unexplained);
        }
        Ok(())
    }

    // a call that is turned down hands the record back as it came
    fn kept(self, refusal: Refusal) -> Reply
        ensures { result ≡ record { number = refusal_number refusal; next = self } }
    {
        let number = refusal.into();
        Reply { number, next: self }
    }

    // the report takes its bidder's place, and the bidder has reported
    fn with_report(mut self, bidder: usize, null: bool, set: u32) -> Auction
        requires { (1 ≤ bidder) × (bidder ≤ 64) }
        ensures { result ≡ with_report self bidder (saying null set) }
    {
        self.sets[bidder - 1] = set;
        self.nulls = round::add(self.nulls, bidder, null);
        self.reported = self.reported.with(bidder);
        self
    }

    // no reports
    fn cleared(self) -> Auction
        ensures { result ≡ cleared self }
    {
        Auction {
            sets: [0; 64],
            nulls: 0,
            reported: 0,
            ..self
        }
    }

    // a bidder's report, which changes no table: 11, 3, 11, 12, 7, 13, 8, 19
    pub fn report(self, bidder: usize, null: bool, set: u32, tables: &[i16]) -> Reply
        ensures { result ≡ report self tables.now bidder (saying null set) }
    {
        match self.check_report(bidder, null, set, tables) {
            Ok(()) => Reply {
                number: 0,
                next: self.with_report(bidder, null, set),
            },
            Err(refusal) => self.kept(refusal),
        }
    }

    // clears the round's reports: 11, 12
    pub fn clear(self) -> Reply
        ensures { result ≡ clear self }
    {
        match self.check_clear() {
            Ok(()) => Reply {
                number: 0,
                next: self.cleared(),
            },
            Err(refusal) => self.kept(refusal),
        }
    }

    // ---- end the round

    // Stays: that there are at most 32 items is asked here and while number 11 is looked for (well_formed.rt), when more is not yet known of the record.
    // of the items of the set one stands at 4,095
    fn at_top(self, set: u32) -> bool
        requires { self.items ≤ 32 }
        ensures { result ≡ at_top self.items self.prices set }
    {
        for k in 0..self.items {
            if set.has(k + 1) && self.prices[k] == 4095 {
                return true;
            }
        }
        false
    }

    // an end that is turned down hands the record back as it came
    fn stopped(self, refusal: Refusal) -> Step
        ensures { result ≡ record { ended = Refused (refusal_number refusal); next = self } }
    {
        Step {
            ended: Ended::Refused(refusal.into()),
            next: self,
        }
    }

    // the set goes up by 1
    fn raised_by(self, set: u32) -> Step
        requires { (prices_fit self ≡ true) × (self.raised < 4294967295) }
        ensures { result ≡ record { ended = Moved Raised set; next = settled self (raised set) } }
    {
        Step {
            ended: Ended::Moved(Kind::Raised, set),
            next: Auction {
                prices: prices::raised(&self.prices, set),
                phase: Phase::Rising,
                raised: self.raised + 1,
                ..self.cleared()
            },
        }
    }

    // the set goes down by 1
    fn lowered_by(self, set: u32) -> Step
        requires { self.lowered < 4294967295 }
        ensures { result ≡ record { ended = Moved Lowered set; next = settled self (lowered set) } }
    {
        Step {
            ended: Ended::Moved(Kind::Lowered, set),
            next: Auction {
                prices: prices::lowered(&self.prices, set),
                phase: Phase::Falling,
                lowered: self.lowered + 1,
                ..self.cleared()
            },
        }
    }

    // both sets are empty: the reports stay
    fn closed(self) -> Step
        ensures { result ≡ record { ended = Closes; next = settled self closed } }
    {
        Step {
            ended: Ended::Closed,
            next: Auction {
                phase: Phase::Closed,
                ..self
            },
        }
    }

    // whether an end is turned down before its round is looked for: 11, 3, 11, 12, 14, 19
    fn check_ready(self, tables: &[i16]) -> Result<(), Refusal>
        ensures { number_of result ≡ ready_number self tables.now }
    {
        self.check_fit(tables)?;
        if self.is_closed() {
            return Err(Refusal::AfterClose);
        }
        if reports::misses(self.bidders, self.reported) {
            return Err(Refusal::Missing);
        }
        if !self.completed().all_explained(tables) {
            return Err(Refusal::Unexplained);
        }
        Ok(())
    }

    // ends the round, and narrows the tables where it moves: 11, 3, 11, 12, 14, 19, then 16 or 17
    pub fn end(self, tables: &mut [i16]) -> Step
        ensures { (ending_of result.ended ≡ end_answer self tables.old) × (result.next ≡ end_next self tables.old) × (tables.new ≡ end_tables self tables.old) }
    {
        match self.check_ready(tables) {
            Ok(()) => {
                let complete = self.completed();
                let step = complete.ended();
                if step.ended.is_move() {
                    complete.narrow_all(tables);
                }
                step
            }
            Err(refusal) => self.stopped(refusal),
        }
    }

    // ---- read the close

    // reads the close, unless the record or the bytes turn it down: 11, 15, 3
    fn read_close(self, out: &mut [u8]) -> Result<(), Refusal>
        ensures { (number_of result ≡ read_number self out.old) × (out.new ≡ read_bytes self out.old) }
    {
        if !self.well_formed() {
            return Err(Refusal::Record);
        }
        if !self.is_closed() {
            return Err(Refusal::BeforeClose);
        }
        if !self.tidied().written(out) {
            return Err(Refusal::Length);
        }
        Ok(())
    }

    // reads the close, three lines: 11, 15, 3
    pub fn read(self, out: &mut [u8]) -> u8
        ensures { (result ≡ read_number self out.old) × (out.new ≡ read_bytes self out.old) }
    {
        match self.read_close(out) {
            Ok(()) => 0,
            Err(refusal) => refusal.into(),
        }
    }
}
