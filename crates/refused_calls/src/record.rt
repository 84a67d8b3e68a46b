// The record before any opening.
use live::{Auction, Phase};

// Zeros only, rising: the record beside an opening that is turned down.
pub(crate) fn zeros() -> Auction {
    Auction {
        items: 0,
        bidders: 0,
        prices: [0; 32],
        floors: [0; 32],
        sets: [0; 64],
        nulls: 0,
        reported: 0,
        phase: Phase::Rising,
        raised: 0,
        lowered: 0,
    }
}
