// Every public call once more, by a caller that is named after it: what it answers, and what it leaves in each list that is lent to it. A contract below that says
// less, or that asks anything of its caller, no longer proves these. None of them has a `requires`: every call ends, whatever it is given.
#![tactic(auto)]

mod below; // below.rt: the matching, rounds, reports, prices and sets, which stand below the calls
mod live_calls; // live_calls.rt: the live letting, and its console
mod sealed; // sealed.rt: sealed letting, in numbers
mod sheets; // sheets.rt: bid sheets, closing sheets and sheets of reasons, lines and digits
mod table; // table.rt: one raker's table
