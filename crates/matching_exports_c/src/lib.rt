// The functions of `matching_exports` for Rust or C to link, as the benchmark does: the same names, arguments and clauses.
#![tactic(auto)]

ghost use Rattle.std.specs.Prelude.{◌≡◌, ℕ};
ghost use Rattle.matching.specs.Demand.{largest_excess, Covered};

// The largest set in excess demand.
#[unsafe(no_mangle)]
pub extern "C" fn matching_excess_demand(demand: &[u32; 64]) -> u32
    ensures { result ≡ largest_excess 32 64 demand.now }
{
    matching_exports::matching_excess_demand(demand)
}

// Whether some match places each of the bidders and gives out each of the items.
#[unsafe(no_mangle)]
pub extern "C" fn matching_covers(demand: &[u32; 64], bidders: u64, items: u32) -> bool
    ensures { (h : ℕ → ℕ) × Covered 32 64 demand.now bidders items result h }
{
    matching_exports::matching_covers(demand, bidders, items)
}
