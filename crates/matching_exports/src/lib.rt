// The matching's two public functions on lent demands. `matching_exports_c` exports them for Rust or C to link, as the benchmark does.
#![tactic(auto)]

ghost use Rattle.std.specs.Prelude.{◌≡◌, ℕ};
ghost use Rattle.matching.specs.Demand.{largest_excess, Covered};

// The largest set in excess demand.
pub fn matching_excess_demand(demand: &[u32; 64]) -> u32
    ensures { result ≡ largest_excess 32 64 demand.now }
{
    matching::excess_demand(demand)
}

// Whether some match places each of the bidders and gives out each of the items.
pub fn matching_covers(demand: &[u32; 64], bidders: u64, items: u32) -> bool
    ensures { (h : ℕ → ℕ) × Covered 32 64 demand.now bidders items result h }
{
    matching::cover(demand, bidders, items).found
}
