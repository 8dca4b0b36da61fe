// Differing places of two addresses in a plan's own bytes, with the lowest column that differs.
ghost use Rattle.std.specs.Prelude.{◌<◌};
ghost use Rattle.crossing.specs.Crossing.{DifferingColumn, PlacesAre, column_of, places_of};

use counting::plans::{CountedPlan, lowest_column};
use rack::views::Plan;

// How many columns differ, and the lowest of them.
#[derive(Clone, Copy, Debug, PartialEq, Eq)]
pub struct Places {
    pub count: u32,
    pub first: Option<u32>,
}

// The lowest column in which the addresses of two cards differ.
pub fn first_column(plan: Plan<'_>, a: usize, b: usize) -> Option<u32>
    requires { (a < plan.cards) × (b < plan.cards) }
    ensures { DifferingColumn plan.entry.bytes.now a b (column_of result) }
{
    let j = lowest_column(plan, a, b)?;
    Some(j as u32)
}

// The places in which the addresses of two cards differ.
pub fn plan_places(counted: CountedPlan<'_>, a: usize, b: usize) -> Places
    requires { (a < counted.plan.cards) × (b < counted.plan.cards) }
    ensures { PlacesAre counted.entry.plan.bytes.now a b (places_of result) }
{
    Places {
        count: counted.hamming(a, b),
        first: first_column(counted.plan, a, b),
    }
}
