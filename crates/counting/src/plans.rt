// A plan with the table of the ones in a byte: the differing places of two of its addresses, and the lowest column in which they differ.
ghost use Rattle.std.specs.Prelude.{◌<◌};
ghost use Rattle.rack.specs.Lists.{FoundBelow, differ, lowest};
ghost use Rattle.rack.specs.PlanFile.{plan_bit};

use crate::ones::Ones;
use crate::places::{bits_hamming, lowest_differing};
use rack::views::Plan;

// A plan, with the table to count by.
#[derive(Clone, Copy)]
pub struct CountedPlan<'a> {
    pub ones: &'a Ones,
    pub plan: Plan<'a>,
}

impl<'a> CountedPlan<'a> {
    ghost use Rattle.std.specs.Prelude.{◌≡◌, ◌<◌};
    ghost use Rattle.rack.specs.PlanFile.{plan_hamming};

    // The places in which the addresses of two cards differ.
    pub fn hamming(self, a: usize, b: usize) -> u32
        requires { (a < self.plan.cards) × (b < self.plan.cards) }
        ensures { result ≡ plan_hamming self.entry.plan.bytes.now a b }
    {
        let (x, y) = (self.plan.address(a), self.plan.address(b));
        bits_hamming(self.ones, x, y, self.plan.columns)
    }
}

// The lowest column in which the addresses of two cards differ; the table has no part in it.
pub fn lowest_column(plan: Plan<'_>, a: usize, b: usize) -> Option<usize>
    requires { (a < plan.cards) × (b < plan.cards) }
    ensures { FoundBelow plan.entry.columns (lowest plan.entry.columns (λ j. differ (plan_bit plan.entry.bytes.now a j) (plan_bit plan.entry.bytes.now b j))) result }
{
    lowest_differing(plan.address(a), plan.address(b), plan.columns)
}
