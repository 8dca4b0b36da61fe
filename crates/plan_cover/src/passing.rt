// A plan tested by itself, without planning: all its tests, one after the other.
ghost use Rattle.std.specs.Prelude.{◌≡◌};
ghost use Rattle.plan_tests.specs.Tests.{tests_hold};

use crate::cover::cards_covered;
use counting::ones::Ones;
use plan_tests::links::{LinkedPlan, links_hold};
use plan_tests::order::{CrossedPlan, order_holds};
use plan_tests::zeros::{first_zero, spare_zero};
use rack::limits::MOST_LINKS;
use rack::views::Plan;

// Whether a plan passes its tests: its links, its columns, its zeros, and that every card covers all.
pub fn tests_hold(ones: &Ones, plan: Plan<'_>) -> bool
    ensures { result ≡ tests_hold plan.entry.bytes.now }
{
    if !links_hold(plan) {
        return false;
    }
    let linked = LinkedPlan { plan };
    let mut crossed = [0u8; MOST_LINKS];
    if !order_holds(ones, linked, &mut crossed) || !spare_zero(plan) || !first_zero(plan) {
        return false;
    }
    cards_covered(CrossedPlan {
        linked,
        crossed: &crossed,
    })
}
