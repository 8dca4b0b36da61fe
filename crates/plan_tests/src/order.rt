// The order of the columns: each link crosses one, and the columns are opened by their lowest links.
ghost use Rattle.std.specs.Prelude.{◌≡◌, true, ◌<◌};
ghost use Rattle.rack.specs.Lists.{FoundBelow};
ghost use Rattle.rack.specs.PlanFile.{plan_bit, plan_wiring};
ghost use Rattle.plan_tests.specs.Tests.{columns_in_order};
ghost use Rattle.plan_tests.specs.Crossed.{CrossedColumns, only_apart};

use crate::links::LinkedPlan;
use counting::ones::Ones;
use counting::plans::{CountedPlan, lowest_column};
use rack::limits::MOST_LINKS;

// A linked plan whose links open the columns in their order, with the column that each link crosses; a caller lends the two apart.
#[derive(Clone, Copy, Debug, PartialEq, Eq)]
pub struct CrossedPlan<'a, 'b> {
    pub linked: LinkedPlan<'a>,
    pub crossed: &'b [u8; MOST_LINKS],
    pub ghost ordered: { columns_in_order linked.plan.columns (plan_bit linked.plan.bytes.now) 0 (plan_wiring linked.plan.bytes.now).links ≡ true },
    pub ghost columns: { CrossedColumns linked.plan.columns (plan_bit linked.plan.bytes.now) (plan_wiring linked.plan.bytes.now) crossed.now linked.plan.links },
}

// The column in which the addresses of two cards differ, where it is the only one.
fn only_column(counted: CountedPlan<'_>, p: usize, q: usize) -> Option<usize>
    requires { (p < counted.plan.cards) × (q < counted.plan.cards) }
    ensures { FoundBelow counted.entry.plan.columns (only_apart counted.entry.plan.columns (plan_bit counted.entry.plan.bytes.now p) (plan_bit counted.entry.plan.bytes.now q)) result }
{
    if counted.hamming(p, q) != 1 {
        return None;
    }
    lowest_column(counted.plan, p, q)
}

// Whether the links open the columns in their order. If they do, `crossed` has the column that each crosses. The buffer is lent, so that a caller
// says where it stands; who goes on makes a `CrossedPlan` of it.
pub fn order_holds(ones: &Ones, linked: LinkedPlan<'_>, crossed: &mut [u8; MOST_LINKS]) -> bool
    ensures is { result ≡ columns_in_order linked.entry.plan.columns (plan_bit linked.entry.plan.bytes.now) 0 (plan_wiring linked.entry.plan.bytes.now).links }
    ensures crossed { result ≡ true → CrossedColumns linked.entry.plan.columns (plan_bit linked.entry.plan.bytes.now) (plan_wiring linked.entry.plan.bytes.now) crossed.new linked.entry.plan.links }
{
    let plan = linked.plan;
    let counted = CountedPlan { ones, plan };
    let mut opened = 0;
    for i in 0..plan.links {
        let (p, q) = plan.ends(i);
        let Some(j) = only_column(counted, p, q) else {
            return false;
        };
        if opened < j {
            return false;
        }
        if j == opened {
            opened += 1;
        }
        crossed[i] = j as u8;
    }
    opened == plan.columns
}
