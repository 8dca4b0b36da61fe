// The sum of hops over all pairs of cards of a plan, by its columns, and one card's part of it; reading with that sum. Definitions in
// specs/, laws in proofs/.
#![tactic(auto)]

ghost use Rattle.std.specs.Prelude.{◌≡◌, ◌<◌, IfOk};
ghost use Rattle.rack.specs.PlanFile.{plan_bit, plan_cards, plan_wiring};
ghost use Rattle.reader.specs.ReadPlans.{plan_of};
ghost use Rattle.reader.specs.Reading.{sizes_of};
ghost use Rattle.totals.specs.Totals.{bit_products, hops_to, ones_of, total_hops};
ghost use Rattle.plan_totals.specs.Summed.{ReadWithTotalSays, SummedSays, summed_of};

use counting::ones::ones_table;
use counting::plans::CountedPlan;
use rack::refused::Refused;
use rack::views::Plan;
use reader::read::read_plan;
use reader::views::ReadPlan;

// A plan that was read, and the sum of its hops.
#[derive(Clone, Copy, Debug, PartialEq, Eq)]
pub struct Summed<'a> {
    pub read: ReadPlan<'a>,
    pub total: u32,
}

// The cards whose address has a one in column `j`.
fn column_ones(plan: Plan<'_>, j: usize) -> u32
    requires { j < plan.columns }
    ensures { result ≡ ones_of (plan_bit plan.entry.bytes.now) plan.entry.cards j }
{
    let mut ones = 0;
    for c in 0..plan.cards {
        ones += u32::from(plan.bit(c, j));
    }
    ones
}

// The sum over the columns of ones times zeros.
fn products(plan: Plan<'_>) -> u32
    ensures { result ≡ bit_products (plan_bit plan.entry.bytes.now) plan.entry.cards plan.entry.columns }
{
    let mut sum = 0;
    for j in 0..plan.columns {
        let ones = column_ones(plan, j);
        sum += ones * (plan.cards as u32 - ones);
    }
    sum
}

// The sum of hops over all pairs of cards of a plan that was read.
pub fn plan_total(read: ReadPlan<'_>) -> u32
    ensures { result ≡ total_hops (plan_wiring read.entry.plan.bytes.now) }
{
    products(read.plan)
}

// The hops from a card to all cards of a plan that was read.
pub fn hops_from(read: ReadPlan<'_>, card: usize) -> u32
    requires { card < read.plan.cards }
    ensures { result ≡ hops_to (plan_wiring read.entry.plan.bytes.now) (plan_cards read.entry.plan.bytes.now) card }
{
    let plan = read.plan;
    let ones = ones_table();
    let counted = CountedPlan { ones: &ones, plan };
    let mut sum = 0;
    for c in 0..plan.cards {
        sum += counted.hamming(card, c);
    }
    sum
}

// Reads a plan that comes with a sum of hops: 12, 13, or the plan with its sizes.
pub fn read_with_total(plan: &[u8], total: u32) -> Result<ReadPlan<'_>, Refused>
    ensures says { ReadWithTotalSays plan.now total (sizes_of (plan_of result)) }
    ensures bytes { IfOk result (λ r. r.plan.bytes ≡ plan.entry) }
{
    let read = read_plan(plan)?;
    let sum = plan_total(read);
    if total != sum {
        return Err(Refused::Content);
    }
    Ok(read)
}

// Reads a plan and sums its hops: 12, 13, or the plan with its sizes and the sum.
pub fn read_summed(plan: &[u8]) -> Result<Summed<'_>, Refused>
    ensures says { SummedSays plan.now (summed_of result) }
    ensures bytes { IfOk result (λ s. s.read.plan.bytes ≡ plan.entry) }
{
    let read = read_plan(plan)?;
    Ok(Summed {
        read,
        total: plan_total(read),
    })
}
