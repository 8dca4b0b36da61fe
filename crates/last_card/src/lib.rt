// A card more at the end of one cable, and the last card taken off: from a plan's bytes and the sum of its hops to the bytes that the planner
// would write and their sum, with no second planning. Definitions in specs/, laws in proofs/.
#![tactic(auto)]

ghost use Rattle.last_card.specs.Calls.{AddSays, TakeOffSays, summed_plan_of};

use plan_changer::{add_sized, take_off_sized};
use plan_totals::{hops_from, read_with_total};
use rack::limits::LENT_PLAN;
use rack::refused::Refused;

// The length of the new plan and the sum of its hops.
#[derive(Clone, Copy, Debug, PartialEq, Eq)]
pub struct SummedPlan {
    pub length: u32,
    pub total: u32,
}

// Writes the plan with card n on a new last link from `card`: 1, 12, 13, 14, 16. The sum rises by n and by the card's hops to all cards.
pub fn add_card(
    plan: &[u8],
    total: u32,
    card: u32,
    output: &mut [u8],
) -> Result<SummedPlan, Refused>
    ensures { AddSays plan.now total card (summed_plan_of result) output.old output.new }
{
    let Some(output) = output.as_mut_array::<LENT_PLAN>() else {
        return Err(Refused::Lent);
    };
    let read = read_with_total(plan, total)?;
    let length = add_sized(Ok(read.plan), card, output)?;
    Ok(SummedPlan {
        length: length as u32,
        total: total + read.plan.cards as u32 + hops_from(read, card as usize),
    })
}

// Writes the plan without its last card, where that card's one link is the last link: 1, 12, 13, 17. The sum falls by the card's hops to
// all cards.
pub fn take_card_off(plan: &[u8], total: u32, output: &mut [u8]) -> Result<SummedPlan, Refused>
    ensures { TakeOffSays plan.now total (summed_plan_of result) output.old output.new }
{
    let Some(output) = output.as_mut_array::<LENT_PLAN>() else {
        return Err(Refused::Lent);
    };
    let read = read_with_total(plan, total)?;
    let length = take_off_sized(Ok(read.plan), output)?;
    Ok(SummedPlan {
        length: length as u32,
        total: total - hops_from(read, read.plan.cards - 1),
    })
}
