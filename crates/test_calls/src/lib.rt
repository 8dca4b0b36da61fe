// Calls for the tests alone, over calls that the C calls do not show whole. `test_NAME` takes the arguments of NAME in their order, a
// struct by its fields; it returns the refusal's number and puts the answer's other fields, in their order, into just as many lent
// numbers. It is 1, and touches nothing, where they are not as many. A part of lent bytes goes into a lent slice, which shows where it stands.
#![tactic(auto)]

ghost use Rattle.std.specs.Prelude.{◌≡◌};
ghost use Rattle.planner.specs.Planning.{PlanSays};
ghost use Rattle.reader.specs.Reading.{AddressSays, address_refusal};
ghost use Rattle.crossing.specs.Crossing.{FrameStepSays, FrameWalkSays};
ghost use Rattle.conference.specs.Conference.{ConferenceSays};
ghost use Rattle.plan_totals.specs.Summed.{SummedSays};
ghost use Rattle.last_card.specs.Calls.{AddSays, TakeOffSays};
ghost use Rattle.listing_text.specs.Listing.{ListingSays};
ghost use Rattle.test_calls.specs.Answers.{Answered, PlacesSay, answer_in, conference_in, counts, frame_step_in, frame_walk_in, summed_in, summed_plan_in};

use answers::{
    put_answer, put_conference, put_part, put_places, put_refused, put_step, put_summed,
    put_summed_plan, put_walk,
};
use conference::conference_card;
use counting::ones::ones_table;
use counting::plans::CountedPlan;
use crossing::places::plan_places;
use crossing::{step_frame, walk_frame};
use forwarder::step::frame_plan;
use forwarder::walk::Tally;
use last_card::{add_card, take_card_off};
use listing_text::listing_text;
use plan_totals::read_summed;
use planner::plan_rack;
use reader::read::card_address;

mod answers;
pub mod by_caller;
pub mod carrying;
pub mod opening;

// Planning: 1 to 11. The fields are the link or card, and the columns.
pub fn test_plan_rack(file: &[u8], words: &mut [u64], hops: &mut [u8], answer: &mut [u32]) -> u32
    ensures { Answered 2 result answer.old answer.new ((words.new ≡ words.old) × (hops.new ≡ hops.old)) (PlanSays file.now (answer_in result answer.new) words.old words.new hops.old hops.new) }
{
    let Some(answer) = answer.as_mut_array::<2>() else {
        return 1;
    };
    put_answer(plan_rack(file, words, hops), answer)
}

// The listing: 1. The fields are 0, and its length.
pub fn test_listing_text(file: &[u8], text: &mut [u8], answer: &mut [u32]) -> u32
    ensures { Answered 2 result answer.old answer.new (text.new ≡ text.old) (ListingSays file.now (answer_in result answer.new) text.old text.new) }
{
    let Some(answer) = answer.as_mut_array::<2>() else {
        return 1;
    };
    put_answer(listing_text(file, text), answer)
}

// A card's address: 12, 13, 14.
pub fn test_card_address<'a>(plan: &'a [u8], card: u32, part: &mut &'a [u8]) -> u32
    ensures number { result ≡ address_refusal plan.now card }
    ensures part { AddressSays plan.now plan.entry.ref_ptr card part.new }
{
    put_part(card_address(plan, card), plan, part)
}

// The differing places of two cards of a plan, whose sizes and table are made here: 1, 12, 14. The fields are their number, 1 for a column
// or 0 for none, and the lowest column; zeros with a refusal.
pub fn test_plan_places(plan: &[u8], a: u32, b: u32, answer: &mut [u32]) -> u32
    ensures { Answered 3 result answer.old answer.new Unit (PlacesSay plan.now a b result answer.new) }
{
    let Some(answer) = answer.as_mut_array::<3>() else {
        return 1;
    };
    match frame_plan(plan, a, b) {
        Ok(sized) => {
            let ones = ones_table();
            let counted = CountedPlan {
                ones: &ones,
                plan: sized,
            };
            put_places(plan_places(counted, a as usize, b as usize), answer);
            0
        }
        Err(refused) => put_refused(refused, answer),
    }
}

// A step: 1, 12, 14. The fields are its outcome, the link and the far card, 1 for a column or 0 for none, and the column.
pub fn test_step_frame(plan: &[u8], from: u32, goal: u32, answer: &mut [u32]) -> u32
    ensures { Answered 5 result answer.old answer.new Unit (FrameStepSays plan.now from goal (frame_step_in result answer.new)) }
{
    let Some(answer) = answer.as_mut_array::<5>() else {
        return 1;
    };
    put_step(step_frame(plan, from, goal), answer)
}

// A walk: 1, 12, 14, 15. The fields are 1 for arrived or 0 for stuck, the hops, the two counts, 1 for a column or 0 for none,
// and the column.
pub fn test_walk_frame(
    plan: &[u8],
    from: u32,
    goal: u32,
    frames: u32,
    hops: u32,
    met: &mut [u16],
    answer: &mut [u32],
) -> u32
    ensures { Answered 6 result answer.old answer.new (met.new ≡ met.old) (FrameWalkSays plan.now from goal (counts frames hops) (frame_walk_in result answer.new) met.old met.new) }
{
    let Some(answer) = answer.as_mut_array::<6>() else {
        return 1;
    };
    let tally = Tally { frames, hops };
    put_walk(walk_frame(plan, from, goal, tally, met), tally, answer)
}

// A conference card: 1, 12, 13, 14. The fields are 1 for a card or 0 for none, and the card.
pub fn test_conference_card(plan: &[u8], a: u32, b: u32, c: u32, answer: &mut [u32]) -> u32
    ensures { Answered 2 result answer.old answer.new Unit (ConferenceSays plan.now a b c (conference_in result answer.new)) }
{
    let Some(answer) = answer.as_mut_array::<2>() else {
        return 1;
    };
    put_conference(conference_card(plan, a, b, c), answer)
}

// Reading with the sum of hops: 1, 12, 13. The fields are the three sizes and the sum.
pub fn test_read_summed(plan: &[u8], answer: &mut [u32]) -> u32
    ensures { Answered 4 result answer.old answer.new Unit (SummedSays plan.now (summed_in result answer.new)) }
{
    let Some(answer) = answer.as_mut_array::<4>() else {
        return 1;
    };
    put_summed(read_summed(plan), answer)
}

// A card more: 1, 12, 13, 14, 16. The fields are the new plan's length and its sum.
pub fn test_add_card(
    plan: &[u8],
    total: u32,
    card: u32,
    output: &mut [u8],
    answer: &mut [u32],
) -> u32
    ensures { Answered 2 result answer.old answer.new (output.new ≡ output.old) (AddSays plan.now total card (summed_plan_in result answer.new) output.old output.new) }
{
    let Some(answer) = answer.as_mut_array::<2>() else {
        return 1;
    };
    put_summed_plan(add_card(plan, total, card, output), answer)
}

// The last card taken off: 1, 12, 13, 17. The fields are the new plan's length and its sum.
pub fn test_take_card_off(plan: &[u8], total: u32, output: &mut [u8], answer: &mut [u32]) -> u32
    ensures { Answered 2 result answer.old answer.new (output.new ≡ output.old) (TakeOffSays plan.now total (summed_plan_in result answer.new) output.old output.new) }
{
    let Some(answer) = answer.as_mut_array::<2>() else {
        return 1;
    };
    put_summed_plan(take_card_off(plan, total, output), answer)
}
