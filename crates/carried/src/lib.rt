// An opened plan, its bytes with their three sizes and the sum of their hops, and the calls on it: each is the call of a layer below on these
// bytes, or on none of them where the sizes are not those in the bytes. Those that test 13 test the sum of hops too.
#![tactic(auto)]

use callers::{CallerWalk, walk_by_caller};
use conference::conference_sized;
use crossing::{FrameStep, step_frame};
use last_card::{SummedPlan, add_card, take_card_off};
use plan_totals::read_with_total;
use rack::refused::Refused;
use reader::layout::plan_layout;
use reader::read::address_in;
use reader::views::ReadPlan;
use traffic::Traffic;

// The fields may have any values: no call trusts them, and steps and walks do not look at the sum.
#[derive(Clone, Copy, Debug, PartialEq, Eq)]
pub struct Opened<'a> {
    pub bytes: &'a [u8],
    pub cards: u32,
    pub links: u32,
    pub columns: u32,
    pub total: u32,
}

impl<'a> Opened<'a> {
    ghost use Rattle.std.specs.Prelude.{◌≡◌, IfOk, OnOk};
    ghost use Rattle.rack.specs.Buffers.{SliceIs};
    ghost use Rattle.rack.specs.Refused.{number_of};
    ghost use Rattle.reader.specs.ReadPlans.{plan_of};
    ghost use Rattle.reader.specs.Reading.{sizes_of};
    ghost use Rattle.crossing.specs.Crossing.{FrameStepSays, frame_step_of};
    ghost use Rattle.conference.specs.Conference.{CardOrNone, conference_of};
    ghost use Rattle.last_card.specs.Calls.{AddSays, TakeOffSays, summed_plan_of};
    ghost use Rattle.callers.specs.Walking.{caller_walk_of};
    ghost use Rattle.carried.specs.Carried.{AddressSaysWith, ConferenceSaysWith, ReadWithPromise, WalkWithArrival, address_refusal_with, carries, seen};

    // Whether the bytes have a plan's layout, with these sizes in them.
    fn carries(self) -> bool
        ensures { result ≡ carries self.entry.bytes.now self.entry.cards self.entry.links self.entry.columns }
    {
        // A match and no `is_ok_and`: over a closure of three tests the goal of the return stayed open.
        match plan_layout(self.bytes) {
            Ok(plan) => {
                self.cards as usize == plan.cards
                    && self.links as usize == plan.links
                    && self.columns as usize == plan.columns
            }
            Err(_) => false,
        }
    }

    // What a call sees: the bytes themselves, or none of them where the sizes are not those in them. No `Err`, since 1 comes before 12 in three
    // of its calls.
    fn seen(self) -> &'a [u8]
        ensures { SliceIs self.entry.bytes.ref_ptr (seen self.entry) result }
    {
        if self.carries() {
            self.bytes
        } else {
            &self.bytes[0..0]
        }
    }

    // Reads the plan: 12, 13, or the plan with its sizes.
    pub fn read(self) -> Result<ReadPlan<'a>, Refused>
        ensures says { ReadWithPromise (seen self.entry) self.entry.total (sizes_of (plan_of result)) }
        ensures bytes { IfOk result (λ r. SliceIs self.entry.bytes.ref_ptr (seen self.entry) r.plan.bytes) }
    {
        read_with_total(self.seen(), self.total)
    }

    // A card's address, as that part of the plan's own bytes: 12, 13, 14. The plan is read once, and the part cut out.
    pub fn address(self, card: u32) -> Result<&'a [u8], Refused>
        ensures part { IfOk result (AddressSaysWith (seen self.entry) self.entry.total self.entry.bytes.ref_ptr card) }
        ensures refusal { number_of result ≡ address_refusal_with (seen self.entry) self.entry.total card }
    {
        address_in(self.read()?.plan, card)
    }

    // A step of a frame, with the column that it crosses: 12, 14.
    pub fn step(self, from: u32, goal: u32) -> Result<FrameStep, Refused>
        ensures { FrameStepSays (seen self.entry) from goal (frame_step_of result) }
    {
        step_frame(self.seen(), from, goal)
    }

    // A walk by caller, with the first column that it crosses: 1, 12, 18, 14, 15. The counts go in and come back; only the caller's are raised,
    // and stuck is an answer that changes none. What holds of a frame on a plan that was read each call of a walk says itself, from forwarder's
    // to C's: frame, counts and answer are its own, and one record over all of them would be no plainer.
    pub fn walk(
        self,
        from: u32,
        goal: u32,
        caller: u32,
        traffic: Traffic,
        met: &mut [u16],
    ) -> Result<CallerWalk, Refused>
        ensures { WalkWithArrival (seen self.entry) from goal caller traffic (caller_walk_of traffic result) met.old met.new }
    {
        walk_by_caller(self.seen(), from, goal, caller, traffic, met)
    }

    // The card that is on a shortest path between each two of three cards, or none: 12, 13, 14.
    pub fn conference(self, a: u32, b: u32, c: u32) -> Result<Option<u32>, Refused>
        ensures says { ConferenceSaysWith (seen self.entry) self.entry.total a b c (conference_of result) }
        ensures promise { OnOk result (CardOrNone (seen self.entry) a b c (conference_of result)) }
    {
        conference_sized(self.read(), a, b, c)
    }

    // Writes the plan with card n on a new last link from `card`, and gives its length and its sum of hops: 1, 12, 13, 14, 16.
    pub fn add_card(self, card: u32, output: &mut [u8]) -> Result<SummedPlan, Refused>
        ensures { AddSays (seen self.entry) self.entry.total card (summed_plan_of result) output.old output.new }
    {
        add_card(self.seen(), self.total, card, output)
    }

    // Writes the plan without its last card, where that card's one link is the last link, and gives its length and its sum of hops:
    // 1, 12, 13, 17.
    pub fn take_card_off(self, output: &mut [u8]) -> Result<SummedPlan, Refused>
        ensures { TakeOffSays (seen self.entry) self.entry.total (summed_plan_of result) output.old output.new }
    {
        take_card_off(self.seen(), self.total, output)
    }
}
