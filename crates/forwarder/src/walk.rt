// A walk: steps until the frame has arrived or is stuck, and the traffic counts.
ghost use Rattle.std.specs.Prelude.{◌≡◌, ◌<◌, replicate};
ghost use Rattle.rack.specs.Hops.{hops};
ghost use Rattle.rack.specs.Lists.{one};
ghost use Rattle.rack.specs.PlanFile.{plan_wiring};
ghost use Rattle.forwarder.specs.Forwarding.{walk};
ghost use Rattle.forwarder.specs.Calls.{Arrived, CanTake, Frame, Full, WalkSays, lent_met, walked_of};
ghost use Rattle.forwarder.specs.Parts.{Counted, RouteIs};

use crate::step::{Step, frame_plan, step_between};
use counting::ones::ones_table;
use counting::plans::CountedPlan;
use rack::limits::MOST_TRAFFIC;
use rack::refused::Refused;

// The length of the lent numbers, one for each card.
pub const LENT_MET: usize = 256;

// Frames that arrived, and their hops.
#[derive(Clone, Copy, Debug, PartialEq, Eq)]
pub struct Tally {
    pub frames: u32,
    pub hops: u32,
}

// Whether a walk arrived or is stuck, its hops, and the counts handed back.
#[derive(Clone, Copy, Debug, PartialEq, Eq)]
pub struct Walked {
    pub arrived: bool,
    pub hops: u32,
    pub tally: Tally,
}

// Whether a walk arrived or is stuck, and its hops.
#[derive(Clone, Copy)]
struct Route {
    arrived: bool,
    hops: u32,
}

// Walks from card `a` to card `b`, until a step says that it is over, and writes the cards met, the first one first, into numbers that are zero
// at entry: its one caller declares them so, and a fill would make them zero twice.
fn walk_between(counted: CountedPlan<'_>, a: usize, b: usize, met: &mut [u16; LENT_MET]) -> Route
    requires { (a < counted.plan.cards) × (b < counted.plan.cards) × (met.old ≡ replicate lent_met 0) }
    ensures { RouteIs (walk counted.entry.plan.bytes.now a b) result met.new }
{
    met[0] = a as u16;
    let mut taken = 0;
    let mut next = step_between(counted, a, b);
    while let Step::Over { far, .. } = next {
        taken += 1;
        met[taken] = far as u16;
        next = step_between(counted, far as usize, b);
    }
    Route {
        arrived: next == Step::Arrived,
        hops: taken as u32,
    }
}

// A walk's answer: the counts raised where it arrived, or 15.
fn counted(tally: Tally, route: Route) -> Result<Walked, Refused>
    ensures { Counted tally (one route.arrived) route.hops (walked_of tally result) }
{
    let Route { arrived, hops } = route;
    if !arrived {
        return Ok(Walked {
            arrived,
            hops,
            tally,
        });
    }
    if tally.frames == MOST_TRAFFIC || MOST_TRAFFIC - tally.hops < hops {
        return Err(Refused::Full);
    }
    let raised = Tally {
        frames: tally.frames + 1,
        hops: tally.hops + hops,
    };
    Ok(Walked {
        arrived,
        hops,
        tally: raised,
    })
}

// A frame's walk: 1, 12, 14, 15. The counts go in and come back; stuck is an answer and changes neither.
pub fn walk_counted(
    plan: &[u8],
    from: u32,
    goal: u32,
    tally: Tally,
    met: &mut [u16],
) -> Result<Walked, Refused>
    ensures says { WalkSays plan.now from goal tally (walked_of tally result) met.old met.new }
    ensures arrives { Frame plan.now from goal met.old → CanTake tally (hops (plan_wiring plan.now) from goal) → Arrived plan.now from goal tally (walked_of tally result) met.new }
    ensures full { Frame plan.now from goal met.old → (CanTake tally (hops (plan_wiring plan.now) from goal) → ⊥) → Full tally (walked_of tally result) met.old met.new }
{
    let Some(met) = met.as_mut_array::<LENT_MET>() else {
        return Err(Refused::Lent);
    };
    let sized = frame_plan(plan, from, goal)?;
    let ones = ones_table();
    let with_table = CountedPlan {
        ones: &ones,
        plan: sized,
    };
    let mut cards = [0; LENT_MET];
    let route = walk_between(with_table, from as usize, goal as usize, &mut cards);
    let walked = counted(tally, route)?;
    *met = cards;
    Ok(walked)
}
