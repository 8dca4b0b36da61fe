// Steps and walks with the column that they cross. Definitions in specs/, a link's column in proofs/.
#![tactic(auto)]

ghost use Rattle.rack.specs.Hops.{hops};
ghost use Rattle.rack.specs.PlanFile.{plan_wiring};
ghost use Rattle.forwarder.specs.Calls.{Arrived, CanTake, Frame, Full};
ghost use Rattle.crossing.specs.Crossing.{FrameStepSays, FrameWalkSays, frame_step_of, frame_walk_of};

use forwarder::step::{Step, step_checked};
use forwarder::walk::{Tally, Walked, walk_counted};
use places::first_column;
use rack::refused::Refused;
use reader::layout::plan_layout;

pub mod places;

// A step, and the column that it crosses.
#[derive(Clone, Copy, Debug, PartialEq, Eq)]
pub struct FrameStep {
    pub step: Step,
    pub crossed: Option<u32>,
}

// A walk, and the first column that it crosses.
#[derive(Clone, Copy, Debug, PartialEq, Eq)]
pub struct FrameWalk {
    pub walked: Walked,
    pub crossed: Option<u32>,
}

// A step of a frame: 12, 14. It crosses the lowest column in which the far card's address differs from that of `from`.
pub fn step_frame(plan: &[u8], from: u32, goal: u32) -> Result<FrameStep, Refused>
    ensures { FrameStepSays plan.now from goal (frame_step_of result) }
{
    let step = step_checked(plan, from, goal)?;
    let crossed = match step {
        Step::Over { far, .. } => {
            // A step does not hand back the plan with its sizes, so they are read once more.
            let sized = plan_layout(plan)?;
            first_column(sized, from as usize, far as usize)
        }
        Step::Stuck => None,
        Step::Arrived => None,
    };
    Ok(FrameStep { step, crossed })
}

// A frame's walk: 1, 12, 14, 15. The counts go in and come back; stuck is an answer and changes neither. The first column that it crosses
// lies between the first two cards met.
pub fn walk_frame(
    plan: &[u8],
    from: u32,
    goal: u32,
    tally: Tally,
    met: &mut [u16],
) -> Result<FrameWalk, Refused>
    ensures says { FrameWalkSays plan.now from goal tally (frame_walk_of tally result) met.old met.new }
    ensures arrives { Frame plan.now from goal met.old → CanTake tally (hops (plan_wiring plan.now) from goal) → Arrived plan.now from goal tally (frame_walk_of tally result).walked met.new }
    ensures full { Frame plan.now from goal met.old → (CanTake tally (hops (plan_wiring plan.now) from goal) → ⊥) → Full tally (frame_walk_of tally result).walked met.old met.new }
{
    let walked = walk_counted(plan, from, goal, tally, met)?;
    if walked.hops == 0 {
        return Ok(FrameWalk {
            walked,
            crossed: None,
        });
    }
    // A walk does not hand back the plan with its sizes, so they are read once more.
    let sized = plan_layout(plan)?;
    let crossed = first_column(sized, from as usize, usize::from(met[1]));
    Ok(FrameWalk { walked, crossed })
}
