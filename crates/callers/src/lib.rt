// Walks by caller: each raises the counts of the caller that it names. By numbers, and of a lent frame.
#![tactic(auto)]

ghost use Rattle.callers.specs.Walking.{CallerArrived, CallerCanTake, CallerFrame, CallerFull, CallerWalkSays, caller_walk_of};
ghost use Rattle.callers.specs.Walking.{LentArrived, LentCanTake, LentFrame, LentWalkSays};

use crossing::walk_frame;
use forwarder::walk::LENT_MET;
use rack::refused::Refused;
use reader::layout::plan_layout;
use traffic::{Traffic, caller_fault};
use turns::frames::{LEAST_FRAME, frame_caller, frame_goal};

// Whether a walk arrived or is stuck, its hops, the first column crossed, and the counts handed back.
#[derive(Clone, Copy, Debug, PartialEq, Eq)]
pub struct CallerWalk {
    pub arrived: bool,
    pub hops: u32,
    pub crossed: Option<u32>,
    pub traffic: Traffic,
}

// A walk by caller: 1, 12, 18, 14, 15. The counts go in and come back; only the caller's are raised, and stuck is an answer that changes none.
// Inlined, so that the walk of a lent frame does not copy the record of counts once more.
#[inline]
pub fn walk_by_caller(
    plan: &[u8],
    from: u32,
    goal: u32,
    caller: u32,
    traffic: Traffic,
    met: &mut [u16],
) -> Result<CallerWalk, Refused>
    ensures says { CallerWalkSays plan.now from goal caller traffic (caller_walk_of traffic result) met.old met.new }
    ensures arrives { CallerFrame plan.now from goal caller met.old → CallerCanTake plan.now from goal caller traffic → CallerArrived plan.now from goal caller traffic (caller_walk_of traffic result) met.new }
    ensures full { CallerFrame plan.now from goal caller met.old → (CallerCanTake plan.now from goal caller traffic → ⊥) → CallerFull traffic (caller_walk_of traffic result) met.old met.new }
{
    let Some(met) = met.as_mut_array::<LENT_MET>() else {
        return Err(Refused::Lent);
    };
    caller_fault(plan, caller)?;
    let u = caller as usize;
    let walk = walk_frame(plan, from, goal, traffic.tally_of(u), met)?;
    Ok(CallerWalk {
        arrived: walk.walked.arrived,
        hops: walk.walked.hops,
        crossed: walk.crossed,
        traffic: traffic.with_tally(u, walk.walked.tally),
    })
}

// The walk of a lent frame to its destination, by its caller: 1, 12, 19, 18, 14, 15.
pub fn walk_lent(
    plan: &[u8],
    from: u32,
    frame: &[u8],
    traffic: Traffic,
    met: &mut [u16],
) -> Result<CallerWalk, Refused>
    ensures says { LentWalkSays plan.now from frame.now traffic (caller_walk_of traffic result) met.old met.new }
    ensures arrives { LentFrame plan.now from frame.now met.old → LentCanTake plan.now from frame.now traffic → LentArrived plan.now from frame.now traffic (caller_walk_of traffic result) met.new }
    ensures full { LentFrame plan.now from frame.now met.old → (LentCanTake plan.now from frame.now traffic → ⊥) → CallerFull traffic (caller_walk_of traffic result) met.old met.new }
{
    let Some(met) = met.as_mut_array::<LENT_MET>() else {
        return Err(Refused::Lent);
    };
    plan_layout(plan)?;
    // Tested here and not by `Frame::read`, whose caller, a number that indexes, would have to become a `u32` again.
    if frame.len() < LEAST_FRAME {
        return Err(Refused::NoFrame);
    }
    walk_by_caller(
        plan,
        from,
        frame_goal(frame),
        frame_caller(frame),
        traffic,
        met,
    )
}
