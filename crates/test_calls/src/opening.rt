// Plans that are opened and then stepped and walked on, by the methods themselves.
ghost use Rattle.std.specs.Prelude.{◌≡◌};
ghost use Rattle.crossing.specs.Crossing.{FrameStepSays};
ghost use Rattle.callers.specs.Walking.{CallerWalkSays};
ghost use Rattle.carried.specs.Carried.{seen};
ghost use Rattle.test_calls.specs.Answers.{Answered, caller_walk_in, frame_step_in, lent_traffic, opened_for};

use crate::answers::{lent_traffic, put_caller_walk, put_step};
use opened::{Opened, open_plan};
use rack::limits::MOST_CALLERS;

// A plan that is opened, or none of its bytes where reading refuses it.
fn opened(bytes: &[u8]) -> Opened<'_>
    ensures { seen result ≡ opened_for bytes.now }
{
    open_plan(bytes).unwrap_or(Opened {
        bytes: &bytes[..0],
        cards: 0,
        links: 0,
        columns: 0,
        total: 0,
    })
}

// A step on an opened plan: 1, 12, 14.
pub fn test_opened_step(bytes: &[u8], from: u32, goal: u32, answer: &mut [u32]) -> u32
    ensures { Answered 5 result answer.old answer.new Unit (FrameStepSays (opened_for bytes.now) from goal (frame_step_in result answer.new)) }
{
    let Some(answer) = answer.as_mut_array::<5>() else {
        return 1;
    };
    put_step(opened(bytes).step(from, goal), answer)
}

// A walk by caller on an opened plan: 1, 12, 18, 14, 15.
pub fn test_opened_walk(
    bytes: &[u8],
    from: u32,
    goal: u32,
    caller: u32,
    frames: &mut [u32; MOST_CALLERS],
    hops: &mut [u32; MOST_CALLERS],
    turns: &mut [u32; MOST_CALLERS],
    met: &mut [u16],
    answer: &mut [u32],
) -> u32
    ensures { Answered 4 result answer.old answer.new ((met.new ≡ met.old) × (lent_traffic frames.new hops.new turns.new ≡ lent_traffic frames.old hops.old turns.old)) (CallerWalkSays (opened_for bytes.now) from goal caller (lent_traffic frames.old hops.old turns.old) (caller_walk_in result answer.new (lent_traffic frames.new hops.new turns.new)) met.old met.new) }
{
    let Some(answer) = answer.as_mut_array::<4>() else {
        return 1;
    };
    let traffic = lent_traffic(frames, hops, turns);
    put_caller_walk(
        opened(bytes).walk(from, goal, caller, traffic, met),
        frames,
        hops,
        turns,
        answer,
    )
}
