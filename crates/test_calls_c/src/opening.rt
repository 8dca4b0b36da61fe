// Plans that are opened and then stepped and walked on.
ghost use Rattle.std.specs.Prelude.{◌≡◌};
ghost use Rattle.crossing.specs.Crossing.{FrameStepSays};
ghost use Rattle.callers.specs.Walking.{CallerWalkSays};
ghost use Rattle.test_calls.specs.Answers.{Answered, caller_walk_in, frame_step_in, lent_traffic, opened_for};

use rack::limits::MOST_CALLERS;

// A step on an opened plan: 1, 12, 14.
#[unsafe(no_mangle)]
pub extern "C" fn test_opened_step(bytes: &[u8], from: u32, goal: u32, answer: &mut [u32]) -> u32
    ensures { Answered 5 result answer.old answer.new Unit (FrameStepSays (opened_for bytes.now) from goal (frame_step_in result answer.new)) }
{
    test_calls::opening::test_opened_step(bytes, from, goal, answer)
}

// A walk by caller on an opened plan: 1, 12, 18, 14, 15.
#[unsafe(no_mangle)]
pub extern "C" fn test_opened_walk(
    bytes: &[u8],
    from: u32,
    goal: u32,
    caller: u32,
    frames: &mut [u32; MOST_CALLERS],
    hops: &mut [u32; MOST_CALLERS],
    turns: &mut [u32; MOST_CALLERS],
    met: &mut [u16],
    answer: &mut [u32],
) -> u32
    ensures { Answered 4 result answer.old answer.new ((met.new ≡ met.old) × (lent_traffic frames.new hops.new turns.new ≡ lent_traffic frames.old hops.old turns.old)) (CallerWalkSays (opened_for bytes.now) from goal caller (lent_traffic frames.old hops.old turns.old) (caller_walk_in result answer.new (lent_traffic frames.new hops.new turns.new)) met.old met.new) }
{
    test_calls::opening::test_opened_walk(
        bytes, from, goal, caller, frames, hops, turns, met, answer,
    )
}
