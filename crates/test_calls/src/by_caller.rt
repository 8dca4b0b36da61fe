// Walks by caller, whose record of counts is lent as three arrays and handed back in them, and the choice of two waiting frames.
ghost use Rattle.std.specs.Prelude.{◌≡◌};
ghost use Rattle.turns.specs.Turns.{ChoiceSays};
ghost use Rattle.callers.specs.Walking.{CallerWalkSays, LentWalkSays};
ghost use Rattle.test_calls.specs.Answers.{Answered, caller_walk_in, lent_traffic};

use crate::answers::{lent_traffic, put_caller_walk, put_part};
use callers::{walk_by_caller, walk_lent};
use rack::limits::MOST_CALLERS;
use turns::next_frame;

// A walk by caller: 1, 12, 18, 14, 15. The fields are 1 for arrived or 0 for stuck, the hops, 1 for a column or 0 for none, and the column.
pub fn test_walk_by_caller(
    plan: &[u8],
    from: u32,
    goal: u32,
    caller: u32,
    frames: &mut [u32; MOST_CALLERS],
    hops: &mut [u32; MOST_CALLERS],
    turns: &mut [u32; MOST_CALLERS],
    met: &mut [u16],
    answer: &mut [u32],
) -> u32
    ensures { Answered 4 result answer.old answer.new ((met.new ≡ met.old) × (lent_traffic frames.new hops.new turns.new ≡ lent_traffic frames.old hops.old turns.old)) (CallerWalkSays plan.now from goal caller (lent_traffic frames.old hops.old turns.old) (caller_walk_in result answer.new (lent_traffic frames.new hops.new turns.new)) met.old met.new) }
{
    let Some(answer) = answer.as_mut_array::<4>() else {
        return 1;
    };
    let traffic = lent_traffic(frames, hops, turns);
    put_caller_walk(
        walk_by_caller(plan, from, goal, caller, traffic, met),
        frames,
        hops,
        turns,
        answer,
    )
}

// The walk of a lent frame: 1, 12, 19, 18, 14, 15. The fields are those of a walk by caller.
pub fn test_walk_lent(
    plan: &[u8],
    from: u32,
    frame: &[u8],
    frames: &mut [u32; MOST_CALLERS],
    hops: &mut [u32; MOST_CALLERS],
    turns: &mut [u32; MOST_CALLERS],
    met: &mut [u16],
    answer: &mut [u32],
) -> u32
    ensures { Answered 4 result answer.old answer.new ((met.new ≡ met.old) × (lent_traffic frames.new hops.new turns.new ≡ lent_traffic frames.old hops.old turns.old)) (LentWalkSays plan.now from frame.now (lent_traffic frames.old hops.old turns.old) (caller_walk_in result answer.new (lent_traffic frames.new hops.new turns.new)) met.old met.new) }
{
    let Some(answer) = answer.as_mut_array::<4>() else {
        return 1;
    };
    let traffic = lent_traffic(frames, hops, turns);
    put_caller_walk(
        walk_lent(plan, from, frame, traffic, met),
        frames,
        hops,
        turns,
        answer,
    )
}

// The frame that goes of two that wait: 19, 18, 15.
pub fn test_next_frame<'a>(
    first: &'a [u8],
    second: &'a [u8],
    turns: &mut [u32; MOST_CALLERS],
    part: &mut &'a [u8],
) -> u32
    ensures { ChoiceSays first.entry second.entry turns.old part.new turns.new result }
{
    put_part(next_frame(first, second, turns), first, part)
}
