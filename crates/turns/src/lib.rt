// Which of two waiting frames goes: the one whose caller has had fewer turns, the first if level.
#![tactic(auto)]

ghost use Rattle.rack.specs.Refused.{number_of};
ghost use Rattle.turns.specs.Turns.{ChoiceSays, part_of};

use frames::Frame;
use rack::limits::{MOST_CALLERS, MOST_TRAFFIC};
use rack::refused::Refused;

pub mod frames;

// The frame whose caller has had fewer turns, the first if level, with that caller's turn counted: 19 where a frame has fewer than three bytes,
// 18 where a caller is over 15, 15 where the turn count to be raised is full. With a refusal no turn is counted.
pub fn next_frame<'a>(
    first: &'a [u8],
    second: &'a [u8],
    turns: &mut [u32; MOST_CALLERS],
) -> Result<&'a [u8], Refused>
    ensures { ChoiceSays first.entry second.entry turns.old (part_of first.entry.ref_ptr result) turns.new (number_of result) }
{
    let i = Frame::read(first)?.caller;
    let j = Frame::read(second)?.caller;
    if MOST_CALLERS <= i || MOST_CALLERS <= j {
        return Err(Refused::NoCaller);
    }
    let (frame, next) = if turns[j] < turns[i] {
        (second, j)
    } else {
        (first, i)
    };
    if turns[next] == MOST_TRAFFIC {
        return Err(Refused::Full);
    }
    turns[next] += 1;
    Ok(frame)
}
