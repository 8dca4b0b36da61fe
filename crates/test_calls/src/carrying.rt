// The calls on an opened plan, over its bytes, any three sizes and any sum.
ghost use Rattle.std.specs.Prelude.{◌≡◌};
ghost use Rattle.crossing.specs.Crossing.{FrameStepSays};
ghost use Rattle.plan_totals.specs.Summed.{ReadWithTotalSays};
ghost use Rattle.last_card.specs.Calls.{AddSays, TakeOffSays};
ghost use Rattle.callers.specs.Walking.{CallerWalkSays};
ghost use Rattle.carried.specs.Carried.{AddressSaysWith, ConferenceSaysWith, address_refusal_with, carried_bytes};
ghost use Rattle.test_calls.specs.Answers.{Answered, caller_walk_in, conference_in, frame_step_in, lent_traffic, sizes_in, summed_plan_in};

use crate::answers::{
    lent_traffic, put_caller_walk, put_conference, put_part, put_sizes, put_step, put_summed_plan,
};
use carried::Opened;
use rack::limits::MOST_CALLERS;

// An opened plan of any bytes, sizes and sum.
fn opened(bytes: &[u8], cards: u32, links: u32, columns: u32, total: u32) -> Opened<'_>
    ensures { result ≡ record { bytes = bytes.entry; cards = cards; links = links; columns = columns; total = total } }
{
    Opened {
        bytes,
        cards,
        links,
        columns,
        total,
    }
}

// Reading: 1, 12, 13. The fields are the three sizes.
pub fn test_read_carried(
    bytes: &[u8],
    cards: u32,
    links: u32,
    columns: u32,
    total: u32,
    answer: &mut [u32],
) -> u32
    ensures { Answered 3 result answer.old answer.new Unit (ReadWithTotalSays (carried_bytes bytes.now cards links columns) total (sizes_in result answer.new)) }
{
    let Some(answer) = answer.as_mut_array::<3>() else {
        return 1;
    };
    put_sizes(opened(bytes, cards, links, columns, total).read(), answer)
}

// A card's address.
pub fn test_address_carried<'a>(
    bytes: &'a [u8],
    cards: u32,
    links: u32,
    columns: u32,
    total: u32,
    card: u32,
    part: &mut &'a [u8],
)
    ensures { AddressSaysWith (carried_bytes bytes.now cards links columns) total bytes.entry.ref_ptr card part.new }
{
    put_part(
        opened(bytes, cards, links, columns, total).address(card),
        bytes,
        part,
    );
}

// The number beside it: 12, 13, 14.
pub fn test_address_refusal_carried(
    bytes: &[u8],
    cards: u32,
    links: u32,
    columns: u32,
    total: u32,
    card: u32,
) -> u32
    ensures { result ≡ address_refusal_with (carried_bytes bytes.now cards links columns) total card }
{
    match opened(bytes, cards, links, columns, total).address(card) {
        Ok(_) => 0,
        Err(refused) => refused.number(),
    }
}

// A step: 1, 12, 14.
pub fn test_step_carried(
    bytes: &[u8],
    cards: u32,
    links: u32,
    columns: u32,
    from: u32,
    goal: u32,
    answer: &mut [u32],
) -> u32
    ensures { Answered 5 result answer.old answer.new Unit (FrameStepSays (carried_bytes bytes.now cards links columns) from goal (frame_step_in result answer.new)) }
{
    let Some(answer) = answer.as_mut_array::<5>() else {
        return 1;
    };
    put_step(
        opened(bytes, cards, links, columns, 0).step(from, goal),
        answer,
    )
}

// A walk by caller: 1, 12, 18, 14, 15.
pub fn test_walk_carried(
    bytes: &[u8],
    cards: u32,
    links: u32,
    columns: u32,
    from: u32,
    goal: u32,
    caller: u32,
    frames: &mut [u32; MOST_CALLERS],
    hops: &mut [u32; MOST_CALLERS],
    turns: &mut [u32; MOST_CALLERS],
    met: &mut [u16],
    answer: &mut [u32],
) -> u32
    ensures { Answered 4 result answer.old answer.new ((met.new ≡ met.old) × (lent_traffic frames.new hops.new turns.new ≡ lent_traffic frames.old hops.old turns.old)) (CallerWalkSays (carried_bytes bytes.now cards links columns) from goal caller (lent_traffic frames.old hops.old turns.old) (caller_walk_in result answer.new (lent_traffic frames.new hops.new turns.new)) met.old met.new) }
{
    let Some(answer) = answer.as_mut_array::<4>() else {
        return 1;
    };
    let traffic = lent_traffic(frames, hops, turns);
    put_caller_walk(
        opened(bytes, cards, links, columns, 0).walk(from, goal, caller, traffic, met),
        frames,
        hops,
        turns,
        answer,
    )
}

// A conference card: 1, 12, 13, 14.
pub fn test_conference_carried(
    bytes: &[u8],
    cards: u32,
    links: u32,
    columns: u32,
    total: u32,
    a: u32,
    b: u32,
    c: u32,
    answer: &mut [u32],
) -> u32
    ensures { Answered 2 result answer.old answer.new Unit (ConferenceSaysWith (carried_bytes bytes.now cards links columns) total a b c (conference_in result answer.new)) }
{
    let Some(answer) = answer.as_mut_array::<2>() else {
        return 1;
    };
    put_conference(
        opened(bytes, cards, links, columns, total).conference(a, b, c),
        answer,
    )
}

// A card more: 1, 12, 13, 14, 16. The fields are the new plan's length and its sum.
pub fn test_add_carried(
    bytes: &[u8],
    cards: u32,
    links: u32,
    columns: u32,
    total: u32,
    card: u32,
    output: &mut [u8],
    answer: &mut [u32],
) -> u32
    ensures { Answered 2 result answer.old answer.new (output.new ≡ output.old) (AddSays (carried_bytes bytes.now cards links columns) total card (summed_plan_in result answer.new) output.old output.new) }
{
    let Some(answer) = answer.as_mut_array::<2>() else {
        return 1;
    };
    put_summed_plan(
        opened(bytes, cards, links, columns, total).add_card(card, output),
        answer,
    )
}

// The last card taken off: 1, 12, 13, 17. The fields are the new plan's length and its sum.
pub fn test_take_off_carried(
    bytes: &[u8],
    cards: u32,
    links: u32,
    columns: u32,
    total: u32,
    output: &mut [u8],
    answer: &mut [u32],
) -> u32
    ensures { Answered 2 result answer.old answer.new (output.new ≡ output.old) (TakeOffSays (carried_bytes bytes.now cards links columns) total (summed_plan_in result answer.new) output.old output.new) }
{
    let Some(answer) = answer.as_mut_array::<2>() else {
        return 1;
    };
    put_summed_plan(
        opened(bytes, cards, links, columns, total).take_card_off(output),
        answer,
    )
}
