// Plans of rings with a byte changed, cut short or read too far, and walks on them with counts handed in.
use crate::calls::{addressed, read, stepped, walked};
use crate::lines::{cell, number, number_to};
use crate::shapes::ring;
use forwarder::walk::{LENT_MET, Tally};
use planner::write_plan;
use rack::limits::{LENT_PLAN, MOST_CARDS};

// One card more than a walk needs room for.
const MORE_MET: usize = LENT_MET + 1;

// The plan of a ring, with the byte at a place put anew if there is one.
fn ring_plan(line: &str) -> [u8; LENT_PLAN] {
    let n = number_to(line, 1, MOST_CARDS);
    let mut plan = [0u8; LENT_PLAN];
    let _ = write_plan(&ring(n)[..4 + 4 * n], &mut plan);
    if !cell(line, 2).is_empty() {
        plan[number_to(line, 2, LENT_PLAN - 1)] = number_to(line, 3, u8::MAX.into()) as u8;
    }
    plan
}

// Reads such a plan, takes a step, walks a frame, and asks for an address.
pub fn changed(rt: &impl Print, line: &str) {
    let bytes = ring_plan(line);
    let plan = &bytes[..number_to(line, 4, LENT_PLAN)];
    let from = number(line, 5);
    let goal = number(line, 6);
    let mut met = [7u16; LENT_MET];
    let _ = rt.print(cell(line, 7));
    read(rt, plan);
    stepped(rt, plan, from, goal);
    walked(rt, plan, from, goal, Tally { frames: 5, hops: 6 }, &mut met);
    addressed(rt, plan, goal);
}

// Walks a frame on such a plan with counts handed in, and room for some cards.
pub fn walk(rt: &impl Print, line: &str) {
    let bytes = ring_plan(line);
    let plan = &bytes[..number_to(line, 4, LENT_PLAN)];
    let tally = Tally {
        frames: number(line, 7),
        hops: number(line, 8),
    };
    let mut met = [7u16; MORE_MET];
    let room = number_to(line, 9, MORE_MET);
    let _ = rt.print(cell(line, 10));
    walked(
        rt,
        plan,
        number(line, 5),
        number(line, 6),
        tally,
        &mut met[..room],
    );
}
