// Each call of the product on bytes, with what it answered written out. Nothing tells of output that fails; what follows is tried all the same.
use crate::say::sum;
use crossing::{FrameStep, FrameWalk, step_frame, walk_frame};
use forwarder::step::Step;
use forwarder::walk::{LENT_MET, Tally};
use planner::{plan_rack, write_plan};
use reader::read::{card_address, read_plan};

// Plans a rack in lent buffers.
pub fn planned(rt: &impl Print, file: &[u8], words: &mut [u64], hops: &mut [u8]) {
    let _ = match plan_rack(file, words, hops) {
        Ok(columns) => print!(rt; " accepted, columns {columns}"),
        Err(refused) => print!(rt; " {refused}"),
    };
    let _ = print!(rt; ", sums {} {}", sum(words), sum(hops));
}

// Writes the plan of a rack into a lent buffer; gives its length.
pub fn written(rt: &impl Print, file: &[u8], output: &mut [u8]) -> Option<usize> {
    let answer = write_plan(file, output);
    let _ = match answer {
        Ok(length) => print!(rt; "; plan {length} bytes"),
        Err(refused) => print!(rt; "; plan {refused}"),
    };
    let _ = print!(rt; " sum {}", sum(output));
    answer.ok().map(|length| length as usize)
}

// Reads a plan.
pub fn read(rt: &impl Print, plan: &[u8]) {
    let _ = match read_plan(plan) {
        Ok(r) => print!(rt;
            "; read 0: {} {} {}",
            r.plan.cards, r.plan.links, r.plan.columns
        ),
        Err(refused) => print!(rt; "; read {}", refused.number()),
    };
}

// The column crossed, if there is one.
fn crossed(rt: &impl Print, column: Option<u32>) {
    if let Some(column) = column {
        let _ = print!(rt; " crossing column {column}");
    }
}

// Walks a frame, with counts handed in, in a lent buffer.
pub fn walked(rt: &impl Print, plan: &[u8], from: u32, goal: u32, tally: Tally, met: &mut [u16]) {
    let walk = walk_frame(plan, from, goal, tally, met);
    let _ = print!(rt; "; walk {from} to {goal} ");
    let counts = match walk {
        Ok(FrameWalk { walked, .. }) => {
            let end = if walked.arrived { "arrived" } else { "stuck" };
            let _ = print!(rt; "{end}, hops {}", walked.hops);
            walked.tally
        }
        Err(refused) => {
            let _ = print!(rt; "refused {}", refused.number());
            tally
        }
    };
    let _ = print!(rt;
        ", met sum {}, counts {} {}",
        sum(met),
        counts.frames,
        counts.hops
    );
    crossed(rt, walk.ok().and_then(|walk| walk.crossed));
}

// The counts after one more frame.
fn counted(plan: &[u8], from: u32, goal: u32, tally: Tally) -> Tally {
    let mut met = [7u16; LENT_MET];
    match walk_frame(plan, from, goal, tally, &mut met) {
        Ok(walk) => walk.walked.tally,
        Err(_) => tally,
    }
}

// Walks a frame from one card to each of the `n` cards.
pub fn walked_to_each(rt: &impl Print, plan: &[u8], n: u32, from: u32) {
    let mut tally = Tally { frames: 0, hops: 0 };
    for goal in 0..n {
        tally = counted(plan, from, goal, tally);
    }
    let _ = print!(rt; "; to each card {} {}", tally.frames, tally.hops);
}

// Takes one step.
pub fn stepped(rt: &impl Print, plan: &[u8], from: u32, goal: u32) {
    let _ = print!(rt; "; step {from} to {goal} ");
    match step_frame(plan, from, goal) {
        Ok(
            FrameStep {
                step,
                crossed: column,
            },
        ) => {
            let _ = match step {
                Step::Stuck => print!(rt; "stuck"),
                Step::Arrived => print!(rt; "arrived"),
                Step::Over { link, far } => print!(rt; "over link {link} to card {far}"),
            };
            crossed(rt, column);
        }
        Err(refused) => {
            let _ = print!(rt; "refused {}", refused.number());
        }
    }
}

// Asks for a card's address.
pub fn addressed(rt: &impl Print, plan: &[u8], card: u32) {
    let _ = match card_address(plan, card) {
        Ok(address) => print!(rt; "; address of {card} sum {}", sum(address)),
        Err(refused) => print!(rt; "; address of {card} refused {}", refused.number()),
    };
}
