// Answers taken apart for the tests: the number is returned, the other fields go into lent numbers, in their order. Each record has its own
// fields and order, and so a function of its own.
ghost use Rattle.std.specs.Prelude.{◌≡◌, length, replicate, unwrap_or};
ghost use Rattle.rack.specs.Refused.{number_of, refusal_of};
ghost use Rattle.planner.specs.Answer.{answer_of};
ghost use Rattle.reader.specs.ReadPlans.{plan_of};
ghost use Rattle.reader.specs.Reading.{sizes_of};
ghost use Rattle.crossing.specs.Crossing.{frame_step_of, frame_walk_of, places_of};
ghost use Rattle.conference.specs.Conference.{conference_of, found_of};
ghost use Rattle.plan_totals.specs.Summed.{summed_of};
ghost use Rattle.last_card.specs.Calls.{summed_plan_of};
ghost use Rattle.turns.specs.Turns.{part_of};
ghost use Rattle.callers.specs.Walking.{caller_walk_of};
ghost use Rattle.test_calls.specs.Answers.{answer_in, caller_walk_in, conference_in, frame_step_in, frame_walk_in, lent_traffic, places_in, sizes_in, summed_in, summed_plan_in};

use callers::CallerWalk;
use crossing::places::Places;
use crossing::{FrameStep, FrameWalk};
use forwarder::step::Step;
use forwarder::walk::Tally;
use last_card::SummedPlan;
use plan_totals::Summed;
use rack::limits::MOST_CALLERS;
use rack::refused::Refused;
use reader::views::ReadPlan;
use traffic::Traffic;

// Zeros in place of the fields of what is refused; gives the refusal's number.
pub fn put_refused(refused: Refused, answer: &mut [u32]) -> u32
    ensures number { result ≡ (refusal_of refused).number }
    ensures zeros { answer.new ≡ replicate (length answer.old) 0 }
{
    answer.fill(0);
    refused.number()
}

// 1 for something or 0 for none, and what it is.
fn option_numbers(x: Option<u32>) -> (u32, u32)
    ensures { (result.0 ≡ found_of x) × (result.1 ≡ unwrap_or x 0) }
{
    match x {
        Some(y) => (1, y),
        None => (0, 0),
    }
}

// The link or card, and the value.
pub fn put_answer(a: Result<u32, Refused>, answer: &mut [u32; 2]) -> u32
    ensures { answer_in result answer.new ≡ answer_of a }
{
    match a {
        Ok(value) => {
            *answer = [0, value];
            0
        }
        Err(refused) => {
            *answer = [refused.place().unwrap_or(0), 0];
            refused.number()
        }
    }
}

// The three sizes.
pub fn put_sizes(s: Result<ReadPlan<'_>, Refused>, answer: &mut [u32; 3]) -> u32
    ensures { sizes_in result answer.new ≡ sizes_of (plan_of s.entry) }
{
    match s {
        Ok(read) => {
            let p = read.plan;
            *answer = [p.cards as u32, p.links as u32, p.columns as u32];
            0
        }
        Err(refused) => put_refused(refused, answer),
    }
}

// The outcome, the link and the far card; 1 for a column or 0 for none, and the column.
pub fn put_step(s: Result<FrameStep, Refused>, answer: &mut [u32; 5]) -> u32
    ensures { frame_step_in result answer.new ≡ frame_step_of s }
{
    match s {
        Ok(FrameStep { step, crossed }) => {
            let (outcome, link, far) = match step {
                Step::Stuck => (0, 0, 0),
                Step::Arrived => (1, 0, 0),
                Step::Over { link, far } => (2, link, far),
            };
            let (found, column) = option_numbers(crossed);
            *answer = [outcome, link, far, found, column];
            0
        }
        Err(refused) => put_refused(refused, answer),
    }
}

// How it ended, its hops, and the counts; 1 for a column or 0 for none, and the column. With a refusal the counts are as they went in.
pub fn put_walk(f: Result<FrameWalk, Refused>, tally: Tally, answer: &mut [u32; 6]) -> u32
    ensures { frame_walk_in result answer.new ≡ frame_walk_of tally f }
{
    match f {
        Ok(FrameWalk { walked, crossed }) => {
            let arrived = u32::from(walked.arrived);
            let t = walked.tally;
            let (found, column) = option_numbers(crossed);
            *answer = [arrived, walked.hops, t.frames, t.hops, found, column];
            0
        }
        Err(refused) => {
            *answer = [0, 0, tally.frames, tally.hops, 0, 0];
            refused.number()
        }
    }
}

// The record of three lent arrays: the frames, hops and turns of each caller.
pub fn lent_traffic(
    frames: &[u32; MOST_CALLERS],
    hops: &[u32; MOST_CALLERS],
    turns: &[u32; MOST_CALLERS],
) -> Traffic
    ensures { result ≡ lent_traffic frames.now hops.now turns.now }
{
    Traffic {
        frames: *frames,
        hops: *hops,
        turns: *turns,
    }
}

// How it ended, its hops, 1 for a column or 0 for none, and the column; the counts go into the three arrays, where a refusal leaves them.
pub fn put_caller_walk(
    w: Result<CallerWalk, Refused>,
    frames: &mut [u32; MOST_CALLERS],
    hops: &mut [u32; MOST_CALLERS],
    turns: &mut [u32; MOST_CALLERS],
    answer: &mut [u32; 4],
) -> u32
    ensures { caller_walk_in result answer.new (lent_traffic frames.new hops.new turns.new) ≡ caller_walk_of (lent_traffic frames.old hops.old turns.old) w }
{
    match w {
        Ok(w) => {
            // Taken apart first: the check of borrows does not cover an array that is stored straight from a field.
            let Traffic {
                frames: f,
                hops: h,
                turns: t,
            } = w.traffic;
            (*frames, *hops, *turns) = (f, h, t);
            let (found, column) = option_numbers(w.crossed);
            *answer = [u32::from(w.arrived), w.hops, found, column];
            0
        }
        Err(refused) => put_refused(refused, answer),
    }
}

// How many places differ; 1 for a column or 0 for none, and the column.
pub fn put_places(p: Places, answer: &mut [u32; 3])
    ensures { places_in answer.new ≡ places_of p }
{
    let (found, column) = option_numbers(p.first);
    *answer = [p.count, found, column];
}

// 1 for a card or 0 for none, and the card.
pub fn put_conference(r: Result<Option<u32>, Refused>, answer: &mut [u32; 2]) -> u32
    ensures { conference_in result answer.new ≡ conference_of r }
{
    match r {
        Ok(card) => {
            let (found, card) = option_numbers(card);
            *answer = [found, card];
            0
        }
        Err(refused) => put_refused(refused, answer),
    }
}

// The three sizes and the sum.
pub fn put_summed(s: Result<Summed<'_>, Refused>, answer: &mut [u32; 4]) -> u32
    ensures { summed_in result answer.new ≡ summed_of s.entry }
{
    match s {
        Ok(s) => {
            let p = s.read.plan;
            *answer = [p.cards as u32, p.links as u32, p.columns as u32, s.total];
            0
        }
        Err(refused) => put_refused(refused, answer),
    }
}

// The new plan's length and its sum.
pub fn put_summed_plan(p: Result<SummedPlan, Refused>, answer: &mut [u32; 2]) -> u32
    ensures { summed_plan_in result answer.new ≡ summed_plan_of p }
{
    match p {
        Ok(p) => {
            *answer = [p.length, p.total];
            0
        }
        Err(refused) => put_refused(refused, answer),
    }
}

// A part of lent bytes, or with a refusal none of them, from the first on; gives the refusal's number.
pub fn put_part<'a>(r: Result<&'a [u8], Refused>, bytes: &'a [u8], part: &mut &'a [u8]) -> u32
    ensures number { result ≡ number_of r.entry }
    ensures part { part.new ≡ part_of bytes.entry.ref_ptr r.entry }
{
    match r {
        Ok(found) => {
            *part = found;
            0
        }
        Err(refused) => {
            *part = &bytes[..0];
            refused.number()
        }
    }
}
