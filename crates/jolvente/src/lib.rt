// The calls for C, by numbers and byte slices: write a plan, read a plan, walk a frame. `jolvente_c` exports them.
#![tactic(auto)]

ghost use Rattle.std.specs.Prelude.{◌≡◌};
ghost use Rattle.rack.specs.Hops.{hops};
ghost use Rattle.rack.specs.PlanFile.{plan_wiring};
ghost use Rattle.reader.specs.Promises.{Measured};
ghost use Rattle.forwarder.specs.Calls.{Arrived, CanTake};
ghost use Rattle.jolvente.specs.CCalls.{CAsked, CFound, CFrame, CFull, CReadSays, CWalkSays, CWriteSays};
ghost use Rattle.jolvente.specs.Records.{cards_in, counts_in, walked_in};

use forwarder::walk::{LENT_MET, Tally, walk_counted};
use planner::write_plan;
use rack::bytes::number32_at;
use rack::limits::LENT_PLAN;
use reader::read::read_plan;
use records::{LENT_MET_BYTES, LENT_RECORD, put_cards, put_record};
use traffic::caller_fault;

mod records;

// Writes the plan of a wiring file: 1 to 11. The record has the plan's length.
pub fn jolvente_write_plan(wiring: &[u8], plan: &mut [u8], record: &mut [u8]) -> u32
    ensures says { CWriteSays wiring.now result plan.old plan.new «record».old «record».new }
    ensures found { CAsked wiring.now plan.old «record».old → CFound wiring.now result plan.new }
{
    let Some(plan) = plan.as_mut_array::<LENT_PLAN>() else {
        return 1;
    };
    let Some(record) = record.as_mut_array::<LENT_RECORD>() else {
        return 1;
    };
    match write_plan(wiring, plan) {
        Ok(length) => {
            put_record(record, length, 0, 0, 0);
            0
        }
        Err(refused) => {
            record.fill(0);
            refused.number() + 256 * refused.place().unwrap_or(0)
        }
    }
}

// Reads a plan: 1, 12, 13. The record has the plan's sizes.
pub fn jolvente_read_plan(plan: &[u8], record: &mut [u8]) -> u32
    ensures says { CReadSays plan.now result «record».old «record».new }
    ensures promise { result ≡ 0 → Measured plan.now }
{
    let Some(record) = record.as_mut_array::<LENT_RECORD>() else {
        return 1;
    };
    match read_plan(plan) {
        Ok(read) => {
            put_record(
                record,
                read.plan.cards as u32,
                read.plan.links as u32,
                read.plan.columns as u32,
                0,
            );
            0
        }
        Err(refused) => refused.number(),
    }
}

// Walks a frame of a caller: 1, 12, 18, 14, 15. The record has how it ended, its hops, and the caller's counts, which it had at entry.
pub fn jolvente_walk(
    plan: &[u8],
    from: u32,
    goal: u32,
    caller: u32,
    met: &mut [u8],
    record: &mut [u8],
) -> u32
    ensures says { CWalkSays plan.now from goal caller result met.old met.new «record».old «record».new }
    ensures arrives { CFrame plan.now from goal caller met.old «record».old → CanTake (counts_in «record».old) (hops (plan_wiring plan.now) from goal) → Arrived plan.now from goal (counts_in «record».old) (walked_in result «record».new) (cards_in met.new) }
    ensures full { CFrame plan.now from goal caller met.old «record».old → (CanTake (counts_in «record».old) (hops (plan_wiring plan.now) from goal) → ⊥) → CFull result met.old met.new «record».old «record».new }
{
    let Some(met) = met.as_mut_array::<LENT_MET_BYTES>() else {
        return 1;
    };
    let Some(record) = record.as_mut_array::<LENT_RECORD>() else {
        return 1;
    };
    if let Err(refused) = caller_fault(plan, caller) {
        return refused.number();
    }
    let tally = Tally {
        frames: number32_at(record, 8),
        hops: number32_at(record, 12),
    };
    let mut cards = [0; LENT_MET];
    match walk_counted(plan, from, goal, tally, &mut cards) {
        Ok(w) => {
            put_cards(&cards, met);
            let t = w.tally;
            put_record(record, u32::from(w.arrived), w.hops, t.frames, t.hops);
            0
        }
        Err(refused) => refused.number(),
    }
}
