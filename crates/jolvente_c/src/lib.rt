// The calls that C links: each is the call of the same name in `jolvente`, with its clauses. include/jolvente.h tells C of them.
#![tactic(auto)]

ghost use Rattle.std.specs.Prelude.{◌≡◌};
ghost use Rattle.rack.specs.Hops.{hops};
ghost use Rattle.rack.specs.PlanFile.{plan_wiring};
ghost use Rattle.reader.specs.Promises.{Measured};
ghost use Rattle.forwarder.specs.Calls.{Arrived, CanTake};
ghost use Rattle.jolvente.specs.CCalls.{CAsked, CFound, CFrame, CFull, CReadSays, CWalkSays, CWriteSays};
ghost use Rattle.jolvente.specs.Records.{cards_in, counts_in, walked_in};

// Writes the plan of a wiring file: 1 to 11. The record has the plan's length.
#[unsafe(no_mangle)]
pub extern "C" fn jolvente_write_plan(wiring: &[u8], plan: &mut [u8], record: &mut [u8]) -> u32
    ensures says { CWriteSays wiring.now result plan.old plan.new «record».old «record».new }
    ensures found { CAsked wiring.now plan.old «record».old → CFound wiring.now result plan.new }
{
    jolvente::jolvente_write_plan(wiring, plan, record)
}

// Reads a plan: 1, 12, 13. The record has the plan's sizes.
#[unsafe(no_mangle)]
pub extern "C" fn jolvente_read_plan(plan: &[u8], record: &mut [u8]) -> u32
    ensures says { CReadSays plan.now result «record».old «record».new }
    ensures promise { result ≡ 0 → Measured plan.now }
{
    jolvente::jolvente_read_plan(plan, record)
}

// Walks a frame of a caller: 1, 12, 18, 14, 15. The record has how it ended, its hops, and the caller's counts, which it had at entry.
#[unsafe(no_mangle)]
pub extern "C" fn jolvente_walk(
    plan: &[u8],
    from: u32,
    goal: u32,
    caller: u32,
    met: &mut [u8],
    record: &mut [u8],
) -> u32
    ensures says { CWalkSays plan.now from goal caller result met.old met.new «record».old «record».new }
    ensures arrives { CFrame plan.now from goal caller met.old «record».old → CanTake (counts_in «record».old) (hops (plan_wiring plan.now) from goal) → Arrived plan.now from goal (counts_in «record».old) (walked_in result «record».new) (cards_in met.new) }
    ensures full { CFrame plan.now from goal caller met.old «record».old → (CanTake (counts_in «record».old) (hops (plan_wiring plan.now) from goal) → ⊥) → CFull result met.old met.new «record».old «record».new }
{
    jolvente::jolvente_walk(plan, from, goal, caller, met, record)
}
