// The traffic record: three counts for each caller, by value, and the test of a caller's number.
#![tactic(auto)]

ghost use Rattle.std.specs.Prelude.{◌≡◌};
ghost use Rattle.rack.specs.Refused.{number_of};
ghost use Rattle.traffic.specs.Traffic.{caller_refusal};

use forwarder::walk::Tally;
use rack::limits::MOST_CALLERS;
use rack::refused::Refused;
use reader::layout::plan_layout;

// For each caller: frames that arrived, their hops, and turns. Three arrays, for a choice of frames is lent the turns alone.
#[derive(Clone, Copy, Debug, PartialEq, Eq)]
pub struct Traffic {
    pub frames: [u32; MOST_CALLERS],
    pub hops: [u32; MOST_CALLERS],
    pub turns: [u32; MOST_CALLERS],
}

// The refusal of a caller's number on a plan: 12, 18.
pub fn caller_fault(plan: &[u8], caller: u32) -> Result<(), Refused>
    ensures { number_of result ≡ caller_refusal plan.now caller }
{
    plan_layout(plan)?;
    if MOST_CALLERS <= caller as usize {
        return Err(Refused::NoCaller);
    }
    Ok(())
}

impl Traffic {
    ghost use Rattle.std.specs.Prelude.{◌≡◌, ◌<◌};
    ghost use Rattle.rack.specs.Limits.{most_callers};
    ghost use Rattle.traffic.specs.Traffic.{tally_of, with_tally};

    // A caller's frames and hops.
    pub fn tally_of(self, caller: usize) -> Tally
        requires { caller < most_callers }
        ensures { result ≡ tally_of self caller }
    {
        Tally {
            frames: self.frames[caller],
            hops: self.hops[caller],
        }
    }

    // The record with other frames and hops of a caller.
    pub fn with_tally(mut self, caller: usize, tally: Tally) -> Traffic
        requires { caller < most_callers }
        ensures { result ≡ with_tally self caller tally }
    {
        self.frames[caller] = tally.frames;
        self.hops[caller] = tally.hops;
        self
    }
}
