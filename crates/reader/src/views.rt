// A plan that was read: what steps, walks, sums of hops and conferences lean on is known of it.
ghost use Rattle.reader.specs.Promises.{Measured};

use rack::views::Plan;

// A plan that passed 12 and 13.
#[derive(Clone, Copy, Debug, PartialEq, Eq)]
pub struct ReadPlan<'a> {
    pub plan: Plan<'a>,
    pub ghost measured: { Measured plan.bytes.now },
}
