// One step of a frame, on a plan's own bytes.
ghost use Rattle.std.specs.Prelude.{◌≡◌, ◌<◌, ltb, IfOk};
ghost use Rattle.rack.specs.Wiring.{link_at};
ghost use Rattle.rack.specs.PlanFile.{plan_hamming, plan_wiring};
ghost use Rattle.reader.specs.Reading.{sizes_of};
ghost use Rattle.forwarder.specs.Forwarding.{step, step_seen};
ghost use Rattle.forwarder.specs.Calls.{StepSays, stepped_of};
ghost use Rattle.forwarder.specs.Parts.{FrameSizes, NoNearer, far_card};

use counting::ones::ones_table;
use counting::plans::CountedPlan;
use rack::limits::MOST_CARDS;
use rack::refused::Refused;
use rack::views::Plan;
use reader::layout::plan_layout;

// How a step goes: not at all, for the frame is stuck or has arrived, or over a link to its far card.
#[derive(Clone, Copy, Debug, PartialEq, Eq)]
pub enum Step {
    Stuck,
    Arrived,
    Over { link: u32, far: u32 },
}

// The card at the other end of link `i` where it is one of card `a`'s, between two of the cards.
fn far_card(plan: Plan<'_>, i: usize, a: usize) -> Option<usize>
    requires { (i < plan.links) × (a < plan.cards) }
    ensures { result ≡ far_card plan.entry.cards a (link_at (plan_wiring plan.entry.bytes.now) i) }
{
    let (p, q) = plan.ends(i);
    if p == a && q < plan.cards {
        Some(q)
    } else if q == a && p < plan.cards {
        Some(p)
    } else {
        None
    }
}

// Whether the address of card `c` differs from that of card `b` in fewer than `left` places. A card whose address does not is marked, so
// that its places are counted once: without that the slowest walk took a quarter longer.
fn is_nearer(
    counted: CountedPlan<'_>,
    c: usize,
    b: usize,
    left: u32,
    marks: &mut [bool; MOST_CARDS],
) -> bool
    requires { (c < counted.plan.cards) × (b < counted.plan.cards) × NoNearer counted.plan.bytes.now b left marks.old }
    ensures is { result ≡ ltb (plan_hamming counted.entry.plan.bytes.now c b) left }
    ensures holds { NoNearer counted.entry.plan.bytes.now b left marks.new }
{
    if marks[c] {
        return false;
    }
    if counted.hamming(c, b) < left {
        return true;
    }
    marks[c] = true;
    false
}

// The step from card `a` towards card `b`: over the first link that leads nearer. A `for` that returns, since marks are set on the way.
pub fn step_between(counted: CountedPlan<'_>, a: usize, b: usize) -> Step
    requires { (a < counted.plan.cards) × (b < counted.plan.cards) }
    ensures { step_seen result ≡ step counted.entry.plan.bytes.now a b }
{
    if a == b {
        return Step::Arrived;
    }
    let left = counted.hamming(a, b);
    let mut marks = [false; MOST_CARDS];
    for i in 0..counted.plan.links {
        if let Some(c) = far_card(counted.plan, i, a)
            && is_nearer(counted, c, b, left, &mut marks)
        {
            return Step::Over {
                link: i as u32,
                far: c as u32,
            };
        }
    }
    Step::Stuck
}

// A plan that has both cards: 12, 14. The two are given as numbers, here and in every call on a frame, as they come from outside.
pub fn frame_plan(plan: &[u8], from: u32, goal: u32) -> Result<Plan<'_>, Refused>
    ensures says { FrameSizes plan.now from goal (sizes_of result) }
    ensures bytes { IfOk result (λ p. p.bytes ≡ plan.entry) }
{
    let sized = plan_layout(plan)?;
    if sized.cards <= from as usize || sized.cards <= goal as usize {
        return Err(Refused::NoCard);
    }
    Ok(sized)
}

// A step of a frame: 12, 14.
pub fn step_checked(plan: &[u8], from: u32, goal: u32) -> Result<Step, Refused>
    ensures { StepSays plan.now from goal (stepped_of result) }
{
    let sized = frame_plan(plan, from, goal)?;
    let ones = ones_table();
    let counted = CountedPlan {
        ones: &ones,
        plan: sized,
    };
    Ok(step_between(counted, from as usize, goal as usize))
}
