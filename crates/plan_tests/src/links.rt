// Refusals 6 to 8 of the links inside a plan. Two links may join the same two cards: the first sets the mark of its ends in the order in
// which it names them, and where that one is set, the mark in the other order.
ghost use Rattle.std.specs.Prelude.{◌≡◌, true, not, ◌+◌, ◌<◌, eqb};
ghost use Rattle.rack.specs.Limits.{most_cards};
ghost use Rattle.rack.specs.Refusals.{link_fault, links_refusal};
ghost use Rattle.rack.specs.PlanFile.{plan_wiring};
ghost use Rattle.rack.specs.Words.{BitSet, word_bit};
ghost use Rattle.plan_tests.specs.Marks.{LinksMarked};

use rack::limits::LENT_WORDS;
use rack::views::Plan;
use rack::words::{set_bit, word_bit};

// A plan to whose links none of 6 to 8 applies.
#[derive(Clone, Copy, Debug, PartialEq, Eq)]
pub struct LinkedPlan<'a> {
    pub plan: Plan<'a>,
    pub ghost links: { (links_refusal (plan_wiring plan.bytes.now)).number ≡ 0 },
}

// Sets the mark of cards `a` and `b`, in this order; whether it was free.
fn set_mark(marks: &mut [u64; LENT_WORDS], a: usize, b: usize) -> bool
    requires { (a < most_cards) × (b < most_cards) }
    ensures free { result ≡ not (word_bit marks.old a b) }
    ensures set { BitSet a b marks.old marks.new }
{
    let free = !word_bit(marks, a, b);
    set_bit(marks, a, b);
    free
}

// Whether none of 6 to 8 applies to link `i`, which is marked then.
fn link_holds(plan: Plan<'_>, i: usize, marks: &mut [u64; LENT_WORDS]) -> bool
    requires { (i < plan.links) × LinksMarked (plan_wiring plan.bytes.now) i marks.old }
    ensures is { result ≡ eqb (link_fault (plan_wiring plan.entry.bytes.now) i) 0 }
    ensures marks { result ≡ true → LinksMarked (plan_wiring plan.entry.bytes.now) (i + 1) marks.new }
{
    let (p, q) = plan.ends(i);
    if plan.cards <= p || plan.cards <= q || p == q {
        return false;
    }
    set_mark(marks, p, q) || set_mark(marks, q, p)
}

// Whether none of 6 to 8 applies to the links. A `for` that returns, since marks are set on the way.
pub fn links_hold(plan: Plan<'_>) -> bool
    ensures { result ≡ eqb (links_refusal (plan_wiring plan.entry.bytes.now)).number 0 }
{
    let mut marks = [0u64; LENT_WORDS];
    for i in 0..plan.links {
        if !link_holds(plan, i, &mut marks) {
            return false;
        }
    }
    true
}
