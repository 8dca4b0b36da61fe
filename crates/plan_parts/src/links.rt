// The links of a plan: whether the last one is the last card's only one, and their ends copied with a link more or a link less.
ghost use Rattle.std.specs.Prelude.{◌≡◌, ◌++◌, ◌+◌, ◌*◌, ◌<◌, ◌≤◌, length};
ghost use Rattle.rack.specs.Lists.{FoundBelow, lowest};
ghost use Rattle.rack.specs.Buffers.{two_bytes};
ghost use Rattle.rack.specs.Putting.{Grows};
ghost use Rattle.rack.specs.Wiring.{link_at, touches};
ghost use Rattle.rack.specs.PlanFile.{plan_wiring};
ghost use Rattle.pendant.specs.Pendant.{last_hangs};
ghost use Rattle.plan_parts.specs.Parts.{LinksIn, first_ends, second_ends};

use rack::output::Output;
use rack::views::Plan;

// Whether link `i` is one of the card's.
fn touches_card(plan: Plan<'_>, card: usize, i: usize) -> bool
    requires { i < plan.links }
    ensures { result ≡ touches card (link_at (plan_wiring plan.entry.bytes.now) i) }
{
    let (p, q) = plan.ends(i);
    p == card || q == card
}

// The lowest link that touches the card.
fn lowest_link(plan: Plan<'_>, card: usize) -> Option<usize>
    ensures { FoundBelow plan.entry.links (lowest plan.entry.links (λ j. touches card (link_at (plan_wiring plan.entry.bytes.now) j))) result }
{
    // A `for` that returns: with `find` taking the last card off cost a tenth more than its limit in tests/cost.
    for i in 0..plan.links {
        if touches_card(plan, card, i) {
            return Some(i);
        }
    }
    None
}

// Whether the last link is the only one that touches the last card.
pub fn last_hangs(plan: Plan<'_>) -> bool
    ensures { result ≡ last_hangs (plan_wiring plan.entry.bytes.now) }
{
    lowest_link(plan, plan.cards - 1).is_some_and(|i| i + 1 == plan.links)
}

// Appends the ends of all `m` links and of one more, from `card` to `n`. The bytes need not be a plan's but for the ends, so no Plan is asked.
pub fn put_more_ends(plan: &[u8], m: usize, card: usize, n: usize, output: &mut Output<'_>)
    requires { LinksIn plan.now m × (output.old.length + 4 * m + 4 ≤ length output.old.bytes.now) }
    ensures { Grows output.old output.new (first_ends plan.now m ++ two_bytes card ++ second_ends plan.now m ++ two_bytes n) }
{
    let middle = 6 + 2 * m;
    output.put_bytes(&plan[6..middle]);
    output.put_number(card);
    output.put_bytes(&plan[middle..middle + 2 * m]);
    output.put_number(n);
}

// Appends the ends of the first `count` of `m` links; of bytes, as above.
pub fn put_fewer_ends(plan: &[u8], m: usize, count: usize, output: &mut Output<'_>)
    requires { LinksIn plan.now m × (count ≤ m) × (output.old.length + 4 * count ≤ length output.old.bytes.now) }
    ensures { Grows output.old output.new (first_ends plan.now count ++ second_ends plan.now count) }
{
    let middle = 6 + 2 * m;
    output.put_bytes(&plan[6..6 + 2 * count]);
    output.put_bytes(&plan[middle..middle + 2 * count]);
}
