// Hops between all cards: upper bounds in a lent table, lowered over the links until no link lowers any; and refusal 10.
ghost use Rattle.std.specs.Prelude.{◌≡◌, true, ◌+◌, ◌<◌};
ghost use Rattle.std.specs.Iterator.{IsFinite};
ghost use Rattle.rack.specs.Limits.{most_cards};
ghost use Rattle.rack.specs.Hops.{connected};
ghost use Rattle.rack.specs.Refused.{RefusesWith};
ghost use Rattle.rack.specs.WiringFile.{file_wiring};
ghost use Rattle.rack.specs.Refusals.{parity_refusal};
ghost use Rattle.survey.specs.Tables.{HopsIn};
ghost use Rattle.survey.specs.Lowering.{Above, Lowered, Passed, Started, Swept};

use crate::measured::MeasuredFile;
use crate::ordered::OrderedFile;
use rack::limits::{LENT_HOPS, MOST_CARDS};
use rack::refused::Refused;
use rack::views::{FormedFile, SizedFile};

// Lowers row `to` to one more than row `by` where that is less; gives the most that was taken off at one place. A number and no flag, here
// and in the two functions below: the sum of the bounds falls by as much at least, and so the loop of `settle` ends.
fn lower_row(bounds: &mut [u8; LENT_HOPS], to: usize, by: usize) -> u8
    requires { (to < most_cards) × (by < most_cards) }
    ensures { Lowered bounds.old bounds.new to by most_cards result }
{
    let mut off: u8 = 0;
    for b in 0..MOST_CARDS {
        let x = bounds[MOST_CARDS * to + b];
        let z = x.min(bounds[MOST_CARDS * by + b].saturating_add(1));
        bounds[MOST_CARDS * to + b] = z;
        off = off.max(x - z);
    }
    off
}

// Lowers the rows of the ends of link `i`, each to one more than the other. Lent bounds and their fact, here and below, and no struct over
// the two: each of its methods would have to ensure that the struct has the same bounds and file as before, two clauses for this one.
fn lower_link(file: FormedFile<'_>, i: usize, bounds: &mut [u8; LENT_HOPS]) -> u8
    requires { (i < file.sized.links) × Above (file_wiring file.sized.bytes.now) bounds.old }
    ensures { Passed (file_wiring file.entry.sized.bytes.now) bounds.old bounds.new i (i + 1) result }
{
    let (p, q) = file.ends(i);
    let a = lower_row(bounds, p, q);
    let b = lower_row(bounds, q, p);
    a.max(b)
}

// Lowers by every link once, in rising order.
fn lower_pass(file: FormedFile<'_>, bounds: &mut [u8; LENT_HOPS]) -> u8
    requires { Above (file_wiring file.sized.bytes.now) bounds.old }
    ensures { Passed (file_wiring file.entry.sized.bytes.now) bounds.old bounds.new 0 file.entry.sized.links result }
{
    let mut off: u8 = 0;
    for i in 0..file.sized.links {
        let a = lower_link(file, i, bounds);
        off = off.max(a);
    }
    off
}

// Lowers by the links in an order. Not `spread_order` of `reach` with another step, for what is said there.
fn sweep<'a, I: Iterator<Item = &'a u16> + Drop>(
    file: FormedFile<'_>,
    order: I,
    bounds: &mut [u8; LENT_HOPS],
)
    requires above { Above (file_wiring file.sized.bytes.now) bounds.old }
    requires can { I.can_next order }
    requires ends { IsFinite (I.remaining order) }
    ensures { Swept (file_wiring file.entry.sized.bytes.now) bounds.old bounds.new }
{
    for link in order {
        let i = usize::from(*link);
        if i < file.sized.links {
            lower_link(file, i, bounds);
        }
    }
}

// Lowers until no link lowers any bound. The order only saves sweeps: the last one of a round, over every link, decides. How many rounds:
// let all pairs of cards up to d hops apart have their hops as bounds, as they have at the start with d = 0. Where a and b are d + 1 hops
// apart, a neighbour p of a is d hops from b, and a sweep, when it comes to the link of a and p, lowers row a at place b to d + 1. No
// bound falls below hops, so after s sweeps all pairs up to s hops apart have theirs. A round has three sweeps (every link of a connected
// rack stands in the order once). It is the last if its third sweep lowers nothing, so at the latest if its first two have made all bounds
// hops: a third of the diameter in rounds, rounded down, and one more are enough, and for 256 cards 86.
fn settle(file: OrderedFile<'_>, bounds: &mut [u8; LENT_HOPS])
    requires { Above (file_wiring file.formed.sized.bytes.now) bounds.old }
    ensures { HopsIn (file_wiring file.entry.formed.sized.bytes.now) bounds.new }
{
    let OrderedFile { formed, order } = file;
    let links = &order[..formed.sized.links];
    loop {
        sweep(formed, links.iter().rev(), bounds);
        sweep(formed, links.iter(), bounds);
        if lower_pass(formed, bounds) == 0 {
            return;
        }
    }
}

// Fills row `a` with what is known of the hops from card `a` before any link was looked at: fewer than there are cards to another card, none
// to itself. The row is zero at entry: the table is filled once, in front of the loop.
fn start_row(file: SizedFile<'_>, a: usize, bounds: &mut [u8; LENT_HOPS])
    requires { (a < file.cards) × Started file.cards bounds.old a }
    ensures { Started file.entry.cards bounds.new (a + 1) }
{
    let row = MOST_CARDS * a;
    bounds[row..row + file.cards].fill((file.cards - 1) as u8);
    bounds[row + a] = 0;
}

// Fills the table with those bounds.
fn start_bounds(file: SizedFile<'_>, bounds: &mut [u8; LENT_HOPS])
    ensures { Started file.entry.cards bounds.new file.entry.cards }
{
    bounds.fill(0);
    for a in 0..file.cards {
        start_row(file, a, bounds);
    }
}

// The hops between all cards of a connected rack.
pub fn all_hops(file: OrderedFile<'_>, hops: &mut [u8; LENT_HOPS])
    requires { connected (file_wiring file.formed.sized.bytes.now) ≡ true }
    ensures { HopsIn (file_wiring file.entry.formed.sized.bytes.now) hops.new }
{
    start_bounds(file.formed.sized, hops);
    settle(file, hops);
}

// The lowest link whose ends have equal hops from card 0, with 10. A `for` that returns, since with `find` the test would be as long as the loop.
pub fn parity_refusal(file: MeasuredFile<'_>) -> Result<(), Refused>
    ensures { RefusesWith (parity_refusal (file_wiring file.entry.formed.sized.bytes.now)) result }
{
    let formed = file.formed;
    for i in 0..formed.sized.links {
        let (p, q) = formed.ends(i);
        if file.between(0, p) == file.between(0, q) {
            return Err(Refused::OddLoop(i as u32));
        }
    }
    Ok(())
}
