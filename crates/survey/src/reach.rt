// Refusal 9: the cards that can be reached from card 0, by flags that spread over the links.
ghost use Rattle.std.specs.Prelude.{◌≡◌, ◌≢◌, ℕ, ◌+◌, ◌<◌, MatchOption, slice_index};
ghost use Rattle.rack.specs.Refused.{RefusesWith};
ghost use Rattle.rack.specs.WiringFile.{file_wiring};
ghost use Rattle.rack.specs.Refusals.{reach_refusal};
ghost use Rattle.survey.specs.Flags.{Flagged, Reached, Spread};

use crate::ordered::OrderedFile;
use rack::limits::LENT_HOPS;
use rack::refused::Refused;
use rack::views::{FormedFile, SizedFile};

// Flags the other end of link `i` where just one end is flagged; gives how many flags are new. A number and no flag, here and in
// `spread_pass`: there are so many flags more, of 256 at most, and so the loop of `reach` ends. Lent flags and no struct, as in `hops`.
fn spread_link(file: FormedFile<'_>, i: usize, flags: &mut [u8; LENT_HOPS]) -> usize
    requires { (i < file.sized.links) × Flagged (file_wiring file.sized.bytes.now) flags.old }
    ensures { Spread (file_wiring file.entry.sized.bytes.now) flags.old flags.new i (i + 1) result }
{
    let (p, q) = file.ends(i);
    if flags[p] == flags[q] {
        return 0;
    }
    if flags[p] == 0 {
        flags[p] = 1;
    } else {
        flags[q] = 1;
    }
    1
}

// Spreads the flags over every link once.
fn spread_pass(file: FormedFile<'_>, flags: &mut [u8; LENT_HOPS]) -> usize
    requires { Flagged (file_wiring file.sized.bytes.now) flags.old }
    ensures { Spread (file_wiring file.entry.sized.bytes.now) flags.old flags.new 0 file.entry.sized.links result }
{
    let mut moved = 0;
    for i in 0..file.sized.links {
        moved += spread_link(file, i, flags);
    }
    moved
}

// Spreads the flags over the links in an order. Not `sweep` of `hops` with another step: a closure for both would need clauses on what it
// captured, the flags here and the bounds there.
fn spread_order(file: OrderedFile<'_>, flags: &mut [u8; LENT_HOPS])
    requires { Flagged (file_wiring file.formed.sized.bytes.now) flags.old }
    ensures { Flagged (file_wiring file.entry.formed.sized.bytes.now) flags.new }
{
    let OrderedFile { formed, order } = file;
    for link in &order[..formed.sized.links] {
        let i = usize::from(*link);
        if i < formed.sized.links {
            spread_link(formed, i, flags);
        }
    }
}

// Flags every card that can be reached from card 0: until a pass flags none. The order only saves passes.
fn reach(file: OrderedFile<'_>, flags: &mut [u8; LENT_HOPS])
    ensures { Reached (file_wiring file.entry.formed.sized.bytes.now) flags.new }
{
    flags.fill(0);
    flags[0] = 1;
    spread_order(file, flags);
    loop {
        if spread_pass(file.formed, flags) == 0 {
            return;
        }
    }
}

// The lowest card without a flag.
fn first_unflagged(file: SizedFile<'_>, flags: &[u8; LENT_HOPS]) -> Option<usize>
    ensures { MatchOption result ((j : ℕ) → j < file.entry.cards → slice_index flags.now j ≢ 0) (λ c. (c < file.entry.cards) × (slice_index flags.now c ≡ 0) × ((j : ℕ) → j < c → slice_index flags.now j ≢ 0)) }
{
    flags[..file.cards].iter().position(|flag| *flag == 0)
}

// The lowest card that can't be reached from card 0, with 9.
pub fn reach_refusal(file: OrderedFile<'_>, flags: &mut [u8; LENT_HOPS]) -> Result<(), Refused>
    ensures { RefusesWith (reach_refusal (file_wiring file.entry.formed.sized.bytes.now)) result }
{
    reach(file, flags);
    match first_unflagged(file.formed.sized, flags) {
        Some(c) => Err(Refused::Unreached(c as u32)),
        None => Ok(()),
    }
}
