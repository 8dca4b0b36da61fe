// Lent buffers of any length, that are not zero.
ghost use Rattle.std.specs.Prelude.{◌+◌, ◌≤◌};
ghost use Rattle.rack.specs.Limits.{lent_hops, lent_words};

use crate::calls::{planned, written};
use crate::lines::{cell, number_to};
use crate::shapes::ring;
use rack::limits::{LENT_HOPS, LENT_PLAN, LENT_WORDS};

// One byte more than the hops need.
const MORE_HOPS: usize = LENT_HOPS + 1;

// Planning with `w` words and `h` bytes of hops lent.
fn planned_in(rt: &impl Print, file: &[u8], w: usize, h: usize)
    requires { (w ≤ lent_words) × (h ≤ lent_hops + 1) }
{
    let mut words = [7u64; LENT_WORDS];
    let mut hops = [7u8; MORE_HOPS];
    planned(rt, file, &mut words[..w], &mut hops[..h]);
}

// Planning with all that is needed lent.
pub fn planned_lent(rt: &impl Print, file: &[u8]) {
    planned_in(rt, file, LENT_WORDS, LENT_HOPS);
}

// Planning the first bytes of the file of a ring of four.
pub fn lent(rt: &impl Print, line: &str) {
    let _ = rt.print(cell(line, 4));
    let size = number_to(line, 1, 20);
    planned_in(
        rt,
        &ring(4)[..size],
        number_to(line, 2, LENT_WORDS),
        number_to(line, 3, MORE_HOPS),
    );
}

// Writing the plan of that ring into a lent output.
pub fn output(rt: &impl Print, line: &str) {
    let _ = rt.print(cell(line, 2));
    let mut plan = [7u8; LENT_PLAN];
    let room = number_to(line, 1, LENT_PLAN);
    written(rt, &ring(4)[..20], &mut plan[..room]);
}
