// Addresses copied from a plan, cut or with zeros behind them, and one with a column more.
ghost use Rattle.std.specs.Prelude.{◌≡◌, ◌≢◌, ◌+◌, ◌*◌, ◌/◌, ◌%◌, ◌^◌, ◌<◌, ◌≤◌, length, get_or};
ghost use Rattle.rack.specs.Lists.{tabulate, blocks};
ghost use Rattle.rack.specs.Putting.{Grows};
ghost use Rattle.plan_parts.specs.Parts.{row_byte, row_with_one};

use rack::output::Output;
use rack::views::Plan;

// Appends the addresses of the first `count` cards, each in `wide` bytes: cut, or with zeros behind it.
pub fn put_rows(plan: Plan<'_>, count: usize, wide: usize, output: &mut Output<'_>)
    requires { (count ≤ plan.cards) × (wide ≤ 32) × (output.old.length + count * wide ≤ length output.old.bytes.now) }
    ensures { Grows output.old output.new (blocks count (λ a. tabulate wide (row_byte plan.entry.bytes.now a))) }
{
    let shared = plan.address_size().min(wide);
    for a in 0..count {
        let start = plan.address_start(a);
        output.put_bytes(&plan.bytes[start..start + shared]);
        output.put_zeros(wide - shared);
    }
}

// The lowest `used` bits of the byte at a place, and 1 behind them; where none is used, the byte need not be there.
fn byte_with_one(plan: &[u8], at: usize, used: usize) -> u8
    requires { (used < 8) × (used ≢ 0 → at < length plan.now) }
    ensures { result ≡ get_or plan.now at 0 % 2 ^ used + 2 ^ used }
{
    let weight = 1u8 << used;
    if used == 0 {
        weight
    } else {
        plan[at] % weight + weight
    }
}

// Appends the address of card `a` with a column more, in which it has 1.
pub fn put_row_with_one(plan: Plan<'_>, a: usize, output: &mut Output<'_>)
    requires { (a < plan.cards) × (output.old.length + plan.columns / 8 < length output.old.bytes.now) }
    ensures { Grows output.old output.new (row_with_one plan.entry.bytes.now a) }
{
    let start = plan.address_start(a);
    let last = start + plan.columns / 8;
    output.put_bytes(&plan.bytes[start..last]);
    output.put_byte(byte_with_one(plan.bytes, last, plan.columns % 8));
}
