// Zeros: the spare bits of all addresses, and the address of card 0.
ghost use Rattle.std.specs.Prelude.{◌≡◌, true, ◌<◌};
ghost use Rattle.rack.specs.PlanFile.{plan_bit};
ghost use Rattle.plan_tests.specs.Tests.{first_zero, spare_card, spare_zero};

use rack::views::Plan;

// Whether the bits behind the last column are zero in the last byte of card `c`.
fn spare_card(plan: Plan<'_>, c: usize) -> bool
    requires { c < plan.cards }
    ensures { result ≡ spare_card plan.entry.columns (plan_bit plan.entry.bytes.now) c }
{
    let whole = plan.columns / 8;
    plan.address_size() == whole || plan.address(c)[whole] < 1u8 << (plan.columns % 8)
}

// The same of all cards.
pub fn spare_zero(plan: Plan<'_>) -> bool
    ensures { result ≡ spare_zero plan.entry.cards plan.entry.columns (plan_bit plan.entry.bytes.now) }
{
    (0..plan.cards).all(|c| spare_card(plan, c))
}

// Whether card 0 has zeros, where the spare bits are zero.
pub fn first_zero(plan: Plan<'_>) -> bool
    requires { spare_zero plan.cards plan.columns (plan_bit plan.bytes.now) ≡ true }
    ensures { result ≡ first_zero plan.entry.columns (plan_bit plan.entry.bytes.now) }
{
    plan.address(0).iter().all(|byte| *byte == 0)
}
