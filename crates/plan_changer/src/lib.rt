// A plan with one card more on a new last link, and a plan without its last card, written from the plan's own bytes: the old addresses are
// copied, and a card more has the address of the card that it hangs on with one bit more. Nothing is planned again.
#![tactic(auto)]

ghost use Rattle.std.specs.Prelude.{◌≡◌, ◌<◌, length, Err, IfErr, IfOk};
ghost use Rattle.rack.specs.Limits.{most_cards, most_columns, most_links};
ghost use Rattle.rack.specs.Buffers.{Written};
ghost use Rattle.rack.specs.PlanFile.{plan_wiring};
ghost use Rattle.pendant.specs.Pendant.{last_hangs};
ghost use Rattle.plan_changer.specs.Changed.{Known, more_bytes, fewer_bytes};
ghost use Rattle.plan_changer.specs.Changing.{NewPlanIs, add_refusal, new_plan_of, off_refusal};

use plan_parts::links::{last_hangs, put_fewer_ends, put_more_ends};
use plan_parts::rows::{put_row_with_one, put_rows};
use plan_writer::put_sizes;
use rack::limits::{LENT_PLAN, MOST_CARDS, MOST_LINKS};
use rack::output::Output;
use rack::plan_file::address_size;
use rack::refused::Refused;
use rack::views::Plan;

// Writes the plan with a card more on a new last link from `card`; gives its length.
fn put_more(plan: Plan<'_>, card: usize, output: &mut [u8; LENT_PLAN]) -> usize
    requires { (plan.cards < most_cards) × (plan.links < most_links) × (plan.columns < most_columns) × (card < plan.cards) }
    ensures bytes { Written output.new (more_bytes plan.entry.bytes.now card) }
    ensures long { result ≡ length (more_bytes plan.entry.bytes.now card) }
{
    let n = plan.cards;
    let m = plan.links;
    let k = plan.columns;
    let mut written = Output::new(output);
    put_sizes(&mut written, n + 1, m + 1, k + 1);
    put_more_ends(plan.bytes, m, card, n, &mut written);
    put_rows(plan, n, address_size(k + 1), &mut written);
    put_row_with_one(plan, card, &mut written);
    written.length
}

// Writes the plan without its last card, last link and last column; gives its length.
fn put_fewer(plan: Plan<'_>, output: &mut [u8; LENT_PLAN]) -> usize
    requires { (0 < plan.links) × (0 < plan.columns) }
    ensures bytes { Written output.new (fewer_bytes plan.entry.bytes.now) }
    ensures long { result ≡ length (fewer_bytes plan.entry.bytes.now) }
{
    let n = plan.cards - 1;
    let m = plan.links - 1;
    let k = plan.columns - 1;
    let mut written = Output::new(output);
    put_sizes(&mut written, n, m, k);
    put_fewer_ends(plan.bytes, plan.links, m, &mut written);
    put_rows(plan, n, address_size(k), &mut written);
    written.length
}

// Adds a card on a new last link from `card`: 14, 16, or the length of the new plan.
fn add_known(plan: Plan<'_>, card: u32, output: &mut [u8; LENT_PLAN]) -> Result<usize, Refused>
    requires { Known plan }
    ensures { NewPlanIs (add_refusal 0 plan.entry.cards plan.entry.links card) (more_bytes plan.entry.bytes.now card) (new_plan_of result) output.old output.new }
{
    let c = card as usize;
    if plan.cards <= c {
        return Err(Refused::NoCard);
    }
    if plan.cards == MOST_CARDS || plan.links == MOST_LINKS {
        return Err(Refused::Largest);
    }
    Ok(put_more(plan, c, output))
}

// Takes the last card off: 17, or the length of the new plan.
fn take_off_known(plan: Plan<'_>, output: &mut [u8; LENT_PLAN]) -> Result<usize, Refused>
    requires { Known plan }
    ensures { NewPlanIs (off_refusal 0 (last_hangs (plan_wiring plan.entry.bytes.now))) (fewer_bytes plan.entry.bytes.now) (new_plan_of result) output.old output.new }
{
    if !last_hangs(plan) {
        return Err(Refused::NotLast);
    }
    Ok(put_fewer(plan, output))
}

// Adds a card to a plan, or hands on a refusal that comes in its place.
pub fn add_sized(
    plan: Result<Plan<'_>, Refused>,
    card: u32,
    output: &mut [u8; LENT_PLAN],
) -> Result<usize, Refused>
    requires { IfOk plan Known }
    ensures says { IfOk plan.entry (λ p. NewPlanIs (add_refusal 0 p.cards p.links card) (more_bytes p.bytes.now card) (new_plan_of result) output.old output.new) }
    ensures before { IfErr plan.entry (λ e. (result ≡ Err e) × (output.new ≡ output.old)) }
{
    add_known(plan?, card, output)
}

// Takes the last card off a plan, or hands on a refusal that comes in its place.
pub fn take_off_sized(
    plan: Result<Plan<'_>, Refused>,
    output: &mut [u8; LENT_PLAN],
) -> Result<usize, Refused>
    requires { IfOk plan Known }
    ensures says { IfOk plan.entry (λ p. NewPlanIs (off_refusal 0 (last_hangs (plan_wiring p.bytes.now))) (fewer_bytes p.bytes.now) (new_plan_of result) output.old output.new) }
    ensures before { IfErr plan.entry (λ e. (result ≡ Err e) × (output.new ≡ output.old)) }
{
    take_off_known(plan?, output)
}
