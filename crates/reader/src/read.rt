// Reading a plan: refusal 13, by comparison with the plan that the planner writes for the wiring inside; and a card's address.
ghost use Rattle.std.specs.Prelude.{◌≡◌, ◌+◌, ◌*◌, ◌≤◌, ◌↔◌, ◌++◌, length, take, drop, slice_index, EachIndex, Err, IfErr, IfOk, IsTrue};
ghost use Rattle.reader.specs.Plan.{content_holds};
ghost use Rattle.reader.specs.ReadPlans.{plan_of};
ghost use Rattle.reader.specs.Reading.{AddressSays, PartIs, ReadSays, address_refusal, card_refusal, sizes_of};
ghost use Rattle.rack.specs.Refused.{number_of};

use crate::layout::plan_layout;
use crate::views::ReadPlan;
use planner::write_plan;
use rack::limits::{LENT_PLAN, MOST_LINKS};
use rack::output::Output;
use rack::refused::Refused;
use rack::views::Plan;

// Whether `written` begins with the bytes of `plan`: one by one, since `==` of slices calls memcmp, which the C library may not.
fn begins_with(written: &[u8], plan: &[u8]) -> bool
    requires { length plan.now ≤ length written.now }
    ensures { IsTrue result ↔ EachIndex plan.now (λ k. slice_index written.now k ≡ slice_index plan.now k) }
{
    written.iter().zip(plan).all(|(x, y)| x == y)
}

// The wiring file inside a plan: its first 4 bytes, and the ends of its links from byte 6 on.
fn inner_file(plan: Plan<'_>, file: &mut [u8; 4 + 4 * MOST_LINKS])
    ensures { take (4 + 4 * plan.entry.links) file.new ≡ take 4 (drop 0 plan.entry.bytes.now) ++ take (4 * plan.entry.links) (drop 6 plan.entry.bytes.now) }
{
    let mut written = Output::new(file);
    written.put_bytes(&plan.bytes[0..4]);
    written.put_bytes(&plan.bytes[6..6 + 4 * plan.links]);
}

// Whether a plan has the content that the planner writes for the wiring inside.
fn content_holds(plan: Plan<'_>) -> bool
    ensures { result ≡ content_holds plan.entry.bytes.now }
{
    let mut file = [0u8; 4 + 4 * MOST_LINKS];
    inner_file(plan, &mut file);
    let mut written = [0u8; LENT_PLAN];
    // A match and no `is_ok_and`, whose closure, two tests joined by &&, leaves the goal `returns` open.
    match write_plan(&file[0..4 + 4 * plan.links], &mut written) {
        Ok(length) => length as usize == plan.bytes.len() && begins_with(&written, plan.bytes),
        Err(_) => false,
    }
}

// Reads a plan: 12, 13, or the plan with its sizes.
pub fn read_plan(plan: &[u8]) -> Result<ReadPlan<'_>, Refused>
    ensures says { ReadSays plan.now (sizes_of (plan_of result)) }
    ensures bytes { IfOk result (λ r. r.plan.bytes ≡ plan.entry) }
{
    let sized = plan_layout(plan)?;
    if content_holds(sized) {
        Ok(ReadPlan { plan: sized })
    } else {
        Err(Refused::Content)
    }
}

// A card's address, as that part of the plan's own bytes, or 14.
pub fn address_in<'a>(plan: Plan<'a>, card: u32) -> Result<&'a [u8], Refused>
    ensures part { IfOk result (PartIs 0 plan.entry.bytes.now plan.entry.bytes.ref_ptr card) }
    ensures refusal { number_of result ≡ card_refusal 0 plan.entry.cards card }
{
    let c = card as usize;
    if plan.cards <= c {
        return Err(Refused::NoCard);
    }
    Ok(plan.address(c))
}

// The same of a plan, or of a refusal that comes in its place and is handed on.
pub fn address_sized<'a>(sized: Result<Plan<'a>, Refused>, card: u32) -> Result<&'a [u8], Refused>
    ensures part { IfOk sized.entry (λ p. IfOk result (PartIs 0 p.bytes.now p.bytes.ref_ptr card)) }
    ensures refusal { IfOk sized.entry (λ p. number_of result ≡ card_refusal 0 p.cards card) }
    ensures before { IfErr sized.entry (λ e. result ≡ Err e) }
{
    address_in(sized?, card)
}

// A card's address, as that part of the plan's own bytes: 12, 13, 14.
pub fn card_address(plan: &[u8], card: u32) -> Result<&[u8], Refused>
    ensures part { IfOk result (AddressSays plan.now plan.entry.ref_ptr card) }
    ensures refusal { number_of result ≡ address_refusal plan.now card }
{
    address_sized(Ok(read_plan(plan)?.plan), card)
}
