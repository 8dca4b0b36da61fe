// A plan opened once: its bytes with their three sizes and the sum of their hops, and the calls on it as methods.
#![tactic(auto)]

ghost use Rattle.opened.specs.Opening.{OpeningSays, opened_of};

pub use carried::Opened;
use plan_totals::read_summed;
use rack::refused::Refused;

// Opens a plan: 12, 13.
pub fn open_plan(bytes: &[u8]) -> Result<Opened<'_>, Refused>
    ensures { OpeningSays bytes.now bytes.entry.ref_ptr (opened_of bytes.entry.ref_ptr result) }
{
    let summed = read_summed(bytes)?;
    let plan = summed.read.plan;
    Ok(Opened {
        bytes,
        cards: plan.cards as u32,
        links: plan.links as u32,
        columns: plan.columns as u32,
        total: summed.total,
    })
}
