// A plan's layout: refusal 12, or the plan seen with its sizes.
ghost use Rattle.std.specs.Prelude.{◌≡◌, IfOk};
ghost use Rattle.reader.specs.Reading.{LayoutSays, sizes_of};

use rack::bytes::number_at;
use rack::limits::{MOST_CARDS, MOST_COLUMNS, MOST_LINKS};
use rack::plan_file::{address_size, address_start};
use rack::refused::Refused;
use rack::views::Plan;

// A plan with its sizes, or 12.
pub fn plan_layout(plan: &[u8]) -> Result<Plan<'_>, Refused>
    ensures says { LayoutSays plan.now (sizes_of result) }
    ensures bytes { IfOk result (λ p. p.bytes ≡ plan.entry) }
{
    if plan.len() < 6 {
        return Err(Refused::Layout);
    }
    let n = number_at(plan, 0);
    let m = number_at(plan, 2);
    let k = number_at(plan, 4);
    if n == 0 || MOST_CARDS < n || MOST_LINKS < m || MOST_COLUMNS < k {
        return Err(Refused::Layout);
    }
    if plan.len() != address_start(m, address_size(k), n) {
        return Err(Refused::Layout);
    }
    Ok(Plan {
        bytes: plan,
        cards: n,
        links: m,
        columns: k,
    })
}
