// The sets of cards that the cards cover, four words a card: the far sides of each link are joined to the sets of its ends.
// The words stay flat: the definitions and rack's bits speak of flat words, and rows of four would need each law once more.
ghost use Rattle.std.specs.Prelude.{◌≡◌, cond, ◌≢◌, ℕ, ◌+◌, ◌*◌, ◌-◌, ◌<◌, ◌≤◌, get_or};
ghost use Rattle.rack.specs.Limits.{most_cards};
ghost use Rattle.rack.specs.PlanFile.{plan_bit, plan_wiring};
ghost use Rattle.plan_tests.specs.Tests.{cards_covered};
ghost use Rattle.plan_cover.specs.Covers.{CoverWords, FullWords, SingleWords, WordsJoined, words_full};

use card_sets::columns::column_sets;
use plan_tests::order::CrossedPlan;
use rack::limits::LENT_WORDS;
use rack::views::Plan;

// The set of all cards.
fn full_words(plan: Plan<'_>) -> [u64; 4]
    ensures { FullWords plan.entry.cards result }
{
    let mut full = [0u64; 4];
    for c in 0..plan.cards {
        full[c / 64] += 1u64 << (c % 64);
    }
    full
}

// For each card the set of that card alone.
fn single_sets(plan: Plan<'_>) -> [u64; LENT_WORDS]
    ensures { SingleWords plan.entry.cards result }
{
    let mut cover = [0u64; LENT_WORDS];
    for a in 0..plan.cards {
        // Not rack's `set_bit`: it says bits alone, and no fact bounds an array's words by 2 ^ 64, as their equality to sets of 64 bits needs.
        cover[4 * a + a / 64] = 1u64 << (a % 64);
    }
    cover
}

// The far side of a link in a word, from its column's word: the rest of the cards where the end has 1 in it.
fn far_word(column: u64, full: u64, rest: bool) -> u64
    requires { column ≤ full }
    ensures is { result ≡ cond rest (full - column) column }
    ensures inside { result ≤ full }
{
    if rest { full - column } else { column }
}

// Joins the far side of a link to the set of its end `p`, and the rest of the cards to that of its end `q`.
fn join_sides(
    columns: &[u64; LENT_WORDS],
    full: &[u64; 4],
    p: usize,
    q: usize,
    j: usize,
    rest: bool,
    cover: &mut [u64; LENT_WORDS],
)
    requires { (p < most_cards) × (q < most_cards) × (p ≢ q) × (j < most_cards) × ((t : ℕ) → t < 4 → get_or columns.now (4 * j + t) 0 ≤ get_or full.now t 0) }
    ensures { WordsJoined columns.now full.now p q j rest cover.old cover.new 4 }
{
    for t in 0..4 {
        let side = far_word(columns[4 * j + t], full[t], rest);
        cover[4 * p + t] |= side;
        cover[4 * q + t] |= full[t] - side;
    }
}

// The sets that the cards cover: the far sides of all links are joined to the sets of their ends.
fn cover_sets(crossed: CrossedPlan<'_, '_>) -> [u64; LENT_WORDS]
    ensures { CoverWords crossed.entry.linked.plan.cards crossed.entry.linked.plan.columns (plan_bit crossed.entry.linked.plan.bytes.now) (plan_wiring crossed.entry.linked.plan.bytes.now).links result }
{
    let plan = crossed.linked.plan;
    let columns = column_sets(plan);
    let full = full_words(plan);
    let mut cover = single_sets(plan);
    for i in 0..plan.links {
        let (p, q) = plan.ends(i);
        let j = usize::from(crossed.crossed[i]);
        join_sides(&columns, &full, p, q, j, plan.bit(p, j), &mut cover);
    }
    cover
}

// Whether every card's set is full.
fn words_full(plan: Plan<'_>, cover: &[u64; LENT_WORDS]) -> bool
    ensures { result ≡ words_full plan.entry.cards cover.now }
{
    let full = full_words(plan);
    (0..4 * plan.cards).all(|i| cover[i] == full[i % 4])
}

// Whether every card covers all cards.
pub fn cards_covered(crossed: CrossedPlan<'_, '_>) -> bool
    ensures { result ≡ cards_covered (plan_wiring crossed.entry.linked.plan.bytes.now) crossed.entry.linked.plan.columns (plan_bit crossed.entry.linked.plan.bytes.now) }
{
    words_full(crossed.linked.plan, &cover_sets(crossed))
}
