// The cards with 1 in a column, as a set of four words, for all columns: eight cards and eight columns at a time, as the bytes of a word.
ghost use Rattle.std.specs.Prelude.{◌≡◌, ℕ, ◌+◌, ◌*◌, ◌^◌, ◌<◌, ◌≤◌, get_or, length};
ghost use Rattle.rack.specs.Bits.{bits_value, number_bit};
ghost use Rattle.rack.specs.Limits.{lent_plan, lent_words};
ghost use Rattle.rack.specs.PlanFile.{address_size, plan_bit};
ghost use Rattle.card_sets.specs.Sets.{ColumnWords};
ghost use Rattle.card_sets.specs.WordBytes.{BytesPut, EightWritten, Spreads, bytes_value};

use rack::limits::LENT_WORDS;
use rack::plan_file::address_start;
use rack::views::Plan;

// For each byte the word that has one of its bits in each of its own bytes, to be lent.
#[derive(Drop)]
struct Spread {
    words: [u64; 256],
    ghost spreads: { Spreads words },
}

impl Spread {
    ghost use Rattle.std.specs.Prelude.{◌≡◌};
    ghost use Rattle.card_sets.specs.WordBytes.{spread};

    // The word of a byte.
    fn byte_spread(&self, x: u8) -> u64
        ensures { result ≡ spread x }
    {
        self.words[usize::from(x)]
    }
}

// The words of all bytes, each from that of its half.
fn spread_words() -> Spread {
    let mut words = [0u64; 256];
    for x in 1..256 {
        // A usize has no From to u64.
        words[x] = 256 * words[x / 2] + (x % 2) as u64;
    }
    Spread { words }
}

// Eight columns of `count` cards, a byte a column with a bit for each card. The cards' bytes stand `size` apart, from `at` on.
fn eight_cards(spread: &Spread, bytes: &[u8], at: usize, size: usize, count: usize) -> u64
    requires { (count ≤ 8) × (length bytes.now ≤ lent_plan) × ((i : ℕ) → i < count → at + i * size < length bytes.now) }
    ensures { result ≡ bytes_value 8 (λ j. bits_value count (λ i. number_bit (get_or bytes.now (at + i * size) 0) j)) }
{
    let mut word = 0;
    for i in (0..count).rev() {
        word = 2 * word + spread.byte_spread(bytes[at + i * size]);
    }
    word
}

// Puts each byte of a word below the bits of another word, of every fourth one from `at` on.
fn put_bytes(word: u64, at: usize, columns: &mut [u64; LENT_WORDS])
    requires { (at + 28 < lent_words) × ((j : ℕ) → j < 8 → get_or columns.old (at + 4 * j) 0 < 2 ^ 56) }
    ensures { BytesPut word at columns.old columns.new 8 }
{
    for (j, byte) in word.to_le_bytes().iter().enumerate() {
        columns[at + 4 * j] = u64::from(*byte) + 256 * columns[at + 4 * j];
    }
}

// Word `t` of the sets of eight columns, those of byte `b` of an address, in words that are zero: some of those of one array.
fn eight_columns(
    spread: &Spread,
    plan: Plan<'_>,
    b: usize,
    t: usize,
    columns: &mut [u64; LENT_WORDS],
)
    requires { (b < address_size plan.columns) × (t < 4) × ((j : ℕ) → j < 8 → get_or columns.old (32 * b + t + 4 * j) 0 ≡ 0) }
    ensures { EightWritten plan.entry.cards (plan_bit plan.entry.bytes.now) b t columns.old columns.new }
{
    let size = plan.address_size();
    for u in (0..8).rev() {
        let first = 64 * t + 8 * u;
        let count = plan.cards.saturating_sub(first).min(8);
        // Not the plan's own method: the first of eight may lie behind the last card.
        let start = address_start(plan.links, size, first);
        let word = eight_cards(spread, plan.bytes, start + b, size, count);
        put_bytes(word, 32 * b + t, columns);
    }
}

// The sets of all columns, in flat words, of which the definitions and rack's bits speak.
pub fn column_sets(plan: Plan<'_>) -> [u64; LENT_WORDS]
    ensures { ColumnWords plan.entry.cards plan.entry.columns (plan_bit plan.entry.bytes.now) result }
{
    let spread = spread_words();
    let mut columns = [0u64; LENT_WORDS];
    for v in 0..4 * plan.address_size() {
        eight_columns(&spread, plan, v / 4, v % 4, &mut columns);
    }
    columns
}
