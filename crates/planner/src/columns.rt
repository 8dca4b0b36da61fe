// Columns and the words of the addresses: a link opens a column where its ends have the same address so far.
ghost use Rattle.std.specs.Prelude.{◌≡◌, true, false, ℕ, ◌+◌, ◌*◌, ◌/◌, ◌%◌, ◌^◌, ◌<◌, ◌≤◌, MatchOption, get_or, length};
ghost use Rattle.rack.specs.Limits.{most_cards, most_columns};
ghost use Rattle.rack.specs.WiringFile.{file_wiring};
ghost use Rattle.planner.specs.OpenColumns.{ColumnAdded, ColumnsOpened, SameWords, columns_opened, side_in};

use rack::limits::LENT_WORDS;
use survey::measured::MeasuredFile;

// Whether the words of two cards differ. Nothing is counted: one place is enough.
fn words_differ(words: &[u64; LENT_WORDS], a: usize, b: usize) -> bool
    requires { (a < most_cards) × (b < most_cards) }
    ensures differ { result ≡ true → SameWords words.now a b → ⊥ }
    ensures same { result ≡ false → SameWords words.now a b }
{
    (0..4).any(|t| words[4 * a + t] != words[4 * b + t])
}

// Whether card `c` is in the set without card 0 at a link from `p` to `q`.
fn side(file: MeasuredFile<'_>, p: usize, q: usize, c: usize) -> bool
    requires { (p < most_cards) × (q < most_cards) × (c < most_cards) }
    ensures { result ≡ side_in file.entry.hops.now p q c }
{
    (file.between(c, p) < file.between(c, q)) != (file.between(0, p) < file.between(0, q))
}

// Adds column `k`, that of a link from `p` to `q`, to the words of the cards: a sum, since with an `if` the slowest rack that was found
// and accepted took 577 to 582 µs, and without one 549 to 554.
fn add_column(file: MeasuredFile<'_>, p: usize, q: usize, k: usize, words: &mut [u64; LENT_WORDS])
    requires { (p < most_cards) × (q < most_cards) × (k ≤ most_columns) × ((c : ℕ) → c < file.formed.sized.cards → get_or words.old (4 * c + k / 64) 0 < 2 ^ (k % 64)) }
    ensures { ColumnAdded file.entry.hops.now words.old words.new p q k file.entry.formed.sized.cards }
{
    let word = k / 64;
    for c in 0..file.formed.sized.cards {
        words[4 * c + word] += u64::from(side(file, p, q, c)) << (k % 64);
    }
}

// Opens a column for link `i` where the addresses of its ends are equal so far; gives the number of columns, or none where there is no room
// for one more.
fn open_link(
    file: MeasuredFile<'_>,
    i: usize,
    k: usize,
    words: &mut [u64; LENT_WORDS],
) -> Option<usize>
    requires { (i < file.formed.sized.links) × ColumnsOpened (file_wiring file.formed.sized.bytes.now) file.formed.sized.cards i words.old k }
    ensures { MatchOption result (file.entry.formed.sized.cards ≤ length (columns_opened (file_wiring file.entry.formed.sized.bytes.now) (i + 1))) (ColumnsOpened (file_wiring file.entry.formed.sized.bytes.now) file.entry.formed.sized.cards (i + 1) words.new) }
{
    let (p, q) = file.formed.ends(i);
    if words_differ(words, p, q) {
        return Some(k);
    }
    if file.formed.sized.cards <= k + 1 {
        return None;
    }
    add_column(file, p, q, k, words);
    Some(k + 1)
}

// Opens the columns of all links.
pub fn open_columns(file: MeasuredFile<'_>, words: &mut [u64; LENT_WORDS]) -> Option<usize>
    ensures { MatchOption result (file.entry.formed.sized.cards ≤ length (columns_opened (file_wiring file.entry.formed.sized.bytes.now) file.entry.formed.sized.links)) (ColumnsOpened (file_wiring file.entry.formed.sized.bytes.now) file.entry.formed.sized.cards file.entry.formed.sized.links words.new) }
{
    words.fill(0);
    let mut k = 0;
    for i in 0..file.formed.sized.links {
        k = open_link(file, i, k, words)?;
    }
    Some(k)
}
