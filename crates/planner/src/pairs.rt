// The test of all pairs: addresses that differ in as many places as there are hops.
ghost use Rattle.std.specs.Prelude.{◌≡◌, ◌+◌, ◌/◌, ◌≤◌};
ghost use Rattle.rack.specs.Limits.{most_columns};
ghost use Rattle.planner.specs.OpenColumns.{WordsUsed};

use counting::ones::Ones;
use counting::places::word_hamming;
use rack::limits::{LENT_HOPS, LENT_WORDS, MOST_CARDS};

// The words of the cards' addresses, with the table of ones that counts their differing places. Those of a card from `used` on are zero.
#[derive(Clone, Copy)]
pub struct CountedWords<'a> {
    pub ones: &'a Ones,
    pub words: &'a [u64; LENT_WORDS],
    pub used: usize,
    pub ghost zero: { WordsUsed words.now used },
}

// The words in which `k` columns stand.
pub fn words_used(k: usize) -> usize
    requires { k ≤ most_columns }
    ensures { result ≡ (k + 63) / 64 }
{
    (k + 63) / 64
}

impl<'a> CountedWords<'a> {
    ghost use Rattle.std.specs.Prelude.{◌≡◌, true, false, ◌<◌, ◌≤◌};
    ghost use Rattle.rack.specs.Limits.{most_cards};
    ghost use Rattle.planner.specs.OpenColumns.{PairsMeasure, part_hamming, words_hamming};

    // The places in which words `t` of two cards differ.
    fn part_hamming(self, a: usize, b: usize, t: usize) -> u32
        requires { (a < most_cards) × (b < most_cards) × (t < 4) }
        ensures is { result ≡ part_hamming self.entry.words.now a b t }
        ensures few { result ≤ 64 }
    {
        word_hamming(self.ones, self.words[4 * a + t], self.words[4 * b + t])
    }

    // The places in which the words of two cards differ. Where the first alone is used, the others can't matter and are not counted.
    fn card_hamming(self, a: usize, b: usize) -> u32
        requires { (a < most_cards) × (b < most_cards) }
        ensures { result ≡ words_hamming self.entry.words.now a b }
    {
        let p = self.part_hamming(a, b, 0);
        if self.used <= 1 {
            return p;
        }
        let q = self.part_hamming(a, b, 1);
        let r = self.part_hamming(a, b, 2);
        let s = self.part_hamming(a, b, 3);
        p + q + r + s
    }

    // Whether every pair of cards has as many differing places as hops; both loops are left at the first pair that has not, by a label, since
    // docs/REQUIREMENTS.md asks for this form.
    pub fn pairs_measure(self, hops: &[u8; LENT_HOPS], n: usize) -> bool
        requires { n ≤ most_cards }
        ensures holds { result ≡ true → PairsMeasure self.entry.words.now hops.now n }
        ensures fails { result ≡ false → PairsMeasure self.entry.words.now hops.now n → ⊥ }
    {
        let mut measured = true;
        'pairs: for a in 0..n {
            for b in 0..a {
                if self.card_hamming(a, b) != u32::from(hops[MOST_CARDS * a + b]) {
                    measured = false;
                    break 'pairs;
                }
            }
        }
        measured
    }
}
