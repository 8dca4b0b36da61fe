// Bits in words: four words for each of the most cards, a bit for each number below 256, be it a column or a card.
ghost use Rattle.std.specs.Prelude.{◌≡◌, ◌<◌};
ghost use Rattle.rack.specs.Limits.{most_cards};
ghost use Rattle.rack.specs.Words.{BitSet, word_bit};

use crate::limits::LENT_WORDS;

// Whether card `c` has bit `j`.
pub fn word_bit(words: &[u64; LENT_WORDS], c: usize, j: usize) -> bool
    requires { (c < most_cards) × (j < most_cards) }
    ensures { result ≡ word_bit words.now c j }
{
    (words[4 * c + j / 64] >> (j % 64)) % 2 == 1
}

// Gives card `c` bit `j`.
pub fn set_bit(words: &mut [u64; LENT_WORDS], c: usize, j: usize)
    requires { (c < most_cards) × (j < most_cards) }
    ensures { BitSet c j words.old words.new }
{
    words[4 * c + j / 64] |= 1u64 << (j % 64);
}
