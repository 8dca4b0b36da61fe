// Sets of labels or of columns, numbers below 256, as bits in words: four words a card. They stand in a flat array, as in lent words, since
// rack's bits do; the words of one card are a chunk of it.
use rack::limits::LENT_WORDS;
use rack::words::{set_bit, word_bit};
use std::array;

// Puts a label in place of another where a card has it.
pub fn rename(sets: &mut [u64; LENT_WORDS], card: u8, old: u8, new: u8) {
    let c = usize::from(card);
    let j = usize::from(old);
    if word_bit(sets, c, j) {
        sets[4 * c + j / 64] &= !(1 << (j % 64));
        set_bit(sets, c, usize::from(new));
    }
}

// Gives a card the labels of card `from` and one label more.
pub fn insert_above(sets: &mut [u64; LENT_WORDS], card: u8, from: u8, label: u8) {
    let (rows, _) = sets.as_chunks_mut::<4>();
    rows[usize::from(card)] = rows[usize::from(from)];
    set_bit(sets, usize::from(card), usize::from(label));
}

// The labels of card `a` that card `b` has not, as bits in words.
fn apart(sets: &[u64; LENT_WORDS], a: u8, b: u8) -> [u64; 4] {
    let (rows, _) = sets.as_chunks::<4>();
    let x = rows[usize::from(a)];
    let y = rows[usize::from(b)];
    array::from_fn(|t| x[t] & !y[t])
}

// The lowest label of card `a` that card `b` has not.
pub fn lowest_apart(sets: &[u64; LENT_WORDS], a: u8, b: u8) -> Option<u8> {
    let words = apart(sets, a, b);
    let t = words.iter().position(|word| *word != 0)?;
    let i = (0..64).find(|i| (words[t] >> i) % 2 == 1)?;
    Some((64 * t) as u8 | i)
}

// Whether card `a` has more than one label that card `b` has not: a second one in the first word that holds one, or one in another word.
pub fn many_apart(sets: &[u64; LENT_WORDS], a: u8, b: u8) -> bool {
    let words = apart(sets, a, b);
    let mut held = words.iter().filter(|word| **word != 0);
    held.next()
        .is_some_and(|word| *word & word.wrapping_sub(1) != 0)
        || held.next().is_some()
}
