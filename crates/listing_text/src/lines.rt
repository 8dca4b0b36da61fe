// The lines of a listing, appended to a text that is zero behind its end.
ghost use Rattle.std.specs.Prelude.{◌≡◌, ◌++◌, ◌+◌, ◌<◌, ◌≤◌, length};
ghost use Rattle.rack.specs.Limits.{most_cards, most_columns};
ghost use Rattle.rack.specs.Lists.{tabulate, blocks};
ghost use Rattle.rack.specs.Refused.{refusal_of};
ghost use Rattle.rack.specs.Words.{word_bit};
ghost use Rattle.text.specs.Decimals.{decimal};
ghost use Rattle.rack.specs.Putting.{Grows};
ghost use Rattle.listing_text.specs.Listing.{number_line, size_lines, column_digit, address_text, card_line, rack_lines};
ghost use Rattle.listing_text.specs.Listing.{place_text, refused_text, SizesFit};

use rack::limits::LENT_WORDS;
use rack::refused::Refused;
use rack::words::word_bit;
use text::put::{Text, digit, put_decimal};

// The sizes of a planned rack, and its addresses in words.
#[derive(Clone, Copy)]
pub struct Rack<'a> {
    pub words: &'a [u64; LENT_WORDS],
    pub cards: usize,
    pub links: usize,
    pub columns: usize,
    pub ghost sizes: { SizesFit cards links columns },
}

// Appends a word and a number.
fn put_word_number(text: &mut Text<'_>, word: &[u8], v: u32)
    requires { text.old.length + length (word.now ++ decimal v) ≤ length text.old.bytes.now }
    ensures { Grows text.old text.new (word.now ++ decimal v) }
{
    text.put_bytes(word);
    put_decimal(text, v);
}

// Appends a line of a word and a number.
fn put_number_line(text: &mut Text<'_>, word: &[u8], v: u32)
    requires { text.old.length + length (number_line word.now v) ≤ length text.old.bytes.now }
    ensures { Grows text.old text.new (number_line word.now v) }
{
    put_word_number(text, word, v);
    text.put_byte(b'\n');
}

// Appends the lines of the three sizes.
fn put_size_lines(text: &mut Text<'_>, rack: Rack<'_>)
    requires { text.old.length + length (size_lines rack.cards rack.links rack.columns) ≤ length text.old.bytes.now }
    ensures { Grows text.old text.new (size_lines rack.entry.cards rack.entry.links rack.entry.columns) }
{
    put_number_line(text, b"cards ", rack.cards as u32);
    put_number_line(text, b"links ", rack.links as u32);
    put_number_line(text, b"columns ", rack.columns as u32);
}

// The code of column `j` of card `c`: 0 or 1.
fn column_digit(words: &[u64; LENT_WORDS], c: usize, j: usize) -> u8
    requires { (c < most_cards) × (j < most_columns) }
    ensures { result ≡ column_digit (word_bit words.now c) j }
{
    digit(u32::from(word_bit(words, c, j)))
}

// Appends the columns of card `c`.
fn put_columns(text: &mut Text<'_>, rack: Rack<'_>, c: usize)
    requires { (c < rack.cards) × (text.old.length + rack.columns ≤ length text.old.bytes.now) }
    ensures { Grows text.old text.new (tabulate rack.entry.columns (column_digit (word_bit rack.entry.words.now c))) }
{
    for j in 0..rack.columns {
        text.put_byte(column_digit(rack.words, c, j));
    }
}

// Appends the address of card `c`, or - where there are no columns.
fn put_address(text: &mut Text<'_>, rack: Rack<'_>, c: usize)
    requires { (c < rack.cards) × (text.old.length + length (address_text rack.columns (word_bit rack.words.now c)) ≤ length text.old.bytes.now) }
    ensures { Grows text.old text.new (address_text rack.entry.columns (word_bit rack.entry.words.now c)) }
{
    if rack.columns == 0 {
        text.put_byte(b'-');
    } else {
        put_columns(text, rack, c);
    }
}

// Appends the line of card `c`.
fn put_card_line(text: &mut Text<'_>, rack: Rack<'_>, c: usize)
    requires { (c < rack.cards) × (text.old.length + length (card_line rack.columns (word_bit rack.words.now) c) ≤ length text.old.bytes.now) }
    ensures { Grows text.old text.new (card_line rack.entry.columns (word_bit rack.entry.words.now) c) }
{
    put_word_number(text, b"card ", c as u32);
    text.put_byte(b' ');
    put_address(text, rack, c);
    text.put_byte(b'\n');
}

// Appends the lines of all cards.
fn put_card_lines(text: &mut Text<'_>, rack: Rack<'_>)
    requires { text.old.length + length (blocks rack.cards (card_line rack.columns (word_bit rack.words.now))) ≤ length text.old.bytes.now }
    ensures { Grows text.old text.new (blocks rack.entry.cards (card_line rack.entry.columns (word_bit rack.entry.words.now))) }
{
    for c in 0..rack.cards {
        put_card_line(text, rack, c);
    }
}

// Appends the lines of an accepted rack.
pub fn put_rack(text: &mut Text<'_>, rack: Rack<'_>)
    requires { text.old.length + length (rack_lines rack.cards rack.links rack.columns (word_bit rack.words.now)) ≤ length text.old.bytes.now }
    ensures { Grows text.old text.new (rack_lines rack.entry.cards rack.entry.links rack.entry.columns (word_bit rack.entry.words.now)) }
{
    put_size_lines(text, rack);
    put_card_lines(text, rack);
}

// Appends the place that a refusal names: a link, a card or nothing.
fn put_place(text: &mut Text<'_>, refused: Refused)
    requires { text.old.length + length (place_text (refusal_of refused)) ≤ length text.old.bytes.now }
    ensures { Grows text.old text.new (place_text (refusal_of refused)) }
{
    match refused {
        Refused::NoEnd(at) | Refused::OneCard(at) | Refused::Parallel(at) | Refused::OddLoop(at) =>
            put_word_number(text, b" link ", at),
        Refused::Unreached(at) => put_word_number(text, b" card ", at),
        _ => {}
    }
}

// Appends the line of a refusal. Not by `write!` of the refusal, which does not promise to succeed where the room is enough, so the text's
// end would be lost.
pub fn put_refused(text: &mut Text<'_>, refused: Refused)
    requires { text.old.length + length (refused_text (refusal_of refused)) ≤ length text.old.bytes.now }
    ensures { Grows text.old text.new (refused_text (refusal_of refused)) }
{
    put_word_number(text, b"refused ", refused.number());
    put_place(text, refused);
    text.put_byte(b'\n');
}
