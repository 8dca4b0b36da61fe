// A label for the column of each link, card by card breadth first, and the addresses that the labels give. A label is a number from 1 to 255:
// the place in the queue of the card that opens it.
use crate::sets::{self, insert_above, lowest_apart, many_apart};
use arrayvec::ArrayVec;
use link_order::breadth::Breadth;
use link_order::lists::Entry;
use rack::limits::{LENT_WORDS, MOST_CARDS, MOST_COLUMNS, MOST_LINKS};
use rack::views::SizedFile;
use rack::words::word_bit;
use std::iter;

// The label of each link, the labels of each card, and the entry of each card that leads to the card before it.
#[derive(Drop)]
pub struct Labels<'a> {
    file: SizedFile<'a>,
    of_links: [Option<u8>; MOST_LINKS],
    sets: [u64; LENT_WORDS],
    ups: [Option<Entry>; MOST_CARDS],
}

// The first entry of a card that leads to a card of fewer hops, or with `last` the last one.
fn entry_up(met: &Breadth, card: u8, last: bool) -> Option<Entry> {
    let leads_up = |entry: &&Entry| met.hops_of(entry.card) < met.hops_of(card);
    let mut entries = met.lists.entries_of(card).iter();
    let up = if last {
        entries.rfind(leads_up)
    } else {
        entries.find(leads_up)
    };
    up.copied()
}

impl<'a> Labels<'a> {
    ghost use Rattle.std.specs.Prelude.{◌≤◌};
    ghost use Rattle.rack.specs.Limits.{most_columns};

    // No link of a file has a label; made so and filled in place, as the lists of link_order are.
    pub fn empty(file: SizedFile<'a>) -> Self {
        Labels {
            file,
            of_links: [None; MOST_LINKS],
            sets: [0; LENT_WORDS],
            ups: [None; MOST_CARDS],
        }
    }

    // The label of the link of an entry.
    fn label_of(&self, entry: Entry) -> Option<u8> {
        self.of_links[usize::from(entry.link)]
    }

    // The entry of a card that leads to the card before it, none for card 0.
    fn up_of(&self, card: u8) -> Option<Entry> {
        self.ups[usize::from(card)]
    }

    // Puts a label in place of another everywhere.
    fn rename(&mut self, old: u8, new: u8) {
        for c in 0..self.file.cards {
            sets::rename(&mut self.sets, c as u8, old, new);
        }
        for label in &mut self.of_links[..self.file.links] {
            *label = label.map(|x| if x == old { new } else { x });
        }
    }

    // The labels on the way from card `from` up to card 0 that card `other` has not. No way has more links than there is room for.
    fn labels_up(&self, from: u8, other: u8) -> ArrayVec<u8, MOST_CARDS> {
        let mut found = ArrayVec::new();
        let way = iter::successors(self.up_of(from), |up| self.up_of(up.card));
        for up in way.take(MOST_CARDS) {
            if let Some(label) = self.label_of(up)
                && !word_bit(&self.sets, usize::from(other), usize::from(label))
            {
                let _ = found.try_push(label);
            }
        }
        found
    }

    // Closes the loop of the ways from card 0 to `p` and `q`: all labels that part the two but the topmost of each way are renamed, those of
    // the one way to those of the other in reversed order. None where the ways have not as many.
    fn close_loop(&mut self, p: u8, q: u8) -> Option<()> {
        let left = self.labels_up(p, q);
        let right = self.labels_up(q, p);
        if left.len() != right.len() {
            return None;
        }
        let opposite = right.iter().rev().skip(1);
        for (old, new) in left.iter().zip(opposite) {
            self.rename(*old, *new);
        }
        Some(())
    }

    // Labels the links of entries `x` and `y` of a card: each crosses the column that parts the two cards before it, on the other's side.
    fn label_two(&mut self, x: Entry, y: Entry) -> Option<()> {
        let p = x.card;
        let q = y.card;
        if many_apart(&self.sets, p, q) {
            self.close_loop(p, q)?;
        }
        let new = lowest_apart(&self.sets, q, p)?;
        if let Some(old) = self.label_of(x)
            && old != new
        {
            self.rename(old, new);
        }
        self.of_links[usize::from(x.link)] = Some(new);
        self.of_links[usize::from(y.link)] = lowest_apart(&self.sets, p, q);
        Some(())
    }

    // Labels the links of a card that lead up, where there are links to more than one card above; `up` is one of them. None where a link
    // leads to as many hops as the card has (an odd loop), or where no labels fit.
    fn label_ups(&mut self, met: &Breadth, card: u8, up: Entry) -> Option<()> {
        let hops = met.hops_of(card);
        for entry in met.lists.entries_of(card) {
            if met.hops_of(entry.card) == hops {
                return None;
            }
            if met.hops_of(entry.card) < hops && entry.card != up.card {
                self.label_two(up, *entry)?;
            }
        }
        Some(())
    }

    // Labels the links that lead up from each card that is met but the first, with the labels of the cards and the entries that lead up.
    // None where no labels fit. No link has a label at entry.
    pub fn label_cards(&mut self, met: &Breadth, last: bool) -> Option<()> {
        for (opened, card) in (1..=u8::MAX).zip(met.cards().iter().skip(1)) {
            let up = entry_up(met, *card, last)?;
            self.label_ups(met, *card, up)?;
            let label = *self.of_links[usize::from(up.link)].get_or_insert(opened);
            insert_above(&mut self.sets, *card, up.card, label);
            self.ups[usize::from(*card)] = Some(up);
        }
        Some(())
    }

    // The column of each label, in the order of the links that have them, in a buffer without columns at entry; gives how many they are.
    fn number_labels(&self, columns: &mut [Option<u8>; 256]) -> usize
        ensures { result ≤ most_columns }
    {
        let mut k = 0;
        for label in self.of_links[..self.file.links].iter().flatten() {
            let column = &mut columns[usize::from(*label)];
            if column.is_none() && k < MOST_COLUMNS {
                *column = Some(k as u8);
                k += 1;
            }
        }
        k
    }

    // Puts the addresses of the cards into the words: each card but the first has that of the card before it, with the column of the link
    // between them. Gives how many the columns are.
    pub fn put_addresses(&self, cards: &[u8], words: &mut [u64; LENT_WORDS]) -> usize
        ensures { result ≤ most_columns }
    {
        let mut columns = [None; 256];
        let k = self.number_labels(&mut columns);
        words.fill(0);
        for card in cards {
            if let Some(up) = self.up_of(*card)
                && let Some(label) = self.label_of(up)
                && let Some(column) = columns[usize::from(label)]
            {
                insert_above(words, *card, up.card, column);
            }
        }
        k
    }
}
