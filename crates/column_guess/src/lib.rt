// Columns for the links of a rack, guessed in one breadth-first pass from card 0. Nothing is claimed of them: whoever uses them tests the
// plan that they give.
//
// In a rack with addresses every link crosses one column, and with zeros at card 0 a card has 1 in as many columns as it has hops from
// card 0. So a card has the columns of each card before it, and one more. The cards are taken breadth first, and each link that leads to a
// card gets a label for its column. With one card p before it, the card opens a label. With a second one q, the two have the same columns
// but for one each: the link from q crosses the one that p alone has, and the link from p the one that q alone has. Where more than one
// label parts p and q, labels of the two shortest ways on which card 0 leads to them name the same columns: a loop is closed, and in a loop
// the links at opposite places cross the same column, so the labels of one way are renamed to those of the other in reversed order.
// At the end the labels are numbered by their lowest links.
#![tactic(auto)]

ghost use Rattle.std.specs.Prelude.{◌≤◌, IfSome};
ghost use Rattle.rack.specs.Limits.{most_columns};

use labels::Labels;
use link_order::breadth::Breadth;
use rack::limits::LENT_WORDS;
use rack::views::SizedFile;

pub mod labels;
pub mod sets;

// Guesses the columns of a file, and puts the addresses that they give into the words; gives the number of columns, or none where no labels
// fit. A card is led up to card 0 over the first of its links that do, or with `last` over the last.
pub fn guess_columns(
    file: SizedFile<'_>,
    last: bool,
    words: &mut [u64; LENT_WORDS],
) -> Option<usize>
    ensures { IfSome result (λ k. k ≤ most_columns) }
{
    let mut met = Breadth::empty();
    met.meet_all(file);
    if met.cards().len() != file.cards {
        return None;
    }
    let mut labels = Labels::empty(file);
    labels.label_cards(&met, last)?;
    Some(labels.put_addresses(met.cards(), words))
}
