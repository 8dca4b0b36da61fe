// The listing of a wiring file: its lines into a lent buffer.
#![tactic(auto)]

ghost use Rattle.std.specs.Prelude.{◌≡◌, ◌+◌, ◌≤◌, length};
ghost use Rattle.rack.specs.Buffers.{Written};
ghost use Rattle.planner.specs.Answer.{answer_of};
ghost use Rattle.rack.specs.Putting.{Grows};
ghost use Rattle.listing_text.specs.Listing.{listing, ListingSays};
ghost use Rattle.listing_text.specs.Planned.{Planned};

use lines::{Rack, put_rack, put_refused};
use planner::plan_file;
use rack::bytes::number_at;
use rack::limits::{LENT_HOPS, LENT_WORDS, MOST_CARDS, MOST_COLUMNS};
use rack::refused::Refused;
use text::put::Text;

mod lines;

// The length of the lent buffer: room for the three lines of sizes, 33 bytes, and for a line of each card, 10 bytes and its columns.
pub const LENT_TEXT: usize = 33 + MOST_CARDS * (10 + MOST_COLUMNS);

// Appends the listing of a planned file.
fn put_listing(
    text: &mut Text<'_>,
    file: &[u8],
    plan: Result<usize, Refused>,
    words: &[u64; LENT_WORDS],
)
    requires { Planned file.now (answer_of plan) words.now × (text.old.length + length (listing file.now) ≤ length text.old.bytes.now) }
    ensures { Grows text.old text.new (listing file.now) }
{
    match plan {
        Ok(columns) => {
            let rack = Rack {
                words,
                cards: number_at(file, 0),
                links: number_at(file, 2),
                columns,
            };
            put_rack(text, rack);
        }
        Err(refused) => put_refused(text, refused),
    }
}

// Writes the listing of a wiring file, with zeros behind it; gives its length.
pub fn put_listing_text(file: &[u8], text: &mut [u8; LENT_TEXT]) -> u32
    ensures length { result ≡ length (listing file.now) }
    ensures text { Written text.new (listing file.now) }
{
    let mut words = [0u64; LENT_WORDS];
    let mut hops = [0u8; LENT_HOPS];
    let plan = plan_file(file, &mut words, &mut hops);
    let mut lines = Text::new(text);
    put_listing(&mut lines, file, plan, &words);
    lines.length as u32
}

// The same into a lent buffer. Refuses with 1 where it has not 67,873 bytes.
pub fn listing_text(file: &[u8], text: &mut [u8]) -> Result<u32, Refused>
    ensures { ListingSays file.now (answer_of result) text.old text.new }
{
    let Some(text) = text.as_mut_array::<LENT_TEXT>() else {
        return Err(Refused::Lent);
    };
    Ok(put_listing_text(file, text))
}
