// Refusals 2 to 8: a file's sizes, and each of its links.
ghost use Rattle.std.specs.Prelude.{◌≡◌, ◌+◌, ◌<◌, IfOk, OnOk};
ghost use Rattle.rack.specs.Refused.{RefusesWith};
ghost use Rattle.rack.specs.WiringFile.{file_wiring, sizes_fault};
ghost use Rattle.rack.specs.Refusals.{link_fault, links_refusal, refusal};
ghost use Rattle.survey.specs.Marks.{Marked};

use rack::bytes::number_at;
use rack::limits::{LENT_HOPS, MOST_CARDS, MOST_LINKS};
use rack::refused::Refused;
use rack::views::{FormedFile, SizedFile};

// How many links may join the same two cards.
const MOST_PARALLEL: u8 = 2;

// The file with its sizes, or 2 to 5.
pub fn sized_file(file: &[u8]) -> Result<SizedFile<'_>, Refused>
    ensures refuses { RefusesWith (refusal (sizes_fault file.now) 0) result }
    ensures same { IfOk result (λ sized. sized.bytes.now ≡ file.now) }
{
    if file.len() < 4 {
        return Err(Refused::NoSizes);
    }
    let cards = number_at(file, 0);
    if cards == 0 || MOST_CARDS < cards {
        return Err(Refused::Cards);
    }
    let links = number_at(file, 2);
    if MOST_LINKS < links {
        return Err(Refused::Links);
    }
    if file.len() != 4 + 4 * links {
        return Err(Refused::Length);
    }
    Ok(SizedFile {
        bytes: file,
        cards,
        links,
    })
}

// 6, 7 or 8 of link `i`; one that passes is marked both ways.
fn link_fault(file: SizedFile<'_>, i: usize, marks: &mut [u8; LENT_HOPS]) -> Result<(), Refused>
    requires { (i < file.links) × Marked (file_wiring file.bytes.now) i marks.old }
    ensures refuses { RefusesWith (refusal (link_fault (file_wiring file.entry.bytes.now) i) i) result }
    ensures marks { OnOk result (Marked (file_wiring file.entry.bytes.now) (i + 1) marks.new) }
{
    let at = i as u32;
    let (p, q) = file.ends(i);
    if file.cards <= p || file.cards <= q {
        return Err(Refused::NoEnd(at));
    }
    if p == q {
        return Err(Refused::OneCard(at));
    }
    let earlier = marks[MOST_CARDS * p + q];
    if MOST_PARALLEL <= earlier {
        return Err(Refused::Parallel(at));
    }
    marks[MOST_CARDS * p + q] = earlier + 1;
    marks[MOST_CARDS * q + p] = earlier + 1;
    Ok(())
}

// The file as one whose links join two different cards, or the lowest link in fault, with 6, 7 or 8.
pub fn formed_file<'a>(
    file: SizedFile<'a>,
    marks: &mut [u8; LENT_HOPS],
) -> Result<FormedFile<'a>, Refused>
    ensures refuses { RefusesWith (links_refusal (file_wiring file.entry.bytes.now)) result }
    ensures same { IfOk result (λ formed. formed.sized.bytes.now ≡ file.entry.bytes.now) }
{
    marks.fill(0);
    for i in 0..file.links {
        link_fault(file, i, marks)?;
    }
    Ok(FormedFile { sized: file })
}
