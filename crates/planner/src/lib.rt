// The planner: addresses and hops of a rack, and its plan file, from the bytes of a wiring file.
//
// Addresses that differ in as many places as their cards are hops apart embed the rack into a hypercube. Djoković found which racks have
// them: those without odd loops in which each link p-q parts the cards into two convex sets, those nearer to p and those nearer to q.
// Winkler found how many columns they have: relate two links where the one joins the two sets of the other; exactly in such a rack this is
// an equivalence, and each class is a column. Other addresses differ by order, complements and columns in which all cards agree.
//
// So a link has a column: 1 for the cards in the set without card 0. Links of one class have the same column, so no classes are kept: the
// links are taken in rising order, and one opens its column where its ends have the same address so far; an n-th column is one too many.
// Whether the sets are convex is not asked: as Eppstein does (docs/REQUIREMENTS.md, Literature), all pairs of cards are tested at the end. If
// all differ in as many places as they are hops apart, these are the addresses; if not, the rack has none, and 11 is said.
// The tests of 2 to 10 and the hops are those of the crate survey.
#![tactic(auto)]

ghost use Rattle.std.specs.Prelude.{MatchOption};
ghost use Rattle.rack.specs.Columns.{Embedding, address, column_count};
ghost use Rattle.rack.specs.WiringFile.{file_wiring};
ghost use Rattle.planner.specs.Answer.{answer_of};
ghost use Rattle.planner.specs.Stages.{Addressed, FilePlanned, RackPlanned};
ghost use Rattle.planner.specs.Planning.{AddressesFound, Asked, AskedToWrite, PlanFound, PlanSays, WriteSays};

use columns::open_columns;
use counting::ones::ones_table;
use link_order::put_link_order;
use pairs::{CountedWords, words_used};
use plan_writer::put_plan;
use rack::limits::{LENT_HOPS, LENT_PLAN, LENT_WORDS, MOST_LINKS};
use rack::refused::Refused;
use rack::views::{FormedFile, SizedFile};
use survey::hops::{all_hops, parity_refusal};
use survey::links::{formed_file, sized_file};
use survey::measured::{ConnectedFile, MeasuredFile};
use survey::ordered::OrderedFile;
use survey::reach::reach_refusal;

pub mod columns;
pub mod pairs;

// Addresses in the words, and the number of columns; none where the rack has no addresses.
fn address_cards(file: ConnectedFile<'_>, words: &mut [u64; LENT_WORDS]) -> Option<usize>
    ensures { MatchOption result (Embedding (file_wiring file.entry.measured.formed.sized.bytes.now) (column_count (file_wiring file.entry.measured.formed.sized.bytes.now)) (address (file_wiring file.entry.measured.formed.sized.bytes.now)) → ⊥) (Addressed (file_wiring file.entry.measured.formed.sized.bytes.now) words.new) }
{
    let measured = file.measured;
    let k = open_columns(measured, words)?;
    let ones = ones_table();
    // lent once more, to be read alone: the check of borrows asks for it before both stand in one struct
    let words: &[u64; LENT_WORDS] = words;
    let counted = CountedWords {
        ones: &ones,
        words,
        used: words_used(k),
    };
    let cards = measured.formed.sized.cards;
    counted.pairs_measure(measured.hops, cards).then_some(k)
}

// The columns of a connected rack with its hops, whose addresses are put in the words, or 10 or 11.
fn plan_connected(file: ConnectedFile<'_>, words: &mut [u64; LENT_WORDS]) -> Result<usize, Refused>
    ensures { RackPlanned (file_wiring file.entry.measured.formed.sized.bytes.now) (answer_of result) words.new file.entry.measured.hops.now }
{
    parity_refusal(file.measured)?;
    address_cards(file, words).ok_or(Refused::NoAddresses)
}

// The columns of a file that passed 2 to 8, with its plan in the buffers, or 9, 10 or 11. Two lent buffers and no struct over them, here and
// in the two functions below: the public call is lent them so.
fn plan_formed(
    file: FormedFile<'_>,
    words: &mut [u64; LENT_WORDS],
    hops: &mut [u8; LENT_HOPS],
) -> Result<usize, Refused>
    ensures { RackPlanned (file_wiring file.entry.sized.bytes.now) (answer_of result) words.new hops.new }
{
    let mut order = [0u16; MOST_LINKS];
    put_link_order(file, &mut order);
    let ordered = OrderedFile {
        formed: file,
        order: &order,
    };
    reach_refusal(ordered, hops)?;
    all_hops(ordered, hops);
    let measured = MeasuredFile { formed: file, hops };
    plan_connected(ConnectedFile { measured }, words)
}

// The columns of a file that passed 2 to 5, with its plan in the buffers, or 6 to 11.
fn plan_sized(
    file: SizedFile<'_>,
    words: &mut [u64; LENT_WORDS],
    hops: &mut [u8; LENT_HOPS],
) -> Result<usize, Refused>
    ensures { FilePlanned file.entry.bytes.now (answer_of result) words.new hops.new }
{
    let formed = formed_file(file, hops)?;
    plan_formed(formed, words, hops)
}

// The columns of a file, with its plan in the buffers, or 2 to 11.
pub fn plan_file(
    file: &[u8],
    words: &mut [u64; LENT_WORDS],
    hops: &mut [u8; LENT_HOPS],
) -> Result<usize, Refused>
    ensures { FilePlanned file.now (answer_of result) words.new hops.new }
{
    plan_sized(sized_file(file)?, words, hops)
}

// Plans a rack: every card's address and the hops between all cards, or a refusal; the value is the number of columns.
pub fn plan_rack(file: &[u8], words: &mut [u64], hops: &mut [u8]) -> Result<u32, Refused>
    ensures says { PlanSays file.now (answer_of result) words.old words.new hops.old hops.new }
    ensures found { Asked file.now words.old hops.old → AddressesFound (file_wiring file.now) (answer_of result) words.new hops.new }
{
    let Some(words) = words.as_mut_array::<LENT_WORDS>() else {
        return Err(Refused::Lent);
    };
    let Some(hops) = hops.as_mut_array::<LENT_HOPS>() else {
        return Err(Refused::Lent);
    };
    match plan_file(file, words, hops) {
        Ok(k) => Ok(k as u32),
        Err(refused) => {
            words.fill(0);
            hops.fill(0);
            Err(refused)
        }
    }
}

// Writes the plan file of a rack, or a refusal; the value is the used length.
pub fn write_plan(file: &[u8], output: &mut [u8]) -> Result<u32, Refused>
    ensures says { WriteSays file.now (answer_of result) output.old output.new }
    ensures found { AskedToWrite file.now output.old → PlanFound (file_wiring file.now) (answer_of result) output.new }
{
    let Some(output) = output.as_mut_array::<LENT_PLAN>() else {
        return Err(Refused::Lent);
    };
    output.fill(0);
    let sized = sized_file(file)?;
    let mut words = [0u64; LENT_WORDS];
    let mut hops = [0u8; LENT_HOPS];
    let k = plan_sized(sized, &mut words, &mut hops)?;
    Ok(put_plan(sized, k, &words, output) as u32)
}
