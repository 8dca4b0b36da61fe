// The plan's bytes, written into a lent buffer: sizes, ends of the links, addresses.
#![tactic(auto)]

ghost use Rattle.std.specs.Prelude.{◌≡◌, ◌+◌, ◌*◌, ◌<◌, ◌≤◌, ◌++◌, length};
ghost use Rattle.rack.specs.Limits.{most_cards, most_columns};
ghost use Rattle.rack.specs.Lists.{tabulate, blocks};
ghost use Rattle.rack.specs.Buffers.{two_bytes, Written};
ghost use Rattle.rack.specs.Putting.{Grows};
ghost use Rattle.plan_writer.specs.Writing.{end_pair, word_byte, written_bytes};

use rack::bytes::number_at;
use rack::limits::{LENT_PLAN, LENT_WORDS};
use rack::output::Output;
use rack::plan_file::address_size;
use rack::views::SizedFile;

// Appends the three sizes, as numbers, since the plan is still to be written.
pub fn put_sizes(output: &mut Output<'_>, n: usize, m: usize, k: usize)
    requires { output.old.length + 6 ≤ length output.old.bytes.now }
    ensures { Grows output.old output.new (two_bytes n ++ two_bytes m ++ two_bytes k) }
{
    output.put_number(n);
    output.put_number(m);
    output.put_number(k);
}

// Appends the ends of the links, number by number: of the bytes behind a struct it is not known that they are below 256, so the goal that
// those of the file itself are the numbers' two bytes stays open.
fn put_ends(file: SizedFile<'_>, output: &mut Output<'_>)
    requires { output.old.length + 4 * file.links ≤ length output.old.bytes.now }
    ensures { Grows output.old output.new (blocks (2 * file.entry.links) (end_pair file.entry.bytes.now)) }
{
    for i in 0..2 * file.links {
        output.put_number(number_at(file.bytes, 4 + 2 * i));
    }
}

// Byte `t` of the words of card `c`: a byte at once, since eight bits out of the words, put together, would be longer.
fn address_byte(words: &[u64; LENT_WORDS], c: usize, t: usize) -> u8
    requires { (c < most_cards) × (t < 32) }
    ensures { result ≡ word_byte words.now c t }
{
    words[4 * c + t / 8].to_le_bytes()[t % 8]
}

// Appends the first `size` bytes of the words of card `c`.
fn put_address(words: &[u64; LENT_WORDS], c: usize, size: usize, output: &mut Output<'_>)
    requires { (c < most_cards) × (size ≤ 32) × (output.old.length + size ≤ length output.old.bytes.now) }
    ensures { Grows output.old output.new (tabulate size (word_byte words.now c)) }
{
    for t in 0..size {
        output.put_byte(address_byte(words, c, t));
    }
}

// Appends the addresses of `n` cards.
fn put_addresses(words: &[u64; LENT_WORDS], n: usize, size: usize, output: &mut Output<'_>)
    requires { (n ≤ most_cards) × (size ≤ 32) × (output.old.length + n * size ≤ length output.old.bytes.now) }
    ensures { Grows output.old output.new (blocks n (λ c. tabulate size (word_byte words.now c))) }
{
    for c in 0..n {
        put_address(words, c, size, output);
    }
}

// Writes the plan of a file whose addresses, of `k` columns, are in the words; gives its length.
pub fn put_plan(
    file: SizedFile<'_>,
    k: usize,
    words: &[u64; LENT_WORDS],
    output: &mut [u8; LENT_PLAN],
) -> usize
    requires { k ≤ most_columns }
    ensures bytes { Written output.new (written_bytes file.entry.bytes.now words.now k) }
    ensures long { result ≡ length (written_bytes file.entry.bytes.now words.now k) }
{
    let mut written = Output::new(output);
    put_sizes(&mut written, file.cards, file.links, k);
    put_ends(file, &mut written);
    put_addresses(words, file.cards, address_size(k), &mut written);
    written.length
}
