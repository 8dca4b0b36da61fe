// The listing of a wiring file that is read, to where it is written.
#![tactic(auto)]

ghost use Rattle.std.specs.Prelude.{◌≡◌, ◌≤◌, ◌⊎◌, length, take, IsTrue};
ghost use Rattle.std.specs.Io.KnownBytes.{Appends, Consumes, IsAtEnd};
ghost use Rattle.listing_io.specs.Input.{ListsInput, ListsBytes, PrintsBytes};

use listing_text::{LENT_TEXT, put_listing_text};
use std::io::{Read, Write};

#[cfg(test)]
mod tests;

// At most so many bytes are read.
const MOST_INPUT: usize = 8197;

// What a reading came to: how many bytes there are of it, and whether no read failed. The flag stands beside the count, here and in `Listed`,
// since the bytes before a failed read count, and both are said at once.
#[derive(Clone, Copy, Debug, PartialEq, Eq)]
struct Taken {
    count: usize,
    is_read: bool,
}

// What a listing came to: its length, how many of its bytes are written, and whether no read failed.
#[derive(Clone, Copy, Debug, PartialEq, Eq)]
pub struct Listed {
    pub length: u32,
    pub written: usize,
    pub is_read: bool,
}

// Reads until the buffer is full, the input ends or a read fails. No `for`, since how many bytes come is the reader's affair.
fn read_front<R: Read>(input: &mut R, file: &mut [u8]) -> Taken
    ensures room { result.count ≤ length file.new }
    ensures front { Consumes (R.remaining input.old) (R.remaining input.new) (take result.count file.new) }
    ensures whole { IsTrue result.is_read → (result.count ≡ length file.new) ⊎ IsAtEnd (R.remaining input.new) }
{
    let mut count = 0;
    while count < file.len() {
        match input.read(&mut file[count..]) {
            Ok(0) => break,
            Ok(n) => count += n,
            Err(_) => {
                return Taken {
                    count,
                    is_read: false,
                };
            }
        }
    }
    Taken {
        count,
        is_read: true,
    }
}

// Writes until all of the text is written, or a write fails or takes nothing; gives how many bytes are written. No `for`, since how many
// bytes go is the writer's affair.
fn write_front<W: Write>(output: &mut W, text: &[u8]) -> usize
    ensures room { result ≤ length text.now }
    ensures front { Appends (W.contents output.old) (W.contents output.new) (take result text.now) }
{
    let mut count = 0;
    while count < text.len() {
        match output.write(&text[count..]) {
            Ok(0) | Err(_) => break,
            Ok(n) => count += n,
        }
    }
    count
}

// Reads a wiring file, at most 8,197 bytes of it, and writes its listing.
// A read that fails ends the file, as the end of the input does; a write that fails or takes nothing ends the listing.
pub fn list_wiring<R: Read, W: Write>(input: &mut R, output: &mut W) -> Listed
    ensures { ListsBytes (R.remaining input.old) (R.remaining input.new) (W.contents output.old)
        (W.contents output.new) result }
{
    let mut file = [0u8; MOST_INPUT];
    let mut text = [0u8; LENT_TEXT];
    let taken = read_front(input, &mut file);
    let length = put_listing_text(&file[..taken.count], &mut text);
    let written = write_front(output, &text[..length as usize]);
    Listed {
        length,
        written,
        is_read: taken.is_read,
    }
}

// The same; gives the listing's length.
pub fn print_listing<R: Read, W: Write>(input: &mut R, output: &mut W) -> u32
    ensures length { ListsInput result }
    ensures bytes { PrintsBytes (R.remaining input.old) (R.remaining input.new) (W.contents output.old)
        (W.contents output.new) result }
{
    list_wiring(input, output).length
}
