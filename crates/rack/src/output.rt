// Bytes and numbers, appended to a lent buffer where what is written of it ends.
ghost use Rattle.std.specs.Prelude.{◌≡◌, [], ◌∷◌, ◌+◌, ◌<◌, ◌≤◌, length, replicate};
ghost use Rattle.rack.specs.Buffers.{four_bytes, two_bytes, Written};
ghost use Rattle.rack.specs.Putting.{Grows};

use crate::bytes::{put_number, put_number32};

// The buffer, and how many of its bytes are written; behind them it is zero.
#[derive(Drop)]
pub struct Output<'a> {
    pub bytes: &'a mut [u8],
    pub length: usize,
}

impl<'a> Output<'a> {
    // Nothing is written of the buffer yet, which is filled with zeros.
    pub fn new(bytes: &'a mut [u8]) -> Self
        ensures same { result.bytes.ghost_name ≡ bytes.entry.ghost_name }
        ensures room { length result.bytes.now ≡ length bytes.old }
        ensures start { result.length ≡ 0 }
        ensures zeros { Written result.bytes.now [] }
    {
        bytes.fill(0);
        Output { bytes, length: 0 }
    }

    // Appends a byte.
    pub fn put_byte(&mut self, b: u8)
        requires { self.old.length < length self.old.bytes.now }
        ensures { Grows self.old self.new (b ∷ []) }
    {
        self.bytes[self.length] = b;
        self.length += 1;
    }

    // Appends bytes.
    pub fn put_bytes(&mut self, bytes: &[u8])
        requires { self.old.length + length bytes.now ≤ length self.old.bytes.now }
        ensures { Grows self.old self.new bytes.now }
    {
        let end = self.length + bytes.len();
        copy_each(bytes, &mut self.bytes[self.length..end]);
        self.length = end;
    }

    // Appends zeros, which stand there already.
    pub fn put_zeros(&mut self, count: usize)
        requires { self.old.length + count ≤ length self.old.bytes.now }
        ensures { Grows self.old self.new (replicate count 0) }
    {
        self.length += count;
    }

    // Appends a number of 16 bits, low byte first.
    pub fn put_number(&mut self, v: usize)
        requires { self.old.length + 2 ≤ length self.old.bytes.now }
        ensures { Grows self.old self.new (two_bytes v) }
    {
        put_number(self.bytes, self.length, v);
        self.length += 2;
    }

    // Appends a number of 32 bits.
    pub fn put_number32(&mut self, v: u32)
        requires { self.old.length + 4 ≤ length self.old.bytes.now }
        ensures { Grows self.old self.new (four_bytes v) }
    {
        put_number32(self.bytes, self.length, v);
        self.length += 4;
    }
}

// Copies bytes one by one: a copy of so many at once would call memmove, which the C library may not.
fn copy_each(from: &[u8], to: &mut [u8])
    requires { length to.old ≡ length from.now }
    ensures { to.new ≡ from.now }
{
    for i in 0..from.len() {
        to[i] = from[i];
    }
}
