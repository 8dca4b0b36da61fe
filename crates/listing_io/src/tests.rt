// Listings by readers that give a few bytes at a time and writers that take a few at a time, to their end or until one fails.
use super::*;
use std::alloc::Global;
use std::io;

// Gives its bytes in pieces, and then ends or fails.
#[derive(Drop)]
struct Pieces<'a> {
    left: &'a [u8],
    fails: bool,
}

impl Read for Pieces<'_> {
    fn read(&mut self, buf: &mut [u8]) -> io::Result<usize> {
        if self.left.is_empty() && self.fails {
            return Err(io::Error::from(io::ErrorKind::BrokenPipe));
        }
        let most = buf.len().min(3);
        self.left.read(&mut buf[..most])
    }
}

// Takes pieces until it is full, and then fails.
#[derive(Drop)]
struct Page {
    text: Vec<u8>,
    room: usize,
}

impl Write for Page {
    fn write(&mut self, buf: &[u8]) -> io::Result<usize> {
        let count = buf.len().min(5).min(self.room);
        if count == 0 {
            return Err(io::Error::from(io::ErrorKind::BrokenPipe));
        }
        self.text.extend_from_slice(&buf[..count])?;
        self.room -= count;
        Ok(count)
    }

    fn flush(&mut self) -> io::Result<()> {
        Ok(())
    }
}

const RING: [u8; 20] = [4, 0, 4, 0, 0, 0, 1, 0, 2, 0, 3, 0, 1, 0, 2, 0, 3, 0, 0, 0];

const RING_LISTED: &[u8] =
    b"cards 4\nlinks 4\ncolumns 2\ncard 0 00\ncard 1 10\ncard 2 11\ncard 3 01\n";

// Whether the text is what is written of the listing of these bytes, and all of it is told.
fn lists(alloc: Global, bytes: &[u8], fails: bool, room: usize, text: &[u8]) -> bool {
    let mut input = Pieces { left: bytes, fails };
    let mut page = Page {
        text: Vec::new(alloc),
        room,
    };
    let listed = list_wiring(&mut input, &mut page);
    let is_told = listed.written == text.len() && listed.is_read != fails;
    is_told && page.text.as_slice() == text
}

#[test]
fn lists_the_whole(rt: HostRuntime) {
    assert!(rt; lists(rt.alloc(), &RING, false, 1000, RING_LISTED));
}

#[test]
fn ends_at_a_read_that_fails(rt: HostRuntime) {
    assert!(rt; lists(rt.alloc(), &RING[..3], true, 1000, b"refused 2\n"));
}

#[test]
fn ends_at_a_write_that_fails(rt: HostRuntime) {
    assert!(rt; lists(rt.alloc(), &RING, false, 12, &RING_LISTED[..12]));
}
