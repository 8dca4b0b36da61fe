// Files seen with their sizes: a wiring file that passed 2 to 5, one that passed 6 and 7 as well, and a plan that passed 12. Cards, links and
// columns are numbers that index, and any may be given: a narrower type would ask more of callers.
ghost use Rattle.rack.specs.Formed.{Formed, SizesAre};
ghost use Rattle.rack.specs.PlanFile.{Sized};

use crate::bytes::{bit_at, ends};
use crate::plan_file::{address_size, address_start};

// A wiring file that passed 2 to 5.
#[derive(Clone, Copy, Debug, PartialEq, Eq)]
pub struct SizedFile<'a> {
    pub bytes: &'a [u8],
    pub cards: usize,
    pub links: usize,
    pub ghost sizes: { SizesAre bytes.now cards links },
}

// A wiring file that passed 2 to 7: every link joins two different cards.
#[derive(Clone, Copy, Debug, PartialEq, Eq)]
pub struct FormedFile<'a> {
    pub sized: SizedFile<'a>,
    pub ghost formed: { Formed sized.bytes.now sized.cards sized.links },
}

// A plan that passed 12.
#[derive(Clone, Copy, Debug, PartialEq, Eq)]
pub struct Plan<'a> {
    pub bytes: &'a [u8],
    pub cards: usize,
    pub links: usize,
    pub columns: usize,
    pub ghost sized: { Sized bytes.now cards links columns },
}

impl<'a> SizedFile<'a> {
    ghost use Rattle.std.specs.Prelude.{◌≡◌, ◌<◌};
    ghost use Rattle.rack.specs.Wiring.{link_at};
    ghost use Rattle.rack.specs.WiringFile.{file_wiring};

    // The two ends of link `i`.
    pub fn ends(self, i: usize) -> (usize, usize)
        requires { i < self.links }
        ensures first { result.0 ≡ (link_at (file_wiring self.entry.bytes.now) i).first }
        ensures second { result.1 ≡ (link_at (file_wiring self.entry.bytes.now) i).second }
        ensures small { (result.0 < 65536) × (result.1 < 65536) }
    {
        ends(self.bytes, 4, self.links, i)
    }
}

impl<'a> FormedFile<'a> {
    ghost use Rattle.std.specs.Prelude.{◌≡◌, ◌<◌};
    ghost use Rattle.rack.specs.Wiring.{link_at};
    ghost use Rattle.rack.specs.WiringFile.{file_wiring};

    // The two ends of link `i`, two different cards.
    pub fn ends(self, i: usize) -> (usize, usize)
        requires { i < self.sized.links }
        ensures first { result.0 ≡ (link_at (file_wiring self.entry.sized.bytes.now) i).first }
        ensures second { result.1 ≡ (link_at (file_wiring self.entry.sized.bytes.now) i).second }
        ensures cards { (result.0 < self.entry.sized.cards) × (result.1 < self.entry.sized.cards) }
    {
        self.sized.ends(i)
    }
}

impl<'a> Plan<'a> {
    ghost use Rattle.std.specs.Prelude.{◌≡◌, ◌+◌, ◌*◌, ◌<◌, ◌≤◌};
    ghost use Rattle.rack.specs.Limits.{lent_plan};
    ghost use Rattle.rack.specs.Wiring.{link_at};
    ghost use Rattle.rack.specs.PlanFile.{AddressIs, address_size, addresses_start, plan_bit, plan_wiring};

    // The two ends of link `i`; they need not be cards.
    pub fn ends(self, i: usize) -> (usize, usize)
        requires { i < self.links }
        ensures first { result.0 ≡ (link_at (plan_wiring self.entry.bytes.now) i).first }
        ensures second { result.1 ≡ (link_at (plan_wiring self.entry.bytes.now) i).second }
        ensures small { (result.0 < 65536) × (result.1 < 65536) }
    {
        ends(self.bytes, 6, self.links, i)
    }

    // The bytes of an address.
    pub fn address_size(self) -> usize
        ensures is { result ≡ address_size self.entry.columns }
        ensures few { result ≤ 32 }
    {
        address_size(self.columns)
    }

    // Where the address of card `c` begins; behind the last one the plan ends.
    pub fn address_start(self, c: usize) -> usize
        requires { c ≤ self.cards }
        ensures is { result ≡ addresses_start self.entry.links + c * address_size self.entry.columns }
        ensures inside { result ≤ lent_plan }
    {
        address_start(self.links, address_size(self.columns), c)
    }

    // The address of card `c`: that part of the plan's own bytes.
    pub fn address(self, c: usize) -> &'a [u8]
        requires { c < self.cards }
        ensures { AddressIs self.entry.bytes c result }
    {
        let start = self.address_start(c);
        &self.bytes[start..start + self.address_size()]
    }

    // Whether card `c` has 1 in column `j`.
    pub fn bit(self, c: usize, j: usize) -> bool
        requires { (c < self.cards) × (j < self.columns) }
        ensures { result ≡ plan_bit self.entry.bytes.now c j }
    {
        bit_at(self.bytes, self.address_start(c), j)
    }
}
