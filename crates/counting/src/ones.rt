// The table of the ones in each byte; every sixteenth entry has its place beside it.
ghost use Rattle.counting.specs.Ones.{Counts, table_holds};
ghost use Rattle.std.specs.Prelude.{◌≡◌, true};

const ONES: [u8; 256] = [
    0, // 0
    1, 1, 2, 1, 2, 2, 3, 1, 2, 2, 3, 2, 3, 3, 4, 1, // 16
    2, 2, 3, 2, 3, 3, 4, 2, 3, 3, 4, 3, 4, 4, 5, 1, // 32
    2, 2, 3, 2, 3, 3, 4, 2, 3, 3, 4, 3, 4, 4, 5, 2, // 48
    3, 3, 4, 3, 4, 4, 5, 3, 4, 4, 5, 4, 5, 5, 6, 1, // 64
    2, 2, 3, 2, 3, 3, 4, 2, 3, 3, 4, 3, 4, 4, 5, 2, // 80
    3, 3, 4, 3, 4, 4, 5, 3, 4, 4, 5, 4, 5, 5, 6, 2, // 96
    3, 3, 4, 3, 4, 4, 5, 3, 4, 4, 5, 4, 5, 5, 6, 3, // 112
    4, 4, 5, 4, 5, 5, 6, 4, 5, 5, 6, 5, 6, 6, 7, 1, // 128
    2, 2, 3, 2, 3, 3, 4, 2, 3, 3, 4, 3, 4, 4, 5, 2, // 144
    3, 3, 4, 3, 4, 4, 5, 3, 4, 4, 5, 4, 5, 5, 6, 2, // 160
    3, 3, 4, 3, 4, 4, 5, 3, 4, 4, 5, 4, 5, 5, 6, 3, // 176
    4, 4, 5, 4, 5, 5, 6, 4, 5, 5, 6, 5, 6, 6, 7, 2, // 192
    3, 3, 4, 3, 4, 4, 5, 3, 4, 4, 5, 4, 5, 5, 6, 3, // 208
    4, 4, 5, 4, 5, 5, 6, 4, 5, 5, 6, 5, 6, 6, 7, 3, // 224
    4, 4, 5, 4, 5, 5, 6, 4, 5, 5, 6, 5, 6, 6, 7, 4, // 240
    5, 5, 6, 5, 6, 6, 7, 5, 6, 6, 7, 6, 7, 7, 8,
];

// A table of the ones in each byte, to be lent: a constant that is indexed by a variable is copied at each use.
#[derive(Clone, Copy)]
pub struct Ones {
    pub table: [u8; 256],
    pub ghost counts: { Counts table },
}

impl Ones {
    ghost use Rattle.std.specs.Prelude.{◌≡◌, ◌≤◌};
    ghost use Rattle.counting.specs.Ones.{ones_in};

    // The ones in a byte: its entry in the table.
    pub fn byte_ones(&self, z: u8) -> u32
        ensures is { result ≡ ones_in 8 z }
        ensures few { result ≤ 8 }
    {
        u32::from(self.table[usize::from(z)])
    }
}

// The table as a value.
pub fn ones_table() -> Ones
    ensures tested { table_holds result.table ≡ true }
    ensures counts { Counts result.table }
{
    Ones { table: ONES }
}
