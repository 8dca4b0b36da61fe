// Numbers of 16 and 32 bits, read and written where they stand, single bits, and the ends of links.
ghost use Rattle.std.specs.Prelude.{◌≡◌, ◌+◌, ◌*◌, ◌/◌, ◌<◌, ◌≤◌, length};
ghost use Rattle.rack.specs.Wiring.{link_at};
ghost use Rattle.rack.specs.Buffers.{Appends, four_bytes, number_at, number32_at, two_bytes};
ghost use Rattle.rack.specs.PlanFile.{bit_from};
ghost use Rattle.rack.specs.WiringFile.{wiring_at};

// The number of 16 bits at a place, low byte first.
pub fn number_at(bytes: &[u8], at: usize) -> usize
    requires { at + 1 < length bytes.now }
    ensures is { result ≡ number_at bytes.now at }
    ensures small { result < 65536 }
{
    usize::from(u16::from_le_bytes([bytes[at], bytes[at + 1]]))
}

// The number of 32 bits at a place.
pub fn number32_at(bytes: &[u8], at: usize) -> u32
    requires { at + 4 ≤ length bytes.now }
    ensures { result ≡ number32_at bytes.now at }
{
    u32::from_le_bytes([bytes[at], bytes[at + 1], bytes[at + 2], bytes[at + 3]])
}

// Bit `j` of the bytes from a place on.
pub fn bit_at(bytes: &[u8], at: usize, j: usize) -> bool
    requires { at + j / 8 < length bytes.now }
    ensures { result ≡ bit_from bytes.now at j }
{
    (bytes[at + j / 8] >> (j % 8)) % 2 == 1
}

// Appends a number of 16 bits, low byte first, to bytes that are written up to `at`.
pub fn put_number(output: &mut [u8], at: usize, v: usize)
    requires { at + 1 < length output.old }
    ensures { Appends at output.old output.new (two_bytes v) }
{
    let bytes = ((v % 65536) as u16).to_le_bytes();
    output[at..at + 2].copy_from_slice(&bytes);
}

// Appends a number of 32 bits.
pub fn put_number32(output: &mut [u8], at: usize, v: u32)
    requires { at + 4 ≤ length output.old }
    ensures { Appends at output.old output.new (four_bytes v) }
{
    output[at..at + 4].copy_from_slice(&v.to_le_bytes());
}

// The two ends of link `i` of `m`, in bytes whose ends stand from `base` on.
pub fn ends(bytes: &[u8], base: usize, m: usize, i: usize) -> (usize, usize)
    requires { (m ≡ number_at bytes.now 2) × (base + 4 * m ≤ length bytes.now) × (i < m) }
    ensures first { result.0 ≡ (link_at (wiring_at base bytes.now) i).first }
    ensures second { result.1 ≡ (link_at (wiring_at base bytes.now) i).second }
    ensures small { (result.0 < 65536) × (result.1 < 65536) }
{
    (
        number_at(bytes, base + 2 * i),
        number_at(bytes, base + 2 * m + 2 * i),
    )
}
