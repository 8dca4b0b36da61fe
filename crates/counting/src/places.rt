// Differing places of bytes, of words and of addresses, counted by a lent table of the ones in each byte, which `byte_ones` alone reads; and
// the lowest differing place, which is searched.
ghost use Rattle.std.specs.Prelude.{◌≡◌, not, ◌*◌, ◌/◌, ◌<◌, ◌≤◌, eqb, get_or, length};
ghost use Rattle.rack.specs.Lists.{FoundBelow, differ, lowest};
ghost use Rattle.rack.specs.Bits.{number_bit};
ghost use Rattle.rack.specs.Columns.{hamming};
ghost use Rattle.rack.specs.Limits.{most_columns};
ghost use Rattle.rack.specs.PlanFile.{address_size, bit_from};
ghost use Rattle.counting.specs.Ones.{ones_in};

use crate::ones::Ones;
use rack::bytes::bit_at;
use rack::plan_file::address_size;

// The places in which two bytes differ.
fn byte_hamming(ones: &Ones, x: u8, y: u8) -> u32
    ensures is { result ≡ hamming 8 (number_bit x) (number_bit y) }
    ensures few { result ≤ 8 }
{
    ones.byte_ones(x ^ y)
}

// The ones in a word, byte by byte.
fn word_ones(ones: &Ones, z: u64) -> u32
    ensures is { result ≡ ones_in 64 z }
    ensures few { result ≤ 64 }
{
    let mut sum = 0;
    for byte in z.to_le_bytes() {
        sum += ones.byte_ones(byte);
    }
    sum
}

// The places in which two words differ.
pub fn word_hamming(ones: &Ones, x: u64, y: u64) -> u32
    ensures is { result ≡ hamming 64 (number_bit x) (number_bit y) }
    ensures few { result ≤ 64 }
{
    word_ones(ones, x ^ y)
}

// The places in which the bits of as many bytes differ.
fn bytes_hamming(ones: &Ones, x: &[u8], y: &[u8]) -> u32
    requires { (length x.now ≤ 32) × (length y.now ≡ length x.now) }
    ensures is { result ≡ hamming (8 * length x.now) (bit_from x.now 0) (bit_from y.now 0) }
    ensures few { result ≤ 8 * length x.now }
{
    let mut sum = 0;
    for (p, q) in x.iter().zip(y) {
        sum += byte_hamming(ones, *p, *q);
    }
    sum
}

// The places among the lowest `k` bits in which two bytes differ.
fn low_hamming(ones: &Ones, x: u8, y: u8, k: usize) -> u32
    requires { k < 8 }
    ensures is { result ≡ hamming k (number_bit x) (number_bit y) }
    ensures few { result ≤ 8 }
{
    let weight = 1u8 << k;
    byte_hamming(ones, x % weight, y % weight)
}

// The places in which the first `k` bits differ: two addresses of `k` columns. The spare bits of the last byte do not count.
pub fn bits_hamming(ones: &Ones, x: &[u8], y: &[u8], k: usize) -> u32
    requires { (k ≤ most_columns) × (address_size k ≤ length x.now) × (address_size k ≤ length y.now) }
    ensures { result ≡ hamming k (bit_from x.now 0) (bit_from y.now 0) }
{
    let whole = k / 8;
    let sum = bytes_hamming(ones, &x[..whole], &y[..whole]);
    if address_size(k) == whole {
        return sum;
    }
    sum + low_hamming(ones, x[whole], y[whole], k % 8)
}

// Whether the bits at place `j` differ.
fn bits_differ(x: &[u8], y: &[u8], j: usize) -> bool
    requires { (j / 8 < length x.now) × (j / 8 < length y.now) }
    ensures { result ≡ differ (bit_from x.now 0 j) (bit_from y.now 0 j) }
{
    bit_at(x, 0, j) != bit_at(y, 0, j)
}

// How many of the first `count` bytes are equal, before the first that differs.
fn equal_bytes(x: &[u8], y: &[u8], count: usize) -> usize
    requires { (count ≤ length x.now) × (count ≤ length y.now) }
    ensures { result ≡ lowest count (λ t. not (eqb (get_or x.now t 0) (get_or y.now t 0))) }
{
    (0..count).find(|i| x[*i] != y[*i]).unwrap_or(count)
}

// The lowest of the first `k` places in which the bits differ. Equal bytes are passed at once.
pub fn lowest_differing(x: &[u8], y: &[u8], k: usize) -> Option<usize>
    requires { (k ≤ most_columns) × (address_size k ≤ length x.now) × (address_size k ≤ length y.now) }
    ensures { FoundBelow k (lowest k (λ j. differ (bit_from x.now 0 j) (bit_from y.now 0 j))) result }
{
    (8 * equal_bytes(x, y, k / 8)..k).find(|j| bits_differ(x, y, *j))
}
