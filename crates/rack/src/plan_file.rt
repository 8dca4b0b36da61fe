// How long an address in a plan file is, and where it begins.
ghost use Rattle.std.specs.Prelude.{◌≡◌, ◌+◌, ◌*◌, ◌≤◌};
ghost use Rattle.rack.specs.Limits.{lent_plan, most_cards, most_columns, most_links};
ghost use Rattle.rack.specs.PlanFile.{address_size, addresses_start};

// The bytes of an address of `k` columns.
pub fn address_size(k: usize) -> usize
    requires { k ≤ most_columns }
    ensures is { result ≡ address_size k }
    ensures few { result ≤ 32 }
{
    (k + 7) / 8
}

// Where the address of card `c` begins, behind `m` links and `c` addresses of `size` bytes.
pub fn address_start(m: usize, size: usize, c: usize) -> usize
    requires { (m ≤ most_links) × (size ≤ 32) × (c ≤ most_cards) }
    ensures is { result ≡ addresses_start m + c * size }
    ensures inside { result ≤ lent_plan }
{
    6 + 4 * m + c * size
}
