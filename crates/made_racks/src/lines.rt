// The cells of a line of the cases, which `|` parts.
ghost use Rattle.std.specs.Prelude.{◌≤◌};

// Cell `k` without the blanks around it; it is empty where there is none. Neither it nor its number is an option, since an empty cell of
// the cases means just that.
pub fn cell(line: &str, k: usize) -> &str {
    line.split('|').nth(k).unwrap_or("").trim()
}

// The number in cell `k`, 0 where there is none.
pub fn number(line: &str, k: usize) -> u32 {
    cell(line, k).parse().unwrap_or(0)
}

// The number in cell `k`, and `most` if it is above that.
pub fn number_to(line: &str, k: usize, most: usize) -> usize
    ensures { result ≤ most }
{
    (number(line, k) as usize).min(most)
}
