// Wirings by rules: the two ends of link `i` of a rack, and the wiring file of a whole rack.
ghost use Rattle.std.specs.Prelude.{◌+◌, ◌<◌, ◌≤◌};
ghost use Rattle.rack.specs.Limits.{most_cards, most_links};

use rack::bytes::put_number;
use rack::limits::MOST_LINKS;

// One link more than a rack may have.
pub const MORE_LINKS: usize = MOST_LINKS + 1;

// The two sizes, and two ends of two bytes for each link.
pub const LENT_FILE: usize = 4 + 4 * MORE_LINKS;

// How the cards are linked.
#[derive(Clone, Copy)]
pub enum Rule {
    Ring,
    Extra,
    Cube,
    Grid,
    Star,
    Two,
    Sixteen,
    Parts,
    Tree,
}

// A name that is no rule's.
#[derive(Clone, Copy, Debug)]
pub struct UnknownRule;

// A rule by its name in the cases. A chain is a ring with a link less; with more links than a tree has, cards hang loose.
impl TryFrom<&str> for Rule {
    type Error = UnknownRule;

    fn try_from(name: &str) -> Result<Rule, UnknownRule> {
        match name {
            "chain" | "ring" => Ok(Rule::Ring),
            "extra" => Ok(Rule::Extra),
            "hypercube" => Ok(Rule::Cube),
            "grid" => Ok(Rule::Grid),
            "star" => Ok(Rule::Star),
            "2 by 3" => Ok(Rule::Two),
            "16 by 128" => Ok(Rule::Sixteen),
            "parts" => Ok(Rule::Parts),
            "tree" | "loose" => Ok(Rule::Tree),
            _ => Err(UnknownRule),
        }
    }
}

// A number below 32,768 made from `x` by a linear congruential rule.
fn scattered(x: usize) -> usize
    requires { x < 65536 }
    ensures { result < 32768 }
{
    (x * 1103515245 + 12345) / 65536 % 32768
}

// The remainder, and 0 for a divisor 0.
fn rest(x: usize, by: usize) -> usize {
    x.checked_rem(by).unwrap_or(0)
}

// The cards in a row, and behind it one link more. Here and below `i < 4096` keeps sums small: any number of links is below.
fn extra_link(n: usize, i: usize) -> (usize, usize)
    requires { i < 4096 }
{
    if i + 1 == n { (100, 180) } else { (i, i + 1) }
}

// Bit `i / 128` of 8, at the card that has the bits of `i % 128` beside it; links from 1,024 on are twins of those before.
fn cube_link(i: usize) -> (usize, usize)
    requires { i < 4096 }
{
    let weight = 1usize << (i / 128 % 8);
    let others = i % 128;
    let card = others + others / weight * weight;
    (card, card + weight)
}

// 16 rows of 16 cards: 240 links along the rows, then 240 across.
fn grid_link(i: usize) -> (usize, usize)
    requires { i < 4096 }
{
    if i < 240 {
        let card = i + i / 15;
        (card, card + 1)
    } else {
        (i - 240, i - 224)
    }
}

// Two rows with no link between them.
fn parts_link(n: usize, i: usize) -> (usize, usize)
    requires { i < 4096 }
{
    if i + 1 < n / 2 {
        (i, i + 1)
    } else {
        (i + 1, i + 2)
    }
}

// A tree, each card on one with a lower number, and behind it links between any cards.
fn tree_link(n: usize, i: usize) -> (usize, usize)
    requires { i < 4096 }
{
    if i + 1 < n {
        (rest(scattered(i), i + 1), i + 1)
    } else {
        (rest(scattered(2 * i), n), rest(scattered(2 * i + 1), n))
    }
}

// The number of card `c` of `n` once the cards are mixed: a rule that takes each card once where 77 and `n` have no common divisor.
fn mixed_card(n: usize, c: usize) -> usize {
    if usize::from(u16::MAX) < c {
        return 0;
    }
    rest(77 * c + 13, n)
}

// Puts the two ends of link `i` of `m` into a file that has room for them.
pub fn put_link(file: &mut [u8; LENT_FILE], m: usize, i: usize, ends: (usize, usize))
    requires { (i < 4096) × (m < 4096) }
{
    if 6 + 2 * m + 2 * i <= LENT_FILE {
        put_number(file, 4 + 2 * i, ends.0);
        put_number(file, 4 + 2 * m + 2 * i, ends.1);
    }
}

// A rack by a rule; its cards and links may be mixed.
#[derive(Clone, Copy)]
pub struct Shape {
    pub rule: Rule,
    pub cards: usize,
    pub links: usize,
    pub is_mixed: bool,
    pub ghost few: { links ≤ most_links + 1 },
}

impl Shape {
    // Link `i` by the rule. Cards are numbered as the rule says: a hypercube's by their bits, a grid's by its rows of 16.
    fn plain_link(self, i: usize) -> (usize, usize)
        requires { i < 4096 }
    {
        match self.rule {
            Rule::Ring => (i, rest(i + 1, self.cards)),
            Rule::Extra => extra_link(self.cards, i),
            Rule::Cube => cube_link(i),
            Rule::Grid => grid_link(i),
            Rule::Star => (0, i + 1),
            Rule::Two => (i / 3, 2 + i % 3),
            Rule::Sixteen => (i / 128, 16 + i % 128),
            Rule::Parts => parts_link(self.cards, i),
            Rule::Tree => tree_link(self.cards, i),
        }
    }

    // Link `i`; where cards and links are mixed, each once if 101 and the number of links have no common divisor, every other one turned
    // round.
    fn link(self, i: usize) -> (usize, usize)
        requires { i < self.links }
    {
        if !self.is_mixed {
            return self.plain_link(i);
        }
        let (first, second) = self.plain_link((101 * i + 7) % self.links);
        let ends = (
            mixed_card(self.cards, first),
            mixed_card(self.cards, second),
        );
        if i % 2 == 0 { ends } else { (ends.1, ends.0) }
    }

    // The wiring file of the rack, with zeros behind it.
    pub fn wiring(self) -> [u8; LENT_FILE] {
        let mut file = [0u8; LENT_FILE];
        put_number(&mut file, 0, self.cards);
        put_number(&mut file, 2, self.links);
        for i in 0..self.links {
            put_link(&mut file, self.links, i, self.link(i));
        }
        file
    }
}

// The wiring file of a ring, with zeros behind it.
pub fn ring(n: usize) -> [u8; LENT_FILE]
    requires { n ≤ most_cards }
{
    let shape = Shape {
        rule: Rule::Ring,
        cards: n,
        links: n,
        is_mixed: false,
    };
    shape.wiring()
}
