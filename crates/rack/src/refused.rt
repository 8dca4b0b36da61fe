// Why a call refuses: each refusal has its number, and those of 6 to 10 the link or card in fault (docs/REQUIREMENTS.md, Refusals by place).
ghost use Rattle.std.specs.Prelude.{◌≡◌};
ghost use Rattle.rack.specs.Refused.{place_of, refusal_of, refused_words};

use std::fmt;

#[derive(Clone, Copy, Debug, PartialEq, Eq)]
pub enum Refused {
    Lent,
    NoSizes,
    Cards,
    Links,
    Length,
    NoEnd(u32),
    OneCard(u32),
    Parallel(u32),
    Unreached(u32),
    OddLoop(u32),
    NoAddresses,
    Layout,
    Content,
    NoCard,
    Full,
    Largest,
    NotLast,
    NoCaller,
    NoFrame,
}

impl Refused {
    // Its number.
    pub fn number(self) -> u32
        ensures { result ≡ (refusal_of self).number }
    {
        match self {
            Refused::Lent => 1,
            Refused::NoSizes => 2,
            Refused::Cards => 3,
            Refused::Links => 4,
            Refused::Length => 5,
            Refused::NoEnd(_) => 6,
            Refused::OneCard(_) => 7,
            Refused::Parallel(_) => 8,
            Refused::Unreached(_) => 9,
            Refused::OddLoop(_) => 10,
            Refused::NoAddresses => 11,
            Refused::Layout => 12,
            Refused::Content => 13,
            Refused::NoCard => 14,
            Refused::Full => 15,
            Refused::Largest => 16,
            Refused::NotLast => 17,
            Refused::NoCaller => 18,
            Refused::NoFrame => 19,
        }
    }

    // The link or card in fault, where it carries one.
    pub fn place(self) -> Option<u32>
        ensures { result ≡ place_of self }
    {
        match self {
            Refused::NoEnd(at)
            | Refused::OneCard(at)
            | Refused::Parallel(at)
            | Refused::Unreached(at)
            | Refused::OddLoop(at) => Some(at),
            _ => None,
        }
    }
}

// Its number, and the link or card in fault.
impl fmt::Display for Refused {
    ghost use Rattle.std.specs.Prelude.{Some};

    ghost output = { λ e. Some (refused_words e) };

    fn fmt<W: fmt::Write>(&self, f: &mut fmt::Formatter<W>) -> fmt::Result {
        write!(f, "refused {}", self.number())?;
        match self {
            Refused::NoEnd(link)
            | Refused::OneCard(link)
            | Refused::Parallel(link)
            | Refused::OddLoop(link) => write!(f, " link {link}"),
            Refused::Unreached(card) => write!(f, " card {card}"),
            _ => Ok(()),
        }
    }
}
