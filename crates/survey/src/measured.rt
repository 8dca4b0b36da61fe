// Wiring files with the hops between their cards: a row of 256 for each card.
ghost use Rattle.std.specs.Prelude.{◌≡◌, true};
ghost use Rattle.rack.specs.Hops.{connected};
ghost use Rattle.rack.specs.WiringFile.{file_wiring};
ghost use Rattle.survey.specs.Tables.{HopsIn};

use rack::limits::{LENT_HOPS, MOST_CARDS};
use rack::views::FormedFile;

// A wiring file that passed 2 to 7, with its hops.
#[derive(Clone, Copy, Debug, PartialEq, Eq)]
pub struct MeasuredFile<'a> {
    pub formed: FormedFile<'a>,
    pub hops: &'a [u8; LENT_HOPS],
    pub ghost measured: { HopsIn (file_wiring formed.sized.bytes.now) hops.now },
}

// One of a connected rack.
#[derive(Clone, Copy, Debug, PartialEq, Eq)]
pub struct ConnectedFile<'a> {
    pub measured: MeasuredFile<'a>,
    pub ghost connected: { connected (file_wiring measured.formed.sized.bytes.now) ≡ true },
}

impl<'a> MeasuredFile<'a> {
    ghost use Rattle.std.specs.Prelude.{◌≡◌, ◌<◌};
    ghost use Rattle.rack.specs.Limits.{most_cards};
    ghost use Rattle.rack.specs.Hops.{hops};
    ghost use Rattle.rack.specs.WiringFile.{file_wiring};
    ghost use Rattle.survey.specs.Tables.{cell};

    // The hops from card `a` to card `b`.
    pub fn between(self, a: usize, b: usize) -> u8
        requires { (a < most_cards) × (b < most_cards) }
        ensures is { result ≡ cell self.entry.hops.now a b }
        ensures hops { a < self.entry.formed.sized.cards → b < self.entry.formed.sized.cards → result ≡ hops (file_wiring self.entry.formed.sized.bytes.now) a b }
    {
        self.hops[MOST_CARDS * a + b]
    }
}
