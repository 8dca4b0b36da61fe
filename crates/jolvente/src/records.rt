// Lent records of four numbers of 32 bits, and cards of 16 bits in lent bytes.
ghost use Rattle.std.specs.Prelude.{◌≡◌};
ghost use Rattle.jolvente.specs.Records.{card_bytes, record_bytes};

use forwarder::walk::LENT_MET;
use rack::output::Output;

// The lengths of the lent bytes: a record, and two bytes for each card.
pub const LENT_RECORD: usize = 16;

pub const LENT_MET_BYTES: usize = 512;

// Fills a record.
pub fn put_record(record: &mut [u8; LENT_RECORD], x: u32, y: u32, z: u32, u: u32)
    ensures { «record».new ≡ record_bytes x y z u }
{
    let mut written = Output::new(record);
    written.put_number32(x);
    written.put_number32(y);
    written.put_number32(z);
    written.put_number32(u);
}

// Writes the cards met.
pub fn put_cards(cards: &[u16; LENT_MET], bytes: &mut [u8; LENT_MET_BYTES])
    ensures { bytes.new ≡ card_bytes cards.now }
{
    let mut written = Output::new(bytes);
    for card in cards {
        written.put_number(usize::from(*card));
    }
}
