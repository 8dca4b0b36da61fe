// Wiring files with an order of their links.
use rack::limits::MOST_LINKS;
use rack::views::FormedFile;

// A wiring file that passed 2 to 7, with an order in which few passes over its links settle everything. It only saves work, so any numbers
// will do.
#[derive(Clone, Copy, Debug, PartialEq, Eq)]
pub struct OrderedFile<'a> {
    pub formed: FormedFile<'a>,
    pub order: &'a [u16; MOST_LINKS],
}
