// How large a rack may be, how many callers share it, how far its traffic is counted, and the lengths of the buffers that planning is lent:
// the numbers of specs/Limits.
pub const MOST_CARDS: usize = 256;

pub const MOST_LINKS: usize = 2048;

pub const MOST_COLUMNS: usize = 255;

pub const MOST_CALLERS: usize = 16;

pub const MOST_TRAFFIC: u32 = 4294967295;

pub const LENT_WORDS: usize = 1024;

pub const LENT_HOPS: usize = 65536;

pub const LENT_PLAN: usize = 16390;
