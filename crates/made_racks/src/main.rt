// Makes racks by rules, sound and faulty, plans, writes, reads and walks them, and prints a line of what was found for each.
#![tactic(auto)]

use cases::{FILES, PLANS, RACKS, each_case};

pub mod calls;
pub mod cases;
pub mod lent;
pub mod lines;
pub mod plans;
pub mod say;
pub mod shapes;
pub mod wirings;

fn main(rt: HostRuntime) {
    each_case(&rt, RACKS);
    each_case(&rt, FILES);
    each_case(&rt, PLANS);
}
