// A plan tested by itself, without planning: its links, its zeros, and the order of its columns. Definitions in specs/, laws in proofs/.
#![tactic(auto)]

pub mod links;
pub mod order;
pub mod zeros;
