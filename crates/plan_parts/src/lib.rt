// Parts of a plan, copied into a new one: the ends of its links and its addresses, with one more or with fewer. Definitions in specs/, laws
// in proofs/.
#![tactic(auto)]

pub mod links;
pub mod rows;
