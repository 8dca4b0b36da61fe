// Whether the cards of a plan cover all: for every two cards a link of the one that leads nearer to the other; and all tests of a plan by
// itself, in a row. Definitions in specs/, laws in proofs/.
#![tactic(auto)]

pub mod cover;
pub mod passing;
