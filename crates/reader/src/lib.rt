// Plan files: their layout (12), their content (13), a card's address. Definitions in specs/, laws in proofs/.
#![tactic(auto)]

pub mod layout;
pub mod read;
pub mod views;
