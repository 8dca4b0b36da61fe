// Differing places of addresses, counted byte by byte with a table of the ones in a byte, as the cards' firmware counts them. Definitions in
// specs/, laws in proofs/; docs/FIRMWARE.md has the same in C.
#![tactic(auto)]

pub mod ones;
pub mod places;
pub mod plans;
