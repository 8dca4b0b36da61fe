// Wirings, hops, columns, addresses and embeddings: definitions in specs/, their mathematics in proofs/.
// The code is what all layers share: limits, refusals, numbers and bits in bytes and in words, wiring files and plan files seen with
// their sizes, and lent buffers that are written part by part.
#![tactic(auto)]

pub mod bytes;
pub mod limits;
pub mod output;
pub mod plan_file;
pub mod refused;
pub mod views;
pub mod words;
