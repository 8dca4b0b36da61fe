// Sets of cards in four words each: for every column of a plan, the cards with 1 in it. Definitions in specs/, laws in proofs/.
#![tactic(auto)]

pub mod columns;
