// The sum of hops over all pairs of cards: definitions in specs/, laws in proofs/, no code.
#![tactic(auto)]
