// Twin cables, two links between the same cards: statements in specs/, laws in proofs/, no code.
#![tactic(auto)]
