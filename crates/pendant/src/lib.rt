// A rack with one card more on a last link: definitions in specs/, laws in proofs/, no code.
#![tactic(auto)]
