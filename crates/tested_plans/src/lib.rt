// The tests of a plan by itself hold exactly if it is the plan of the wiring inside: statement in specs/, laws in proofs/, no code.
#![tactic(auto)]
