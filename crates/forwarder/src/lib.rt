// Steps and walks on a plan's bytes. Definitions in specs/, delivery in proofs/.
#![tactic(auto)]

pub mod step;
pub mod walk;
