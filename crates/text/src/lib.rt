// Text in lent buffers: decimal numbers, appended where the text ends.
#![tactic(auto)]

pub mod put;
