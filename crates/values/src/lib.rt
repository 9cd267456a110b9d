// The plain values that every layer rests on.
#![tactic(auto)]

pub mod decision;
pub mod laws;
pub mod refusal;
pub mod timestamp;
