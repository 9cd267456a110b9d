// What is said of a message or a refusal in one line.
#![tactic(auto)]

pub mod laws;
pub mod text;
