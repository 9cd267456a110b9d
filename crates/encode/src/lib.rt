// Writing a frame.
#![tactic(auto)]

pub mod message;
pub mod writer;
