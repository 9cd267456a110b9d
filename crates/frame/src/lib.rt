// Frames: a message has exactly one frame, and no other bytes are read as one.
#![tactic(auto)]

pub mod carried;
pub mod encoded;
pub mod message;
pub mod reader;
pub mod rows;
