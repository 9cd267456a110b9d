// How a message lies in bytes: its fields, their rules, and its rows.
#![tactic(auto)]

pub mod bytes;
pub mod fields;
pub mod format;
pub mod laws;
pub mod row;
