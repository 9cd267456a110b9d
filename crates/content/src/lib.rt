// What a transaction read and writes.
#![tactic(auto)]

pub mod content;
pub mod keyed;
mod making;
pub mod rows;
pub mod stored;
