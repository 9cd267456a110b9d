// What the program `inspect` says of the lines that it reads.
#![tactic(auto)]

pub mod digits;
pub mod line;
pub mod run;
pub mod tally;
