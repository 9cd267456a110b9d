// Tests of the stores: on long runs and on hard keys each does what a plain map does.
#![tactic(auto)]

#[cfg(test)]
mod compared;
#[cfg(test)]
mod runs;
#[cfg(test)]
mod tests;
