// Tests of the links: in worked examples and on long runs each does what its written rule says.
#![tactic(auto)]

#[cfg(test)]
mod calls;
#[cfg(test)]
mod rules;
#[cfg(test)]
mod runs;
#[cfg(test)]
mod tests;
