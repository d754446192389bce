//! Tables of small graphs, and what the validator and the test of order say of each. They are tests, in a crate of their own:
//! the proof of a crate's tests goes over the whole crate once more.
#![tactic(auto)]

#[cfg(test)]
mod graphs;
#[cfg(test)]
mod rows;
#[cfg(test)]
mod tests;
