//! Small graphs that are built by the calls of the builder, what the validator says of them, and how they run. They are tests, in
//! a crate of their own: the proof of a crate's tests goes over the whole crate once more.
#![tactic(auto)]

#[cfg(test)]
mod graphs;
#[cfg(test)]
mod tests;
