//! Tests of the calls and laws of the crates of the front end, in a crate of their own: the proof of a crate's tests goes over the
//! whole crate once more. What the rules say of texts is in the tables of `gp_rows`.
#![tactic(auto)]

#[cfg(test)]
mod base_tests;
#[cfg(test)]
mod callee_tests;
#[cfg(test)]
mod environment_tests;
#[cfg(test)]
mod form_tests;
#[cfg(test)]
mod front_tests;
#[cfg(test)]
mod lex_tests;
#[cfg(test)]
mod parse_tests;
#[cfg(test)]
mod scope_tests;
#[cfg(test)]
mod tree_tests;
#[cfg(test)]
mod type_tests;
#[cfg(test)]
mod walk_tests;
