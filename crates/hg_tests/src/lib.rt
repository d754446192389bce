//! Tests of the calls and laws of ops, graphs and their texts, in a crate of their own: the proof of a crate's tests
//! goes over the whole crate once more. Small graphs and what the validator says of them are in `hg_rows`.
#![tactic(auto)]

#[cfg(test)]
mod graph_tests;
#[cfg(test)]
mod json_tests;
#[cfg(test)]
mod lower_tests;
#[cfg(test)]
mod op_tests;
#[cfg(test)]
mod thin_text_tests;
