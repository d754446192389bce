//! What names mean inside a function: the names of a function, the types that the usable ones have at some place of its
//! text, what a call calls there, and the strings that are tags.
#![tactic(auto)]

mod callee;
mod environment;
mod equal;
mod limit;
mod locals;
mod name_type;
mod tag;
mod usable;
mod usable_names;

pub use callee::{Callee, callee_of_type, find_callee, takes_tag};
pub use environment::{Environment, Found};
pub use limit::TOTAL_SIZE_LIMIT;
pub use locals::{Locals, locals_of};
pub use name_type::{NameType, NameTypes};
pub use tag::is_tag;
pub use usable_names::UsableNames;
