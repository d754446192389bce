//! Line forms: which expression, statement or header the tokens of a logical line spell, by the grammar of Python's
//! language reference, cut to the profile of Guppy that Pirtwald compiles.
#![tactic(auto)]

mod assigning;
mod expression;
pub mod form_fault;
mod header;
mod import;
pub mod laws;
mod level;
mod line;
mod line_size;
mod list_end;
mod param;
mod part_fault;
mod place;
mod soft_keyword;
mod statement;
mod step;
mod target;
mod written_type;

pub use form_fault::FormFault;
pub use line::line_form;
