//! Lines with their forms.

use gp_base::LineNo;
use gp_tree::LineForm;

/// A logical line by its form.
#[derive(Drop)]
pub struct FormLine {
    /// The physical line on which it begins, counted from 1.
    pub number: LineNo,
    /// The number of spaces before its first token.
    pub indent: u32,
    /// Its form.
    pub form: Box<LineForm>,
}
