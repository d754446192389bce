//! Programs from logical lines.

ghost use Rattle.std.specs.Prelude.{◌≡◌, map};
ghost use Rattle.gp_parse.specs.Programs.{IsProgram};
ghost use Rattle.gp_parse.specs.code.FoundForms.{FindsForms, AnswersForm, all_items};

use crate::form_line::FormLine;
use crate::nested_lines::nest;
use crate::parse_fault::ParseFault;
use gp_form::{FormFault, line_form};
use gp_lex::{Lines, LogicalLine};
use gp_tree::Program;
use std::alloc::Global;

/// The one program whose lines these are.
///
/// `TooBig` and `NotALine` name the first line that no form spells, as [`line_form`] says it; `Nesting` and `TooDeep`
/// come where each line has a form, as [`nest`] says it. Takes time in proportion to the tokens of the lines.
pub fn program(alloc: Global, lines: &Lines) -> Result<Program, ParseFault>
    ensures { IsProgram lines.now result }
{
    let forms = form_lines(alloc, lines.as_slice())?;
    nest(alloc, forms)
}

/// The lines by their forms.
fn form_lines(alloc: Global, lines: &[LogicalLine]) -> Result<Vec<FormLine>, ParseFault>
    ensures { FindsForms lines.now (all_items result) }
{
    let mut forms = Vec::new(alloc);
    for line in lines {
        forms.push(form_line(alloc, line)?)?;
    }
    Ok(forms)
}

/// The line by its form.
fn form_line(alloc: Global, line: &LogicalLine) -> Result<FormLine, ParseFault>
    ensures { AnswersForm line.now result }
{
    match line_form(alloc, line) {
        Ok(form) => Ok(FormLine {
            number: line.number,
            indent: line.indent,
            form: Box::new(alloc, form)?,
        }),
        Err(FormFault::TooBig(number)) => Err(ParseFault::TooBig(number)),
        Err(FormFault::NotALine(number)) => Err(ParseFault::NotALine(number)),
        Err(FormFault::Memory) => Err(ParseFault::Memory),
    }
}
