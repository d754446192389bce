//! Each public function of `gp_parse` once.

use gp_base::LineNo;
use gp_lex::lines;
use gp_parse::laws::{never_both, one_fault, one_program, program_or_fault};
use gp_parse::{FormLine, ParseFault, nest, program};
use gp_tree::LineForm;
use std::test::Fail;

#[test]
fn a_text_has_its_items(rt: HostRuntime) -> Result<(), Fail> {
    let found = lines(rt.alloc(), b"from a import b\n")?;
    assert_eq!(rt; program(rt.alloc(), &found)?.len(), 1);
    Ok(())
}

#[test]
fn lines_nest_by_their_forms(rt: HostRuntime) -> Result<(), Fail> {
    let mut rows = Vec::new(rt.alloc());
    rows.push(FormLine {
        number: LineNo(1),
        indent: 0,
        form: Box::new(rt.alloc(), LineForm::Break)?,
    })?;
    let fault = nest(rt.alloc(), rows).err();
    assert_eq!(rt; fault, Some(ParseFault::Nesting(LineNo(1))));
    Ok(())
}

#[test]
fn laws_can_be_called() {
    one_program();
    one_fault();
    program_or_fault();
    never_both();
}
