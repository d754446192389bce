//! Each public call of `gp_form` once. Which lines have which forms is in the tables of `gp_rows`.

use gp_form::laws::{form_or_none, one_form};
use gp_form::line_form;
use gp_lex::lines;
use gp_tree::LineForm;
use std::test::Fail;

#[test]
fn a_line_has_its_form(rt: HostRuntime) -> Result<(), Fail> {
    let found = lines(rt.alloc(), b"pass\n").ok().ok_or("no lines")?;
    let line = found.get(0).ok_or("no line")?;
    let form = line_form(rt.alloc(), line).ok();
    assert!(rt; matches!(form, Some(LineForm::Pass)));
    drop(form);
    Ok(())
}

#[test]
fn laws_of_forms_can_be_called() {
    one_form();
    form_or_none();
}
