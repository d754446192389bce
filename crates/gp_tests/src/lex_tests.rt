//! Each public call of `gp_lex` once. The lines, the tokens and the faults of texts are in the tables of `gp_rows`.

use gp_base::LineNo;
use gp_lex::laws::{lines_or_fault, pieces_are_one};
use gp_lex::{LexFault, lines};
use std::test::Fail;

#[test]
fn a_text_has_its_lines(rt: HostRuntime) -> Result<(), Fail> {
    let found = lines(rt.alloc(), b"a = 1\n\n  pass\n")
        .ok()
        .ok_or("a fault")?;
    assert_eq!(rt; found.len(), 2);
    let line = found.get(1).ok_or("no line")?;
    assert_eq!(rt; line.number.0, 3);
    assert_eq!(rt; line.indent, 2);
    assert_eq!(rt; line.tokens.len(), 1);
    Ok(())
}

#[test]
fn a_tab_before_a_line_is_a_fault(rt: HostRuntime) {
    let fault = lines(rt.alloc(), b"\tpass\n").err();
    assert!(rt; matches!(fault, Some(LexFault::TabIndent(LineNo(1)))));
}

#[test]
fn laws_of_tokens_can_be_called() {
    pieces_are_one();
    lines_or_fault();
}
