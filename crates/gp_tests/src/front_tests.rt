//! Each public call of `gp_front` once.

use gp_base::LineNo;
use gp_front::laws::one_answer;
use gp_front::{TextFault, check_text};
use gp_lex::LexFault;
use std::test::Fail;

#[test]
fn a_text_has_its_program(rt: HostRuntime) -> Result<(), Fail> {
    let text = b"from guppylang import guppy\n@guppy\ndef main() -> None: pass\n";
    let checked = check_text(rt.alloc(), text).ok().ok_or("a fault")?;
    assert_eq!(rt; checked.program.len(), 2);
    assert!(rt; checked.scope.imports("guppy"));
    assert_eq!(rt; checked.typed.len(), 1);
    Ok(())
}

#[test]
fn a_text_has_its_first_fault(rt: HostRuntime) {
    let found = check_text(rt.alloc(), b"\tpass\n").err();
    assert!(rt; matches!(found, Some(TextFault::Lex(LexFault::TabIndent(LineNo(1))))));
}

#[test]
fn the_law_can_be_called() {
    one_answer();
}
