//! Which texts are thin, and with which lines.

use gp_lower::thin_text::thin;
use gp_lower::{ThinLine, ThinLines};
use std::alloc::{AllocError, Global};
use std::test::Fail;

// What every thin text begins with.
const HEAD: &[u8] = b"from guppylang import guppy
from guppylang.std.builtins import owned, result
from guppylang.std.quantum import qubit, h, x, z, cx, rz, measure, project_z, discard, reset
@guppy
def main() -> None:
    q = qubit()
";

// What is read from the head with this text behind it.
fn thin_with(alloc: Global, tail: &[u8]) -> Result<Option<ThinLines>, AllocError> {
    let mut text = Vec::from_slice(alloc, HEAD)?;
    text.extend_from_slice(tail)?;
    thin(alloc, text.as_slice())
}

#[test]
fn reads_a_whole_text(rt: HostRuntime) -> Result<(), Fail> {
    let text = b"from guppylang import guppy
from guppylang.std.builtins import owned, result
from guppylang.std.quantum import qubit, h, x, z, cx, rz, measure, project_z, discard, reset
@guppy
def main() -> None:
    q = qubit()
    h(q)
    x(q)
    discard(q)
";
    let lines = thin(rt.alloc(), text)?.ok_or("not thin")?;
    assert_eq!(rt;
        lines.as_slice(),
        [ThinLine::H, ThinLine::X, ThinLine::Discard].as_slice()
    );
    Ok(())
}

#[test]
fn reads_each_line(rt: HostRuntime) -> Result<(), Fail> {
    let cases: [(&[u8], &[ThinLine]); 5] = [
        (b"", &[]),
        (b"    h(q)\n", &[ThinLine::H]),
        (b"    x(q)\n", &[ThinLine::X]),
        (b"    discard(q)\n", &[ThinLine::Discard]),
        (b"    h(q)\n    h(q)\n", &[ThinLine::H, ThinLine::H]),
    ];
    for (tail, expected) in cases {
        let lines = thin_with(rt.alloc(), tail)?.ok_or("not thin")?;
        assert_eq!(rt; lines.as_slice(), expected, "at {tail:?}");
    }
    Ok(())
}

#[test]
fn refuses_other_tails(rt: HostRuntime) -> Result<(), Fail> {
    let tails: [&[u8]; 6] = [
        b"    h(q) \n",
        b"   h(q)\n",
        b"    h(q)\r\n",
        b"    h(q)",
        b"    h(q)\n\n",
        b"    z(q)\n",
    ];
    for tail in tails {
        assert!(rt; thin_with(rt.alloc(), tail)?.is_none(), "at {tail:?}");
    }
    Ok(())
}

#[test]
fn refuses_other_heads(rt: HostRuntime) -> Result<(), Fail> {
    assert!(rt; thin(rt.alloc(), b"")?.is_none());
    assert!(rt; thin(rt.alloc(), &HEAD[..HEAD.len() - 1])?.is_none());
    Ok(())
}
