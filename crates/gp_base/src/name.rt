//! Names and line numbers.

ghost use Rattle.std.specs.Prelude.{◌≡◌, IfOk};

use crate::sequence::Sequence;
use std::alloc::{AllocError, Global};
use std::convert::AsStr;
use std::marker::Model;
use std::rc::RcStr;

/// The number of a physical line of a source text, counted from 1.
#[derive(Clone, Copy, Debug, PartialEq, Eq)]
pub struct LineNo(pub u32);

/// A name. A contract sees it as the bytes of its text. Its copies share one text.
#[derive(Debug, Drop)]
pub struct Name {
    text: RcStr,
}

impl Model for Name {
    ghost use Rattle.std.specs.Prelude.{List, ℕ};
    ghost use Rattle.std.specs.Rc.{rc_str_bytes};

    ghost Value = { List ℕ };

    ghost view = { λ name. rc_str_bytes name.text };
}

/// A list of names.
pub type Names = Sequence<Name>;

impl Name {
    /// The name with this text.
    pub fn new(alloc: Global, text: &str) -> Result<Name, AllocError>
        ensures { IfOk result (λ name. name ≡ text.now) }
    {
        Ok(Name {
            text: RcStr::from_str(alloc, text)?,
        })
    }

    /// The same name once more. It shares the text, so this takes no memory; it fails only past 2^64 - 1 copies.
    pub fn copy(&self) -> Result<Name, AllocError>
        ensures { IfOk result (λ copy. copy ≡ self.now) }
    {
        Ok(Name {
            text: self.text.clone()?,
        })
    }

    /// The name's text.
    pub fn as_str(&self) -> &str
        ensures { result.now ≡ self.now }
    {
        self.text.as_str()
    }
}

impl AsStr for Name {
    ghost text = { λ name. name };

    fn as_str(&self) -> &str {
        Name::as_str(self)
    }
}
