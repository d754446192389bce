//! Why a text could not be read as a graph.

ghost use Rattle.std.specs.Prelude.{◌≡◌};
ghost use Rattle.hg_json.specs.declared.fault.Miss.TheVariants as miss;
ghost use Rattle.hg_json.specs.declared.fault.JsonFault.TheVariants as fault;

use std::alloc::AllocError;

/// Why a text could not be read as a graph. Entries are counted from 0.
#[derive(Clone, Copy, Debug, PartialEq, Eq)]
pub enum JsonFault {
    /// The text isn't UTF-8, or not JSON.
    NotJson,
    /// The text isn't an object with a text `version`, a list `nodes` of at least one entry and a list `edges`.
    Top,
    /// The version is neither `profile-1` nor `profile-2`.
    Version,
    /// This entry of `nodes` is the first that isn't a node.
    Node(u64),
    /// This entry of `edges` is the first that isn't a link.
    Link(u64),
    /// Memory ran out, and nothing is known of the text.
    Memory,
}

/// Why an entry could not be read.
#[derive(Drop)]
pub enum Miss {
    /// It doesn't have its shape.
    Shape,
    /// Memory ran out.
    Memory,
}

impl From<AllocError> for JsonFault {
    ghost from_gives = { λ _ e. e ≡ fault.Memory };

    fn from(_e: AllocError) -> JsonFault {
        JsonFault::Memory
    }
}

impl From<AllocError> for Miss {
    ghost from_gives = { λ _ e. e ≡ miss.Memory };

    fn from(_e: AllocError) -> Miss {
        Miss::Memory
    }
}
