//! The usable names at some place of a function's text.

ghost use Rattle.std.specs.Prelude.{◌≡◌, IfOk, map};
ghost use Rattle.std.specs.Rc.{rc_slice_items};
ghost use Rattle.gp_locals.specs.View.{name_view};
ghost use Rattle.gp_locals.specs.code.Usable as code;
ghost use Rattle.gp_locals.specs.code.UsableView.{usable_view};

use crate::name_type::NameTypes;
use crate::usable::{UsableName, by_names};
use gp_base::Name;
use std::alloc::{AllocError, Global};
use std::marker::Model;
use std::rc::RcSlice;

/// The usable names at some place of a function's text, with their types. A contract sees them as a list, in the order
/// of the names' first appearance in the function. Where nothing changes between two places, they share one list.
#[derive(Drop)]
pub struct UsableNames {
    // The names of the function, which all its places share.
    names: RcSlice<Name>,
    // Which of them are usable.
    usable: RcSlice<UsableName>,
}

impl Model for UsableNames {
    ghost use Rattle.std.specs.Prelude.{List, map};
    ghost use Rattle.std.specs.Rc.{rc_slice_items};
    ghost use Rattle.gp_locals.specs.Environment as spec;
    ghost use Rattle.gp_locals.specs.code.Usable.{by_names};
    ghost use Rattle.gp_locals.specs.code.UsableView.{usable_view};
    ghost use Rattle.gp_locals.specs.code.TypeCode.{coded_name_types};

    ghost Value = { List spec.NameType };

    ghost coded = { coded_name_types };

    ghost view = { λ u. by_names (rc_slice_items u.names) (map usable_view (rc_slice_items u.usable)) };
}

impl UsableNames {
    /// Of these names, the usable ones.
    pub(crate) fn new(names: RcSlice<Name>, usable: RcSlice<UsableName>) -> UsableNames
        ensures { result ≡ code.by_names (rc_slice_items names) (map usable_view (rc_slice_items usable)) }
    {
        UsableNames { names, usable }
    }

    /// The names with their types, in a list of their own.
    pub fn listed(&self, alloc: Global) -> Result<NameTypes, AllocError>
        ensures { IfOk result (λ listed. map name_view listed ≡ self.now) }
    {
        by_names(alloc, &self.names, &self.usable)
    }
}
