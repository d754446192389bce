//! What has fired in a region.

use crate::value::Values;
use hg_graph::NodeId;
use std::alloc::{AllocError, Global};
use std::collections::BTreeMap;
use std::marker::Model;

/// A node that has fired, with the values at its outputs.
#[derive(Drop)]
pub struct Fired {
    pub node: NodeId,
    pub outs: Values,
}

/// What has fired, found by node. A contract sees it as the list of the firings, the newest first.
#[derive(Drop)]
pub struct Firings {
    list: Vec<Fired>,
    places: BTreeMap<u64, u64>,
}

impl Model for Firings {
    ghost use Rattle.hg_run.specs.code.FiringsView.{FiredList};

    ghost Value = { FiredList };

    ghost use Rattle.std.specs.Coded.{codes};
    ghost use Rattle.hg_run.specs.code.ValueCode.{coded_value};

    ghost coded = { Prim.hlevel (codes, coded_value) };

    ghost use Rattle.hg_run.specs.code.FiringsView.{firings_view, IsPlaced};

    ghost view = { firings_view };

    ghost invariant = { IsPlaced };
}

impl Firings {
    ghost use Rattle.std.specs.Prelude.{◌≡◌, [], ◌∷◌, IfOk};
    ghost use Rattle.std.specs.Option.{option_copied};
    ghost use Rattle.hg_graph.specs.Run.{outs_at};

    /// No firings. Takes no memory.
    pub fn new(alloc: Global) -> Firings
        ensures { result ≡ [] }
    {
        Firings {
            list: Vec::new(alloc),
            places: BTreeMap::new(alloc),
        }
    }

    /// The values that a node gave, where it has fired.
    pub fn get(&self, node: NodeId) -> Option<&Values>
        ensures { option_copied result ≡ outs_at self.now node.0 }
    {
        match self.places.get(&node.0) {
            None => None,
            Some(place) => match self.list.get(*place as usize) {
                None => None,
                Some(firing) => Some(&firing.outs),
            },
        }
    }

    /// The firings with one more, which is the newest. After an error they are dropped.
    pub fn push(self, node: NodeId, outs: Values) -> Result<Firings, AllocError>
        ensures { IfOk result (λ more. more ≡ record { node = node.0; outs = outs } ∷ self) }
    {
        let mut list = self.list;
        let mut places = self.places;
        let place = list.len() as u64;
        let _ = places.insert(node.0, place)?;
        list.push(Fired { node, outs })?;
        Ok(Firings { list, places })
    }
}
