//! Lists of numbers by port.

ghost use Rattle.std.specs.Prelude.{◌≡◌, ℕ, List, [], replicate, IfOk, OnOk, OnErr};
ghost use Rattle.hg_graph.specs.NodeIndex.{pushed_at};

use gp_base::Sequence;
use std::alloc::{AllocError, Global};

/// A list of numbers.
pub(crate) type Numbers = Sequence<u64>;

/// As many lists without numbers.
#[tactic(auto, using(hg_ops::proofs::Copies::replicate_next))]
pub(crate) fn no_numbers(alloc: Global, count: u64) -> Result<Vec<Numbers>, AllocError>
    ensures { IfOk result (λ lists. lists.items ≡ replicate count []) }
{
    let mut lists = Vec::new(alloc);
    for _ in 0..count {
        lists.push(Sequence::new(alloc))?;
    }
    Ok(lists)
}

/// Appends a number to the list at a place, where there is one. After an error nothing has changed.
pub(crate) fn push_at(lists: &mut Vec<Numbers>, index: u64, number: u64) -> Result<(), AllocError>
    ensures ok { OnOk result (lists.new.items ≡ pushed_at index number lists.old.items) }
    ensures err { OnErr result (lists.new.items ≡ lists.old.items) }
{
    if index < lists.len() as u64 {
        lists[index as usize].push(number)?;
    }
    Ok(())
}

/// Takes back the last number of the list at a place, where there is one.
pub(crate) fn take_back_at(lists: &mut Vec<Numbers>, index: u64)
    ensures { (before : List (List ℕ)) (number : ℕ) → lists.old.items ≡ pushed_at index number before → lists.new.items ≡ before }
{
    if index < lists.len() as u64 {
        lists[index as usize].take_back();
    }
}
