//! The names of a function.

ghost use Rattle.std.specs.Prelude.{◌≡◌, [], OnOk, IfOk, flat_map, map, string_bytes};
ghost use Rattle.std.specs.Rc.{rc_slice_items};
ghost use Rattle.gp_tree.specs.Statement.{statement, statements};
ghost use Rattle.gp_types.specs.Signature.{parameter_names, parameter_view};
ghost use Rattle.gp_locals.specs.Environment.{place_among};
ghost use Rattle.gp_locals.specs.Locals.{with_name, with_names, names_of_place, names_of_targets, names_of_statement, names_of_block, locals};

use gp_base::Name;
use gp_tree::{Place, Stmt, Targets};
use gp_types::SigParam;
use indexmap::IndexSet;
use std::alloc::{AllocError, Global};
use std::marker::Model;
use std::rc::RcSlice;

/// The names of a function: its parameters and each name that it assigns, counts with or annotates, anywhere in it. A
/// contract sees them as a list, in the order of their first appearance.
#[derive(Drop)]
pub struct Locals {
    // Their places.
    places: NameSet,
    // The names, which all who list them share.
    names: RcSlice<Name>,
}

impl Model for Locals {
    ghost use Rattle.std.specs.Prelude.{◌≡◌, List, ℕ};
    ghost use Rattle.std.specs.Rc.{rc_slice_items};

    ghost Value = { List (List ℕ) };

    ghost view = { λ l. l.places };

    ghost invariant = { λ l. rc_slice_items l.names ≡ l.places };
}

impl Locals {
    /// The place of a name among them, counted from 0; `None` exactly where it is none of them.
    pub fn position(&self, name: &str) -> Option<usize>
        ensures { result ≡ place_among self.now name.now }
    {
        self.places.position(name)
    }

    /// The names in order.
    pub fn as_slice(&self) -> &[Name]
        ensures { result.now ≡ self.now }
    {
        &self.names
    }

    /// The names in order, as a list that is shared. Takes no memory; it fails only past 2^64 - 1 copies.
    pub(crate) fn shared(&self) -> Result<RcSlice<Name>, AllocError>
        ensures { IfOk result (λ names. rc_slice_items names ≡ self.now) }
    {
        self.names.clone()
    }
}

// Names, each once, in the order in which they came.
#[derive(Drop)]
struct NameSet {
    texts: IndexSet<String>,
}

impl Model for NameSet {
    ghost use Rattle.std.specs.Prelude.{List, ℕ, map, string_bytes};

    ghost Value = { List (List ℕ) };

    ghost view = { λ s. map string_bytes s.texts.keys };
}

impl NameSet {
    // No names. Takes no memory.
    fn new(alloc: Global) -> NameSet
        ensures { result ≡ [] }
    {
        NameSet {
            texts: IndexSet::new(alloc),
        }
    }

    // The place of a name among them.
    fn position(&self, name: &str) -> Option<usize>
        ensures { result ≡ place_among self.now name.now }
    {
        self.texts.get_index_of(name)
    }

    // The names in order.
    fn as_slice(&self) -> &[String]
        ensures { map string_bytes result.now ≡ self.now }
    {
        self.texts.as_slice()
    }

    // Adds a name where it isn't there.
    fn add(&mut self, alloc: Global, name: &str) -> Result<(), AllocError>
        ensures { OnOk result (self.new ≡ with_name self.old name.now) }
    {
        if !self.texts.contains(name) {
            self.texts.insert(String::from_str(alloc, name)?)?;
        }
        Ok(())
    }
}

/// The names of a function with these parameters and this body.
pub fn locals_of(alloc: Global, params: &[SigParam], body: &[Stmt]) -> Result<Locals, AllocError>
    ensures { IfOk result (λ names. names ≡ locals (parameter_names (map parameter_view params.now)) (statements body.now)) }
{
    let mut places = NameSet::new(alloc);
    for param in params {
        places.add(alloc, param.name.as_str())?;
    }
    add_block(alloc, &mut places, body)?;
    let names = RcSlice::from_vec(names_in(alloc, places.as_slice())?)?;
    Ok(Locals { places, names })
}

// The names with these texts.
fn names_in(alloc: Global, texts: &[String]) -> Result<Vec<Name>, AllocError>
    ensures { IfOk result (λ names. names.items ≡ map string_bytes texts.now) }
{
    let mut names = Vec::new(alloc);
    for text in texts {
        names.push(Name::new(alloc, text.as_str())?)?;
    }
    Ok(names)
}

#[cycle(add_block)]
fn add_block(alloc: Global, names: &mut NameSet, block: &[Stmt]) -> Result<(), AllocError>
    ensures { OnOk result (names.new ≡ with_names names.old (names_of_block (statements block.now))) }
{
    for stmt in block {
        add_stmt(alloc, names, stmt)?;
    }
    Ok(())
}

#[cycle(add_block)]
fn add_stmt(alloc: Global, names: &mut NameSet, stmt: &Stmt) -> Result<(), AllocError>
    ensures { OnOk result (names.new ≡ with_names names.old (names_of_statement (statement stmt.now))) }
{
    match stmt {
        Stmt::Assign(_, targets, _) => add_targets(alloc, names, targets),
        Stmt::Annotated(_, name, _, _) => names.add(alloc, name.as_str()),
        Stmt::If(_, _, body, other) => {
            add_block(alloc, names, body)?;
            add_block(alloc, names, other)?;
            Ok(())
        }
        Stmt::While(_, _, body) => add_block(alloc, names, body),
        Stmt::For(_, name, _, body) => {
            names.add(alloc, name.as_str())?;
            add_block(alloc, names, body)
        }
        Stmt::Evaluate(_, _)
        | Stmt::Return(_, _)
        | Stmt::Break(_)
        | Stmt::Continue(_)
        | Stmt::Pass(_) => Ok(()),
    }
}

fn add_targets(alloc: Global, names: &mut NameSet, targets: &Targets) -> Result<(), AllocError>
    ensures { OnOk result (names.new ≡ with_names names.old (names_of_targets targets.now)) }
{
    match targets {
        Targets::One(place) => add_place(alloc, names, place),
        Targets::Pattern(places) => add_places(alloc, names, places.as_slice()),
    }
}

#[tactic(auto, using(crate::proofs::Names::with_names_append))]
fn add_places(alloc: Global, names: &mut NameSet, places: &[Place]) -> Result<(), AllocError>
    ensures { OnOk result (names.new ≡ with_names names.old (flat_map names_of_place places.now)) }
{
    for place in places {
        add_place(alloc, names, place)?;
    }
    Ok(())
}

// A place with fields names no name of the function.
fn add_place(alloc: Global, names: &mut NameSet, place: &Place) -> Result<(), AllocError>
    ensures { OnOk result (names.new ≡ with_names names.old (names_of_place place.now)) }
{
    if place.fields.as_slice().is_empty() {
        names.add(alloc, place.name.as_str())?;
    }
    Ok(())
}
