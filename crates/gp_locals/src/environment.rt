//! The types that the names of a function have at some place of its text.

ghost use Rattle.std.specs.Prelude.{◌≡◌, Some, IfOk, OnOk};
ghost use Rattle.gp_types.specs.View.{ty_view};
ghost use Rattle.gp_locals.specs.Environment as spec;
ghost use Rattle.gp_locals.specs.View.{found_view};

use crate::limit::TOTAL_SIZE_LIMIT;
use crate::locals::Locals;
use crate::usable::{
    SharedNames, UsableName, are_kept, copy_shared, copy_usable, is_given, join_usable, one_with,
    put_among, share, sizes, type_among,
};
use crate::usable_names::UsableNames;
use gp_types::Ty;
use std::alloc::{AllocError, Global};
use std::marker::Model;

/// The types of the usable names of a function at some place of its text. A contract sees the type of each name of the
/// function, where the name is usable, in the order of the names.
#[derive(Drop)]
pub struct Environment {
    // The number of the function's names.
    count: usize,
    // The usable ones among them.
    usable: Vec<UsableName>,
    // The same list as those places share it that nothing changes between; none where it isn't made yet.
    shared: Option<SharedNames>,
}

impl Model for Environment {
    ghost use Rattle.std.specs.Prelude.{◌≡◌, IfSome, map};
    ghost use Rattle.gp_locals.specs.Environment as spec;
    ghost use Rattle.gp_locals.specs.code.Usable.{spread, IsListed};
    ghost use Rattle.gp_locals.specs.code.UsableView.{usable_view, shared_view};
    ghost use Rattle.gp_locals.specs.code.TypeCode.{coded_types};

    ghost Value = { spec.Environment };

    ghost coded = { coded_types };

    ghost view = { λ e. spread 0 e.count (map usable_view e.usable.items) };

    ghost invariant = { λ e. IsListed e.count (map usable_view e.usable.items)
        × IfSome (shared_view e.shared) (λ listed. listed ≡ map usable_view e.usable.items) };
}

/// What an environment says of a name.
pub enum Found<'a> {
    /// It is no name of the function.
    Foreign,
    /// It is a name of the function that isn't usable here.
    Unusable,
    /// It is usable, and has this type.
    Usable(&'a Ty),
}

impl Environment {
    /// No name is usable. Takes no memory.
    pub fn new(alloc: Global, names: &Locals) -> Environment
        ensures { result ≡ spec.nothing_usable names.now }
    {
        Environment {
            count: names.as_slice().len(),
            usable: Vec::new(alloc),
            shared: None,
        }
    }

    /// What the environment says of a name. Takes no memory.
    pub fn find(&self, names: &Locals, name: &str) -> Found<'_>
        ensures { found_view result ≡ spec.type_of names.now self.now name.now }
    {
        let Some(position) = names.position(name) else {
            return Found::Foreign;
        };
        match type_among(&self.usable, position) {
            Some(ty) => Found::Usable(ty),
            None => Found::Unusable,
        }
    }

    /// Gives a name this type; what is no name of the function changes nothing.
    pub fn put(&mut self, names: &Locals, name: &str, ty: Ty) -> Result<(), AllocError>
        ensures { OnOk result (self.new ≡ spec.put names.now self.old name.now (ty_view ty)) }
    {
        let Some(position) = names.position(name) else {
            return Ok(());
        };
        if position >= self.count {
            return Ok(());
        }
        if is_given(&self.usable, position, &ty) {
            return Ok(());
        }
        self.shared = None;
        put_among(&mut self.usable, position, ty)
    }

    /// The environment once more.
    pub fn copy(&self, alloc: Global) -> Result<Environment, AllocError>
        ensures { IfOk result (λ made. made ≡ self.now) }
    {
        Ok(Environment {
            count: self.count,
            usable: copy_usable(alloc, &self.usable)?,
            shared: copy_shared(&self.shared)?,
        })
    }

    /// What is usable where two paths join.
    pub fn join(&self, alloc: Global, others: &Environment) -> Result<Environment, AllocError>
        ensures { IfOk result (λ joined. joined ≡ spec.join self.now others.now) }
    {
        let usable = join_usable(alloc, &self.usable, &others.usable)?;
        let shared = one_with(&usable, &self.shared, &others.shared)?;
        Ok(Environment {
            count: self.count,
            usable,
            shared,
        })
    }

    /// Whether each usable name has the same type on the other path. Takes no memory.
    pub fn keeps(&self, others: &Environment) -> bool
        ensures { result ≡ spec.keeps self.now others.now }
    {
        are_kept(&self.usable, &others.usable)
    }

    /// Whether the types of the usable names have a total size within the limit. Takes no memory.
    pub fn is_within(&self) -> bool
        ensures { result ≡ spec.is_within (Some self.now) }
    {
        sizes(&self.usable) <= TOTAL_SIZE_LIMIT
    }

    /// The usable names with their types, in the order of the names. Takes memory only for the first time after a change.
    pub fn usable(&mut self, alloc: Global, names: &Locals) -> Result<UsableNames, AllocError>
        ensures listed { IfOk result (λ listed. listed ≡ spec.usable names.now self.old) }
        ensures unchanged { self.new ≡ self.old }
    {
        let usable = share(alloc, &mut self.shared, &self.usable)?;
        Ok(UsableNames::new(names.shared()?, usable))
    }
}
