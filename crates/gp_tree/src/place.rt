//! Places: what can be read by name, assigned and borrowed.

ghost use Rattle.std.specs.Prelude.{◌≡◌, IfOk};

use gp_base::{Name, Names, Sequence};
use std::alloc::{AllocError, Global};

/// A name, or a path of fields from a name, as `p` or `p.a.b`.
#[derive(Debug, Drop)]
pub struct Place {
    /// The name before the first dot.
    pub name: Name,
    /// The fields behind the dots, in order; none for a name alone.
    pub fields: Names,
}

impl Place {
    /// The same place once more.
    pub fn copy(&self, alloc: Global) -> Result<Place, AllocError>
        ensures { IfOk result (λ copy. copy ≡ self.now) }
    {
        let mut fields = Names::new(alloc);
        for field in self.fields.as_slice() {
            fields.push(field.copy()?)?;
        }
        Ok(Place {
            name: self.name.copy()?,
            fields,
        })
    }
}

/// A list of places.
pub type Places = Sequence<Place>;

/// What stands to the left of `=`.
#[derive(Debug, Drop)]
pub enum Targets {
    /// One place, which takes the whole value.
    One(Place),
    /// Places with commas between them, which take the parts of a tuple in order.
    Pattern(Places),
}

impl Targets {
    /// The same targets once more.
    pub fn copy(&self, alloc: Global) -> Result<Targets, AllocError>
        ensures { IfOk result (λ copy. copy ≡ self.now) }
    {
        match self {
            Targets::One(place) => Ok(Targets::One(place.copy(alloc)?)),
            Targets::Pattern(places) => {
                let mut copies = Places::new(alloc);
                for place in places.as_slice() {
                    copies.push(place.copy(alloc)?)?;
                }
                Ok(Targets::Pattern(copies))
            }
        }
    }
}
