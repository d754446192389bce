//! The values of a function's names.

ghost use Rattle.std.specs.Prelude.{◌≡◌, IfOk, option_map};
ghost use Rattle.gp_meaning.specs.State as spec;
ghost use Rattle.gp_meaning.specs.Value.{at_path};
ghost use Rattle.gp_evaluator.specs.View.{value_view, values_view, variables_view, Found, RanAlone};

use crate::halt::Halt;
use crate::value::{Value, part_at, with_part};
use gp_locals::Locals;
use gp_tree::{Place, Targets};
use std::alloc::{AllocError, Global};

/// The value of each name of a function, where it has one, in the order of the names.
#[derive(Drop)]
pub struct Variables {
    values: Vec<Option<Value>>,
}

impl Variables {
    /// No name has a value.
    pub fn new(alloc: Global, names: &Locals) -> Result<Variables, AllocError>
        ensures { IfOk result (λ made. variables_view made ≡ spec.no_variables names.now) }
    {
        let mut values = Vec::new(alloc);
        for _name in names.as_slice() {
            values.push(None)?;
        }
        Ok(Variables { values })
    }

    /// The value of a name. Takes no memory.
    #[tactic(auto, using(crate::proofs::Entries::entries))]
    pub fn get(&self, names: &Locals, name: &str) -> Option<&Value>
        ensures { option_map (λ value. value_view value.now) result ≡ spec.variable names.now (variables_view self.now) name.now }
    {
        let position = names.position(name)?;
        if position >= self.values.len() {
            return None;
        }
        self.values[position].as_ref()
    }

    /// Gives a name this value; what is no name of the function changes nothing. Takes no memory.
    #[tactic(auto, using(crate::proofs::Entries::entries))]
    pub fn set(&mut self, names: &Locals, name: &str, value: Value)
        ensures { variables_view self.new ≡ spec.set names.now (variables_view self.old) name.now (value_view value) }
    {
        if let Some(position) = names.position(name) {
            if position < self.values.len() {
                self.values[position] = Some(value);
            }
        }
    }

    /// The value at a place of a name of the function. Takes no memory.
    pub fn value_at(&self, names: &Locals, place: &Place) -> Option<&Value>
        ensures { option_map (λ value. value_view value.now) result
            ≡ at_path (spec.variable names.now (variables_view self.now) place.now.name) place.now.fields }
    {
        part_at(
            self.get(names, place.name.as_str())?,
            place.fields.as_slice(),
        )
    }

    // The value of the name of a place when the place has got another one: that of a name alone needs none before.
    fn placed(
        &self,
        alloc: Global,
        names: &Locals,
        place: &Place,
        value: Value,
    ) -> Result<Value, Halt>
        ensures { Found value_view result (spec.placed (spec.variable names.now (variables_view self.now) place.now.name) place.now.fields (value_view value)) }
    {
        let path = place.fields.as_slice();
        if path.is_empty() {
            return Ok(value);
        }
        let Some(old) = self.get(names, place.name.as_str()) else {
            return Err(Halt::Stuck);
        };
        match with_part(alloc, old, path, value)? {
            Some(changed) => Ok(changed),
            None => Err(Halt::Stuck),
        }
    }

    /// Gives a place this value. It is stuck where the place is a field and the name has no value with that field.
    pub fn assign_place(
        &mut self,
        alloc: Global,
        names: &Locals,
        place: &Place,
        value: Value,
    ) -> Result<(), Halt>
        ensures { RanAlone (λ u. u) result (variables_view self.old) (variables_view self.new) (spec.assign_place names.now place.now (value_view value)) }
    {
        let changed = self.placed(alloc, names, place, value)?;
        self.set(names, place.name.as_str(), changed);
        Ok(())
    }

    /// Gives targets this value: a pattern takes the parts of a tuple with as many parts, in order.
    pub fn assign(
        &mut self,
        alloc: Global,
        names: &Locals,
        targets: &Targets,
        value: Value,
    ) -> Result<(), Halt>
        ensures { RanAlone (λ u. u) result (variables_view self.old) (variables_view self.new) (spec.assign names.now targets.now (value_view value)) }
    {
        match targets {
            Targets::One(place) => self.assign_place(alloc, names, place, value),
            Targets::Pattern(places) => match value {
                Value::Tuple(parts) => self.assign_parts(alloc, names, places.as_slice(), &parts),
                _ => Err(Halt::Stuck),
            },
        }
    }

    // As many places as parts, each of which gets its part in turn.
    #[tactic(auto, using(crate::proofs::Assignments::assignments))]
    fn assign_parts(
        &mut self,
        alloc: Global,
        names: &Locals,
        places: &[Place],
        parts: &[Value],
    ) -> Result<(), Halt>
        ensures { RanAlone (λ u. u) result (variables_view self.old) (variables_view self.new) (spec.assign_parts names.now places.now (values_view parts.now)) }
    {
        if places.len() != parts.len() {
            return Err(Halt::Stuck);
        }
        for i in 0..places.len() {
            let part = parts[i].copy(alloc)?;
            self.assign_place(alloc, names, &places[i], part)?;
        }
        Ok(())
    }
}
