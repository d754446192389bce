//! Values at ports.

use gp_base::Name;
use std::alloc::{AllocError, Global};
use std::marker::Model;

/// A value at a port of a graph.
#[derive(Drop)]
#[cycle(value)]
pub enum Value {
    /// A whole number.
    Int(i64),
    /// A qubit, by its number.
    Qubit(u64),
    /// A variant of a Sum: the number of its row, with the row's values.
    Variant(u64, Values),
    /// A function, by its name.
    Function(Name),
}

/// A list of values. A contract sees it as a list.
#[derive(Drop)]
#[cycle(value)]
pub struct Values {
    values: Vec<Value>,
}

/// The number of a variant, with the values of its row followed by others.
#[derive(Drop)]
pub struct Chosen {
    pub tag: u64,
    pub values: Values,
}

/// The name of a function, with the values that go into it.
#[derive(Drop)]
pub struct Called {
    pub name: Name,
    pub values: Values,
}

impl Model for Values {
    ghost use Rattle.hg_run.specs.code.ValueCode.{ValueList, coded_values};

    ghost Value = { ValueList };

    ghost coded = { coded_values };

    ghost use Rattle.hg_run.specs.code.ValueView.{values_view};

    ghost view = { values_view };

    ghost use Rattle.hg_run.specs.code.ValueSize.{values_size};

    ghost size = { values_size };

    ghost use Rattle.hg_run.specs.code.ValueFalls.{most_le-values_size};

    ghost size_decreases = { λ a h. most_le-values_size a.values.items };
}

impl Values {
    ghost use Rattle.std.specs.Prelude.{◌≡◌, ◌∷◌, ◌++◌, [], map, slice_get};
    ghost use Rattle.std.specs.Prelude.{IfOk, OnOk};
    ghost use Rattle.std.specs.Option.{option_copied, option_map};
    ghost use Rattle.hg_graph.specs.Value.{values};
    ghost use Rattle.hg_graph.specs.Value as spec;
    ghost use Rattle.hg_steps.specs.Machine.{variant_of, function_of};
    ghost use Rattle.hg_run.specs.code.ValueView.{value_view};
    ghost use Rattle.hg_run.specs.code.ChosenView.{chosen_view, called_view};

    /// No values. Takes no memory.
    pub fn new(alloc: Global) -> Values
        ensures { result ≡ [] }
    {
        Values {
            values: Vec::new(alloc),
        }
    }

    /// The value at place `k`; `None` exactly where `k` isn't less than their number.
    pub fn get(&self, k: u64) -> Option<&Value>
        ensures { option_map value_view (option_copied result) ≡ slice_get self.now k }
    {
        self.values.get(k as usize)
    }

    /// The values in order.
    pub fn as_slice(&self) -> &[Value]
        ensures { map value_view result.now ≡ self.now }
    {
        self.values.as_slice()
    }

    /// Takes the first value apart, which has to be a variant: its number, and the values of its
    /// row followed by the other values. None where it isn't one.
    pub fn choose(self) -> Result<Option<Chosen>, AllocError>
        ensures { IfOk result (λ found. option_map chosen_view found ≡ variant_of self) }
    {
        let mut others = self.values;
        if others.len() == 0 {
            return Ok(None);
        }
        match others.remove(0) {
            Value::Variant(tag, mut values) => {
                values.values.append(&mut others)?;
                Ok(Some(Chosen { tag, values }))
            }
            _ => Ok(None),
        }
    }

    /// Takes the first value apart, which has to be a function: its name, and the other values.
    /// None where it isn't one.
    pub fn called(self) -> Option<Called>
        ensures { option_map called_view result ≡ function_of self }
    {
        let mut others = self.values;
        if others.len() == 0 {
            return None;
        }
        match others.remove(0) {
            Value::Function(name) => Some(Called {
                name,
                values: Values { values: others },
            }),
            _ => None,
        }
    }

    /// Appends a value.
    pub fn push(&mut self, value: Value) -> Result<(), AllocError>
        ensures { OnOk result (self.new ≡ self.old ++ value_view value ∷ []) }
    {
        self.values.push(value)?;
        Ok(())
    }

    /// The same values.
    #[cycle(copying)]
    pub fn copy(&self, alloc: Global) -> Result<Values, AllocError>
        ensures { IfOk result (λ copy. copy ≡ self.now) }
    {
        let mut values = Vec::new(alloc);
        for k in 0..self.values.len() {
            values.push(self.values[k].copy(alloc)?)?;
        }
        Ok(Values { values })
    }
}

impl Value {
    ghost use Rattle.std.specs.Prelude.{◌≡◌, IfOk};
    ghost use Rattle.hg_run.specs.code.ValueView.{value_view};

    /// The same value.
    #[cycle(copying)]
    pub fn copy(&self, alloc: Global) -> Result<Value, AllocError>
        ensures { IfOk result (λ copy. value_view copy ≡ value_view self.now) }
    {
        match self {
            Value::Int(n) => Ok(Value::Int(*n)),
            Value::Qubit(q) => Ok(Value::Qubit(*q)),
            Value::Variant(k, values) => Ok(Value::Variant(*k, values.copy(alloc)?)),
            Value::Function(name) => Ok(Value::Function(name.copy()?)),
        }
    }
}
