//! The types of values at ports.

ghost use Rattle.std.specs.Prelude.{Decides, ◌≡◌, map};
ghost use Rattle.hg_ops.specs.TypeView.{type_view};

use std::alloc::{AllocError, Global};
use std::marker::Model;

/// The type of the value at a port of a graph.
#[derive(Drop)]
#[cycle(graph_type)]
pub enum GraphType {
    /// A whole number of 64 bits with a sign.
    Int,
    /// A qubit.
    Qubit,
    /// One of several rows: its number, with values of its types.
    Sum(Rows),
    /// A function, by its name, that takes values of one row and gives values of another.
    Function(Row, Row),
}

/// A list of types, as of the values at the inputs of a node. A contract sees it as a list.
#[derive(Drop)]
#[cycle(graph_type)]
pub struct Row {
    types: Vec<GraphType>,
}

/// A list of rows. A contract sees it as a list of lists.
#[derive(Drop)]
#[cycle(graph_type)]
pub struct Rows {
    rows: Vec<Row>,
}

impl Model for Row {
    ghost use Rattle.hg_ops.specs.code.TypeCode.{Types, coded_types};

    ghost Value = { Types };

    ghost coded = { coded_types };

    ghost use Rattle.hg_ops.specs.TypeView.{row_view};

    ghost view = { row_view };

    ghost use Rattle.hg_ops.specs.code.TypeSize.{row_size};

    ghost size = { row_size };

    ghost use Rattle.hg_ops.specs.code.TypeFalls.{most_le-row_size};

    ghost size_decreases = { λ a h. most_le-row_size a.types.items };
}

impl Model for Rows {
    ghost use Rattle.std.specs.Prelude.{List};
    ghost use Rattle.std.specs.Coded.{coded_list};
    ghost use Rattle.hg_ops.specs.code.TypeCode.{Types, coded_types};

    ghost Value = { List Types };

    ghost coded = { coded_list coded_types };

    ghost use Rattle.hg_ops.specs.TypeView.{rows_view};

    ghost view = { rows_view };

    ghost use Rattle.hg_ops.specs.code.TypeSize.{rows_size};

    ghost size = { rows_size };

    ghost use Rattle.hg_ops.specs.code.TypeFalls.{most_le-rows_size};

    ghost size_decreases = { λ a h. most_le-rows_size a.rows.items };
}

impl Row {
    ghost use Rattle.std.specs.Prelude.{Decides, ◌≡◌, ◌<◌, ◌^◌, [], ◌∷◌, ◌++◌, length, slice_get, map, IfOk, OnOk, OnErr};
    ghost use Rattle.std.specs.Option.{option_copied, option_map};
    ghost use Rattle.hg_ops.specs.GraphType.{row_of, row_linear};
    ghost use Rattle.hg_ops.specs.TypeView.{type_view};

    /// A row without types. Takes no memory.
    pub fn new(alloc: Global) -> Row
        ensures { result ≡ [] }
    {
        Row {
            types: Vec::new(alloc),
        }
    }

    /// The number of types, less than 2^63.
    pub fn len(&self) -> u64
        ensures len { result ≡ length self.now }
        ensures few { result < 2 ^ 63 }
    {
        self.types.len() as u64
    }

    /// The type at place `k`, counted from 0; `None` exactly where `k` isn't less than the length.
    pub fn get(&self, k: u64) -> Option<&GraphType>
        ensures { option_map type_view (option_copied result) ≡ slice_get self.now k }
    {
        self.types.get(k as usize)
    }

    /// The types in order, for loops.
    pub fn as_slice(&self) -> &[GraphType]
        ensures { map type_view result.now ≡ self.now }
    {
        self.types.as_slice()
    }

    /// Appends a type. After an error the row is as it was, and the type is dropped.
    pub fn push(&mut self, ty: GraphType) -> Result<(), AllocError>
        ensures ok { OnOk result (self.new ≡ self.old ++ type_view ty ∷ []) }
        ensures err { OnErr result (self.new ≡ self.old) }
    {
        self.types.push(ty)?;
        Ok(())
    }

    /// Appends the types of another row. After an error some of them may be there.
    pub fn append_copy(&mut self, alloc: Global, other: &Row) -> Result<(), AllocError>
        ensures { OnOk result (self.new ≡ self.old ++ other.now) }
    {
        for k in 0..other.types.len() {
            self.types.push(other.types[k].copy(alloc)?)?;
        }
        Ok(())
    }

    /// A row of the same types.
    #[cycle(copying)]
    pub fn copy(&self, alloc: Global) -> Result<Row, AllocError>
        ensures { IfOk result (λ copy. copy ≡ self.now) }
    {
        let mut types = Vec::new(alloc);
        for k in 0..self.types.len() {
            types.push(self.types[k].copy(alloc)?)?;
        }
        Ok(Row { types })
    }

    /// Whether the types are those of another row, place by place. Takes no memory.
    #[cycle(same)]
    pub fn is_same(&self, other: &Row) -> bool
        ensures { Decides result (self.now ≡ other.now) }
    {
        same_types(self.types.as_slice(), other.types.as_slice())
    }

    // Whether one of the types is linear.
    #[cycle(linear)]
    fn is_linear(&self) -> bool
        ensures { result ≡ row_linear (row_of self.now) }
    {
        for k in 0..self.types.len() {
            if self.types[k].is_linear() {
                return true;
            }
        }
        false
    }
}

/// Whether two lists have the same types, place by place. Takes no memory.
#[cycle(same)]
pub fn same_types(ones: &[GraphType], others: &[GraphType]) -> bool
    ensures { Decides result (map type_view ones.now ≡ map type_view others.now) }
{
    if ones.len() != others.len() {
        return false;
    }
    for k in 0..ones.len() {
        if !ones[k].is_same(&others[k]) {
            return false;
        }
    }
    true
}

impl Rows {
    ghost use Rattle.std.specs.Prelude.{Decides, ◌≡◌, ◌<◌, ◌^◌, [], ◌∷◌, ◌++◌, length, slice_get, IfOk, OnOk, OnErr};
    ghost use Rattle.std.specs.Option.{option_copied};
    ghost use Rattle.hg_ops.specs.GraphType.{rows_of, rows_linear};

    /// No rows. Takes no memory.
    pub fn new(alloc: Global) -> Rows
        ensures { result ≡ [] }
    {
        Rows {
            rows: Vec::new(alloc),
        }
    }

    /// The number of rows, less than 2^63.
    pub fn len(&self) -> u64
        ensures len { result ≡ length self.now }
        ensures few { result < 2 ^ 63 }
    {
        self.rows.len() as u64
    }

    /// The row at place `k`, counted from 0; `None` exactly where `k` isn't less than the length.
    pub fn get(&self, k: u64) -> Option<&Row>
        ensures { option_copied result ≡ slice_get self.now k }
    {
        self.rows.get(k as usize)
    }

    /// The rows in order, for loops.
    pub fn as_slice(&self) -> &[Row]
        ensures { result.now ≡ self.now }
    {
        self.rows.as_slice()
    }

    /// Appends a row. After an error the rows are as they were, and the new one is dropped.
    pub fn push(&mut self, row: Row) -> Result<(), AllocError>
        ensures ok { OnOk result (self.new ≡ self.old ++ row ∷ []) }
        ensures err { OnErr result (self.new ≡ self.old) }
    {
        self.rows.push(row)?;
        Ok(())
    }

    /// The same rows.
    #[cycle(copying)]
    pub fn copy(&self, alloc: Global) -> Result<Rows, AllocError>
        ensures { IfOk result (λ copy. copy ≡ self.now) }
    {
        let mut rows = Vec::new(alloc);
        for k in 0..self.rows.len() {
            rows.push(self.rows[k].copy(alloc)?)?;
        }
        Ok(Rows { rows })
    }

    /// Whether the rows are those of another list, place by place. Takes no memory.
    #[cycle(same)]
    pub fn is_same(&self, other: &Rows) -> bool
        ensures { Decides result (self.now ≡ other.now) }
    {
        if self.rows.len() != other.rows.len() {
            return false;
        }
        for k in 0..self.rows.len() {
            if !self.rows[k].is_same(&other.rows[k]) {
                return false;
            }
        }
        true
    }

    // Whether one of the rows has a linear type.
    #[cycle(linear)]
    fn is_linear(&self) -> bool
        ensures { result ≡ rows_linear (rows_of self.now) }
    {
        for k in 0..self.rows.len() {
            if self.rows[k].is_linear() {
                return true;
            }
        }
        false
    }
}

impl GraphType {
    ghost use Rattle.std.specs.Prelude.{Decides, ◌≡◌, IfOk};
    ghost use Rattle.hg_ops.specs.GraphType.{is_linear};
    ghost use Rattle.hg_ops.specs.TypeView.{type_view};

    /// The same type.
    #[cycle(copying)]
    pub fn copy(&self, alloc: Global) -> Result<GraphType, AllocError>
        ensures { IfOk result (λ copy. type_view copy ≡ type_view self.now) }
    {
        match self {
            GraphType::Int => Ok(GraphType::Int),
            GraphType::Qubit => Ok(GraphType::Qubit),
            GraphType::Sum(rows) => Ok(GraphType::Sum(rows.copy(alloc)?)),
            GraphType::Function(ins, outs) => {
                Ok(GraphType::Function(ins.copy(alloc)?, outs.copy(alloc)?))
            }
        }
    }

    /// Whether the type is the same as another. Takes no memory.
    #[cycle(same)]
    pub fn is_same(&self, other: &GraphType) -> bool
        ensures { Decides result (type_view self.now ≡ type_view other.now) }
    {
        match (self, other) {
            (GraphType::Int, GraphType::Int) | (GraphType::Qubit, GraphType::Qubit) => true,
            (GraphType::Sum(rows), GraphType::Sum(others)) => rows.is_same(others),
            (GraphType::Function(ins, outs), GraphType::Function(other_ins, other_outs)) => {
                ins.is_same(other_ins) && outs.is_same(other_outs)
            }
            _ => false,
        }
    }

    /// Whether a value of the type has to be used exactly once: the type is that of qubits, or a Sum with a linear
    /// type in at least one of its rows. No function type is linear. Takes no memory.
    #[cycle(linear)]
    pub fn is_linear(&self) -> bool
        ensures { result ≡ is_linear (type_view self.now) }
    {
        match self {
            GraphType::Int | GraphType::Function(_, _) => false,
            GraphType::Qubit => true,
            GraphType::Sum(rows) => rows.is_linear(),
        }
    }
}
