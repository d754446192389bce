//! The types at the value ports of ops.

ghost use Rattle.std.specs.Prelude.{◌≡◌, [], ◌∷◌, ◌++◌, map, slice_index_or, IfOk};
ghost use Rattle.hg_ops.specs.GraphType.{sum_type, tuple_type, function_type};
ghost use Rattle.hg_ops.specs.Op as spec;
ghost use Rattle.hg_ops.specs.OpView.{op_view};
ghost use Rattle.hg_ops.specs.code.PlainType.{plain_type, plain_types};
ghost use Rattle.hg_ops.specs.TypeView.{type_view};

use crate::gate::Gate;
use crate::graph_type::{GraphType, Row, Rows};
use crate::op_kind::OpKind;
use crate::tables::{ext_ops, gates};
use std::alloc::{AllocError, Global};

// A type without parts, or that of truth values.
#[derive(Clone, Copy)]
enum Plain {
    Int,
    Qubit,
    Bool,
}

// A row of such types.
#[derive(Clone, Copy)]
enum PlainRow {
    Empty,
    Qubit,
    Int,
    Bool,
    QubitAndBool,
    TwoInts,
    TwoBools,
}

macro_rules! plain {
    () => {
        PlainRow::Empty
    };
    (Qubit) => {
        PlainRow::Qubit
    };
    (Int) => {
        PlainRow::Int
    };
    (Bool) => {
        PlainRow::Bool
    };
    (Qubit Bool) => {
        PlainRow::QubitAndBool
    };
    (Int Int) => {
        PlainRow::TwoInts
    };
    (Bool Bool) => {
        PlainRow::TwoBools
    };
}

macro_rules! rows_of {
    (
        [$alloc:ident $op:ident]
        [$($ext:ident $name:literal $effect:literal [$($in:ident)*] [$($out:ident)*];)*]
        [$($own:ident $own_name:literal $own_effect:literal;)*]
        [$($gate:ident $text:literal $qubits:literal $angles:literal,)*]
    ) => {
        match $op {
            OpKind::Module
            | OpKind::FuncDefn { .. }
            | OpKind::Const { .. }
            | OpKind::DataflowBlock { .. }
            | OpKind::ExitBlock { .. }
            | OpKind::Case { .. } => plain_rows($alloc, PlainRow::Empty, PlainRow::Empty),
            OpKind::Input { types } => Ok((Row::new($alloc), types.copy($alloc)?)),
            OpKind::Output { types } => Ok((types.copy($alloc)?, Row::new($alloc))),
            OpKind::Dfg { ins, outs } => copies($alloc, ins, outs),
            OpKind::Cfg { ins, outs } => copies($alloc, ins, outs),
            OpKind::Call { ins, outs } => copies($alloc, ins, outs),
            OpKind::Conditional { rows, ins, outs } => Ok((sum_and($alloc, rows, ins)?, outs.copy($alloc)?)),
            OpKind::TailLoop { again, leave, rest } => Ok((joined($alloc, again, rest)?, joined($alloc, leave, rest)?)),
            OpKind::Tag { rows, tag } => Ok((row_at($alloc, rows, *tag)?, sum_row($alloc, rows.copy($alloc)?)?)),
            OpKind::CallIndirect { ins, outs } => Ok((function_and($alloc, ins, outs)?, outs.copy($alloc)?)),
            OpKind::LoadConstant => plain_rows($alloc, PlainRow::Empty, PlainRow::Int),
            OpKind::LoadFunction { ins, outs } => Ok((Row::new($alloc), function_row($alloc, ins, outs)?)),
            OpKind::Unpack { types } => Ok((tuple_row($alloc, types)?, types.copy($alloc)?)),
            $(OpKind::$ext { .. } => plain_rows($alloc, plain!($($in)*), plain!($($out)*)),)*
            $(OpKind::$gate => Gate::<$qubits, $angles>::signature($alloc),)*
        }
    };
}

/// The types at an op's value inputs and at its value outputs, in the order of the ports.
pub fn signature(alloc: Global, op: &OpKind) -> Result<(Row, Row), AllocError>
    ensures ins { IfOk result (λ rows. rows.0 ≡ spec.ins_of (op_view op.now)) }
    ensures outs { IfOk result (λ rows. rows.1 ≡ spec.outs_of (op_view op.now)) }
{
    ext_ops!(rows_of, alloc op)
}

// The same two rows.
fn copies(alloc: Global, ins: &Row, outs: &Row) -> Result<(Row, Row), AllocError>
    ensures ins { IfOk result (λ rows. rows.0 ≡ ins.now) }
    ensures outs { IfOk result (λ rows. rows.1 ≡ outs.now) }
{
    Ok((ins.copy(alloc)?, outs.copy(alloc)?))
}

// Rows of types that have no rows to copy.
fn plain_rows(alloc: Global, ins: PlainRow, outs: PlainRow) -> Result<(Row, Row), AllocError>
    ensures ins { IfOk result (λ rows. rows.0 ≡ plain_types ins) }
    ensures outs { IfOk result (λ rows. rows.1 ≡ plain_types outs) }
{
    Ok((plain_row(alloc, ins)?, plain_row(alloc, outs)?))
}

fn plain_row(alloc: Global, row: PlainRow) -> Result<Row, AllocError>
    ensures { IfOk result (λ made. made ≡ plain_types row) }
{
    match row {
        PlainRow::Empty => Ok(Row::new(alloc)),
        PlainRow::Qubit => row_of(alloc, &[Plain::Qubit]),
        PlainRow::Int => row_of(alloc, &[Plain::Int]),
        PlainRow::Bool => row_of(alloc, &[Plain::Bool]),
        PlainRow::QubitAndBool => row_of(alloc, &[Plain::Qubit, Plain::Bool]),
        PlainRow::TwoInts => row_of(alloc, &[Plain::Int, Plain::Int]),
        PlainRow::TwoBools => row_of(alloc, &[Plain::Bool, Plain::Bool]),
    }
}

fn row_of(alloc: Global, types: &[Plain]) -> Result<Row, AllocError>
    ensures { IfOk result (λ row. row ≡ map plain_type types.now) }
{
    let mut row = Row::new(alloc);
    for ty in types {
        row.push(type_of(alloc, *ty)?)?;
    }
    Ok(row)
}

fn type_of(alloc: Global, ty: Plain) -> Result<GraphType, AllocError>
    ensures { IfOk result (λ made. type_view made ≡ plain_type ty) }
{
    match ty {
        Plain::Int => Ok(GraphType::Int),
        Plain::Qubit => Ok(GraphType::Qubit),
        Plain::Bool => {
            let mut rows = Rows::new(alloc);
            rows.push(Row::new(alloc))?;
            rows.push(Row::new(alloc))?;
            Ok(GraphType::Sum(rows))
        }
    }
}

// The row of a Sum alone.
fn sum_row(alloc: Global, rows: Rows) -> Result<Row, AllocError>
    ensures { IfOk result (λ row. row ≡ sum_type rows ∷ []) }
{
    let mut row = Row::new(alloc);
    row.push(GraphType::Sum(rows))?;
    Ok(row)
}

// The row of the Sum of one row alone.
fn tuple_row(alloc: Global, types: &Row) -> Result<Row, AllocError>
    ensures { IfOk result (λ row. row ≡ tuple_type types.now ∷ []) }
{
    let mut rows = Rows::new(alloc);
    rows.push(types.copy(alloc)?)?;
    sum_row(alloc, rows)
}

// The row of a function type alone.
fn function_row(alloc: Global, ins: &Row, outs: &Row) -> Result<Row, AllocError>
    ensures { IfOk result (λ row. row ≡ function_type ins.now outs.now ∷ []) }
{
    let mut row = Row::new(alloc);
    row.push(GraphType::Function(ins.copy(alloc)?, outs.copy(alloc)?))?;
    Ok(row)
}

// A function type, and then the types that go into the function.
fn function_and(alloc: Global, ins: &Row, outs: &Row) -> Result<Row, AllocError>
    ensures { IfOk result (λ row. row ≡ function_type ins.now outs.now ∷ ins.now) }
{
    let mut row = function_row(alloc, ins, outs)?;
    row.append_copy(alloc, ins)?;
    Ok(row)
}

// A Sum, and then the types of a row.
fn sum_and(alloc: Global, rows: &Rows, types: &Row) -> Result<Row, AllocError>
    ensures { IfOk result (λ row. row ≡ sum_type rows.now ∷ types.now) }
{
    let mut row = sum_row(alloc, rows.copy(alloc)?)?;
    row.append_copy(alloc, types)?;
    Ok(row)
}

// The types of a row and then those of another.
fn joined(alloc: Global, front: &Row, back: &Row) -> Result<Row, AllocError>
    ensures { IfOk result (λ row. row ≡ front.now ++ back.now) }
{
    let mut row = front.copy(alloc)?;
    row.append_copy(alloc, back)?;
    Ok(row)
}

// The row at place `k`, or one without types where there is none.
fn row_at(alloc: Global, rows: &Rows, k: u64) -> Result<Row, AllocError>
    ensures { IfOk result (λ row. row ≡ slice_index_or rows.now k []) }
{
    match rows.get(k) {
        Some(row) => row.copy(alloc),
        None => Ok(Row::new(alloc)),
    }
}
