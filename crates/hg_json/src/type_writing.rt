//! The text of a type.

ghost use Rattle.std.specs.Prelude.{◌≡◌, ◌++◌, ℕ, List, string_bytes, IfOk, OnOk};
ghost use Rattle.serde_json.specs.View.{view as seen};
ghost use Rattle.hg_ops.specs.GraphType.{row_of, rows_of};
ghost use Rattle.hg_ops.specs.TypeView.{type_view};
ghost use Rattle.hg_json.specs.GraphText.{type_data};
ghost use Rattle.hg_json.specs.TypeText.{type_onto, row_onto, rows_onto};
ghost use Rattle.hg_json.specs.code.Marks.{mark_if};

use hg_ops::{GraphType, Row, Rows};
use serde_json::Value;
use std::alloc::{AllocError, Global};

// Writes the text of a type at the end.
#[cycle(types)]
fn push_type(out: &mut String, ty: &GraphType) -> Result<(), AllocError>
    ensures { OnOk result ((rest : List ℕ) →
        string_bytes out.new ++ rest ≡ string_bytes out.old ++ type_onto (type_view ty.now) rest) }
{
    match ty {
        GraphType::Int => out.push_str("int"),
        GraphType::Qubit => out.push_str("qubit"),
        GraphType::Sum(rows) => {
            out.push_str("(")?;
            push_rows(out, rows)?;
            out.push_str(")")
        }
        GraphType::Function(ins, outs) => {
            out.push_str("[")?;
            push_row(out, ins)?;
            out.push_str(":")?;
            push_row(out, outs)?;
            out.push_str("]")
        }
    }
}

// Writes rows with bars between.
#[cycle(types)]
fn push_rows(out: &mut String, rows: &Rows) -> Result<(), AllocError>
    ensures { OnOk result ((rest : List ℕ) →
        string_bytes out.new ++ rest ≡ string_bytes out.old ++ rows_onto (rows_of rows.now) rest) }
{
    let rows = rows.as_slice();
    for k in 0..rows.len() {
        push_mark(out, "|", k > 0)?;
        push_row(out, &rows[k])?;
    }
    Ok(())
}

// Writes types with commas between.
#[cycle(types)]
fn push_row(out: &mut String, row: &Row) -> Result<(), AllocError>
    ensures { OnOk result ((rest : List ℕ) →
        string_bytes out.new ++ rest ≡ string_bytes out.old ++ row_onto (row_of row.now) rest) }
{
    let types = row.as_slice();
    for k in 0..types.len() {
        push_mark(out, ",", k > 0)?;
        push_type(out, &types[k])?;
    }
    Ok(())
}

// Writes a mark where something stands before.
fn push_mark(out: &mut String, mark: &str, later: bool) -> Result<(), AllocError>
    ensures { OnOk result (string_bytes out.new ≡ string_bytes out.old ++ mark_if mark.now later) }
{
    if later {
        out.push_str(mark)?;
    }
    Ok(())
}

/// The text of a type, as a value.
pub fn type_value(alloc: Global, ty: &GraphType) -> Result<Value, AllocError>
    ensures { IfOk result (λ value. seen value ≡ type_data (type_view ty.now)) }
{
    let mut text = String::new(alloc);
    push_type(&mut text, ty)?;
    Ok(Value::String(text))
}
