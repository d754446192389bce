//! Expressions that have a type.

ghost use Rattle.std.specs.Prelude.{◌≡◌, ◌++◌, ◌∷◌, [], OnOk, map};
ghost use Rattle.gp_types.specs.View.{ty_view};
ghost use Rattle.gp_typing.specs.Checks.{Answers};
ghost use Rattle.gp_typing.specs.Expressions.{value_of};
ghost use Rattle.gp_typing.specs.code.ExpressionView.{value_view};
ghost use Rattle.gp_typing.specs.View.{expression_view};

use crate::fault::TypeFault;
use crate::typed::{TypedExpr, TypedExprs, TypedKind};
use gp_base::LineNo;
use gp_types::{Ty, Tys};
use std::alloc::{AllocError, Global};

/// An expression that stands where a value is needed: it has a type.
#[derive(Drop)]
pub struct Value {
    /// The type of the value.
    pub ty: Ty,
    /// The expression itself.
    pub kind: TypedKind,
}

/// Values in a row.
#[derive(Drop)]
pub struct Values {
    /// The expressions.
    pub exprs: TypedExprs,
    /// Their types.
    pub types: Tys,
}

/// The expression as a value; one without a type is a `Mismatch`. Takes no memory.
pub fn value_of(line: LineNo, expr: TypedExpr) -> Result<Value, TypeFault>
    ensures { Answers value_view result (value_of line (expression_view expr)) }
{
    let TypedExpr { ty, kind } = expr;
    match ty {
        None => Err(TypeFault::Mismatch(line)),
        Some(ty) => Ok(Value { ty, kind }),
    }
}

/// The value as an expression.
pub fn into_expr(value: Value) -> TypedExpr
    ensures { expression_view result ≡ (value_view value).tree }
{
    TypedExpr {
        ty: Some(value.ty),
        kind: value.kind,
    }
}

impl Values {
    /// No values. Takes no memory.
    pub fn new(alloc: Global) -> Values
        ensures exprs { result.exprs.items ≡ [] }
        ensures types { result.types.items ≡ [] }
    {
        Values {
            exprs: Vec::new(alloc),
            types: Vec::new(alloc),
        }
    }

    /// One value more at the end.
    pub fn push(&mut self, value: Value) -> Result<(), AllocError>
        ensures exprs { OnOk result (map expression_view self.new.exprs.items ≡ map expression_view self.old.exprs.items ++ (value_view value).tree ∷ []) }
        ensures types { OnOk result (map ty_view self.new.types.items ≡ map ty_view self.old.types.items ++ ty_view value.ty ∷ []) }
    {
        self.types.push(value.ty.copy()?)?;
        self.exprs.push(into_expr(value))?;
        Ok(())
    }
}
