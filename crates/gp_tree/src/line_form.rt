//! The form of one logical line.

ghost use Rattle.std.specs.Prelude.{◌≡◌, IfOk, map};
ghost use Rattle.gp_tree.specs.Expression.{expression};
ghost use Rattle.gp_tree.specs.Form as spec;
ghost use Rattle.gp_tree.specs.Form.{form, form_behind, maybe_form, parameter};
ghost use Rattle.gp_tree.specs.TypeExpression.{maybe_type};

use crate::expr::{BinOp, Expr};
use crate::function::Params;
use crate::place::{Place, Targets};
use crate::type_expr::TypeExpr;
use gp_base::{Name, Names};
use std::alloc::{AllocError, Global};

/// The form of one logical line, with the parts that the line spells. A header of a block that has a simple
/// statement behind its colon, on the same line, keeps that statement's form; else its block follows on deeper
/// lines.
#[derive(Debug, Drop)]
pub enum LineForm {
    /// A string alone; its text isn't kept.
    Docstring,
    /// `targets = value`
    Assign(Targets, Expr),
    /// `name: type = value`
    Annotated(Name, TypeExpr, Expr),
    /// `place += value` or the like, with the operator before its `=`.
    Augmented(Place, BinOp, Expr),
    /// An expression alone.
    Evaluate(Expr),
    /// `return`, with its value unless that is missing or written `None`.
    Return(Option<Expr>),
    /// `break`
    Break,
    /// `continue`
    Continue,
    /// `pass`
    Pass,
    /// `def`: the name, the parameters, the type of the result (none where it is missing or written `None`), and
    /// the simple statement behind the colon.
    Def(Name, Params, Option<TypeExpr>, Option<Box<LineForm>>),
    /// `class name:`
    Class(Name),
    /// `if`: the test, and the simple statement behind the colon.
    If(Expr, Option<Box<LineForm>>),
    /// `elif`: the test, and the simple statement behind the colon.
    Elif(Expr, Option<Box<LineForm>>),
    /// `while`: the test, and the simple statement behind the colon.
    While(Expr, Option<Box<LineForm>>),
    /// `else`, with the simple statement behind the colon.
    Else(Option<Box<LineForm>>),
    /// `for name in range(count):` with the name, the count, and the simple statement behind the colon.
    For(Name, Expr, Option<Box<LineForm>>),
    /// `@guppy`
    FunctionDecorator,
    /// `@guppy.struct`
    StructDecorator,
    /// `from module import names`: the module's name with its dots, and the names.
    Import(Name, Names),
    /// `name: type`, a field of a class.
    Field(Name, TypeExpr),
    /// `name.compile()` or `name.check()`, with the name before the dot.
    ModuleCall(Name),
}

/// The simple statement behind a colon, in a place of its own.
fn behind(alloc: Global, body: Option<LineForm>) -> Result<Option<Box<LineForm>>, AllocError>
    ensures { IfOk result (λ placed. form_behind placed ≡ maybe_form body) }
{
    match body {
        Some(body) => Ok(Some(Box::new(alloc, body)?)),
        None => Ok(None),
    }
}

impl LineForm {
    /// `def name(params) -> result:`, and the simple statement behind the colon, if there is one.
    pub fn def_header(
        alloc: Global,
        name: Name,
        params: Params,
        result_type: Option<TypeExpr>,
        body: Option<LineForm>,
    ) -> Result<LineForm, AllocError>
        ensures { IfOk result (λ made. form made ≡ spec.def_header name (map parameter params) (maybe_type result_type) (maybe_form body)) }
    {
        Ok(LineForm::Def(name, params, result_type, behind(alloc, body)?))
    }

    /// `if test:`, and the simple statement behind the colon, if there is one.
    pub fn if_header(
        alloc: Global,
        test: Expr,
        body: Option<LineForm>,
    ) -> Result<LineForm, AllocError>
        ensures { IfOk result (λ made. form made ≡ spec.if_header (expression test) (maybe_form body)) }
    {
        Ok(LineForm::If(test, behind(alloc, body)?))
    }

    /// `elif test:`, and the simple statement behind the colon, if there is one.
    pub fn elif_header(
        alloc: Global,
        test: Expr,
        body: Option<LineForm>,
    ) -> Result<LineForm, AllocError>
        ensures { IfOk result (λ made. form made ≡ spec.elif_header (expression test) (maybe_form body)) }
    {
        Ok(LineForm::Elif(test, behind(alloc, body)?))
    }

    /// `while test:`, and the simple statement behind the colon, if there is one.
    pub fn while_header(
        alloc: Global,
        test: Expr,
        body: Option<LineForm>,
    ) -> Result<LineForm, AllocError>
        ensures { IfOk result (λ made. form made ≡ spec.while_header (expression test) (maybe_form body)) }
    {
        Ok(LineForm::While(test, behind(alloc, body)?))
    }

    /// `else:`, and the simple statement behind the colon, if there is one.
    pub fn else_header(alloc: Global, body: Option<LineForm>) -> Result<LineForm, AllocError>
        ensures { IfOk result (λ made. form made ≡ spec.else_header (maybe_form body)) }
    {
        Ok(LineForm::Else(behind(alloc, body)?))
    }

    /// `for name in range(count):`, and the simple statement behind the colon, if there is one.
    pub fn for_header(
        alloc: Global,
        name: Name,
        count: Expr,
        body: Option<LineForm>,
    ) -> Result<LineForm, AllocError>
        ensures { IfOk result (λ made. form made ≡ spec.for_header name (expression count) (maybe_form body)) }
    {
        Ok(LineForm::For(name, count, behind(alloc, body)?))
    }
}
