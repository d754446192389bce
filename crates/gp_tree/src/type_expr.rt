//! Types as they are written.

ghost use Rattle.std.specs.Prelude.{◌≡◌, IfOk};
ghost use Rattle.gp_tree.specs.TypeExpression as spec;
ghost use Rattle.gp_tree.specs.TypeExpression.{type_expression, type_expressions, parameter_types, maybe_type, result_of};

use gp_base::Name;
use std::alloc::{AllocError, Global};
use std::rc::{Rc, RcSlice};

/// A type as it is written in the source. Its copies share its parts.
#[derive(Debug, Drop)]
#[cycle(type_expr)]
pub enum TypeExpr {
    /// A name, as `int`, `qubit` or that of a struct. Whether there is such a type isn't said here.
    Named(Name),
    /// `tuple[..]` with the types of its parts, in order; one part or more.
    Tuple(RcSlice<TypeExpr>),
    /// `Callable[[..], ..]` with its parameters, in order, and the type of its result; none where that is `None`.
    Callable(RcSlice<FunParamExpr>, Option<Rc<TypeExpr>>),
}

/// A list of written types.
pub type TypeExprs = Vec<TypeExpr>;

/// A parameter of a function type, as it is written.
#[derive(Debug, Drop)]
#[cycle(type_expr)]
pub struct FunParamExpr {
    /// The type of its values.
    pub ty: TypeExpr,
    /// Whether the type is marked `@owned`.
    pub owned: bool,
}

/// A list of parameters of a function type.
pub type FunParamExprs = Vec<FunParamExpr>;

impl TypeExpr {
    /// `tuple[..]` of parts with these types.
    pub fn tuple(parts: TypeExprs) -> Result<TypeExpr, AllocError>
        ensures { IfOk result (λ made. type_expression made ≡ spec.tuple_type (type_expressions parts.items)) }
    {
        Ok(TypeExpr::Tuple(RcSlice::from_vec(parts)?))
    }

    /// `Callable[[..], ..]` of these parameters and this result.
    #[tactic(auto, using(crate::proofs::FunctionTypes::answers))]
    pub fn function(
        alloc: Global,
        params: FunParamExprs,
        answer: Option<TypeExpr>,
    ) -> Result<TypeExpr, AllocError>
        ensures { IfOk result (λ made. type_expression made
            ≡ spec.function_type (parameter_types params.items) (result_of (maybe_type answer))) }
    {
        let params = RcSlice::from_vec(params)?;
        let Some(answer) = answer else {
            return Ok(TypeExpr::Callable(params, None));
        };
        Ok(TypeExpr::Callable(params, Some(Rc::new(alloc, answer)?)))
    }

    /// The same type once more. It shares its parts, so this takes no memory; it fails only past 2^64 - 1 copies.
    pub fn copy(&self) -> Result<TypeExpr, AllocError>
        ensures { IfOk result (λ copy. type_expression copy ≡ type_expression self.now) }
    {
        match self {
            TypeExpr::Named(name) => Ok(TypeExpr::Named(name.copy()?)),
            TypeExpr::Tuple(parts) => Ok(TypeExpr::Tuple(parts.clone()?)),
            TypeExpr::Callable(params, answer) => {
                Ok(TypeExpr::Callable(params.clone()?, answer.clone()?))
            }
        }
    }
}
