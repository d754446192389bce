//! The typing phase: gives each expression its type and each statement the types of the usable names before it, or
//! names the first fault.
#![tactic(auto)]

mod assignments;
mod calls;
mod context;
mod ends;
mod expressions;
pub mod fault;
mod frame;
mod functions;
mod operators;
mod places;
mod program;
mod statements;
mod struct_types;
pub mod typed;
mod value;

pub use fault::TypeFault;
pub use gp_locals::{NameType, NameTypes, UsableNames};
pub use program::{Typed, check};
pub use typed::{
    TypedBlock, TypedExpr, TypedExprs, TypedFunction, TypedKind, TypedStmt, TypedStmtKind,
    TypedStmts,
};
