//! The types of functions.

ghost use Rattle.std.specs.Prelude.{◌≡◌, IfOk, Some, map};
ghost use Rattle.gp_tree.specs.Program.{function_definition};
ghost use Rattle.gp_tree.specs.Statement.{statements};
ghost use Rattle.gp_types.specs.Signature.{parameter_view, signature_view};
ghost use Rattle.gp_locals.specs.Environment.{nothing_usable};
ghost use Rattle.gp_typing.specs.Checks.{Answers};
ghost use Rattle.gp_typing.specs.Functions as spec;
ghost use Rattle.gp_typing.specs.code.FunctionView.{body_typing};
ghost use Rattle.gp_scope.specs.ScopeView.{known_in};
ghost use Rattle.gp_typing.specs.code.StatementView.{frame_view, known_for};
ghost use Rattle.gp_typing.specs.View.{block_view, function_view};

use crate::ends::{into_block, reaches_end};
use crate::fault::TypeFault;
use crate::frame::Frame;
use crate::statements::check_block;
use crate::typed::{TypedBlock, TypedFunction};
use gp_base::{LineNo, Sequence};
use gp_locals::{Environment, Locals, locals_of};
use gp_scope::Scope;
use gp_tree::{Function, Stmt};
use gp_types::{SigParam, SigParams, Signature};
use std::alloc::{AllocError, Global};

/// A function with its types. One that the scope doesn't know is an `UnknownName` at its line.
#[tactic(auto, using(crate::proofs::FunctionLemmas::function_goes))]
pub fn check_function(
    alloc: Global,
    scope: &Scope,
    function: &Function,
) -> Result<TypedFunction, TypeFault>
    ensures { Answers function_view result (spec.function_typing (known_in scope.now) (function_definition function.now)) }
{
    let line = function.line;
    let Some(signature) = scope.signature(function.name.as_str()) else {
        return Err(TypeFault::UnknownName(line));
    };
    let params = signature.params.as_slice();
    let names = locals_of(alloc, params, &function.body)?;
    let start = start_of(alloc, &names, params)?;
    let frame = Frame {
        scope,
        names: &names,
        signature,
    };
    let body = check_body(alloc, &frame, line, start, &function.body)?;
    let signature = copy_signature(alloc, signature)?;
    let name = function.name.copy()?;
    Ok(TypedFunction {
        line,
        name,
        signature,
        body,
    })
}

// The body of a function, from the environment where it begins.
fn check_body(
    alloc: Global,
    frame: &Frame<'_>,
    line: LineNo,
    start: Environment,
    body: &[Stmt],
) -> Result<TypedBlock, TypeFault>
    ensures { Answers block_view result (body_typing (known_for frame.now) (frame_view frame.now) line start (statements body.now)) }
{
    if !start.is_within() {
        return Err(TypeFault::TooManyPlaces(line));
    }
    let body = check_block(alloc, body, frame, Some(start))?;
    if frame.signature.result.is_some() && reaches_end(&body) {
        return Err(TypeFault::MissingReturn(line));
    }
    Ok(into_block(body))
}

// What is usable where a function begins: its parameters.
fn start_of(alloc: Global, names: &Locals, params: &[SigParam]) -> Result<Environment, AllocError>
    ensures { IfOk result (λ start. start
        ≡ spec.with_parameters names.now (nothing_usable names.now) (map parameter_view params.now)) }
{
    let mut start = Environment::new(alloc, names);
    for param in params {
        let ty = param.ty.copy()?;
        start.put(names, param.name.as_str(), ty)?;
    }
    Ok(start)
}

// The same signature once more.
fn copy_signature(alloc: Global, signature: &Signature) -> Result<Signature, AllocError>
    ensures { IfOk result (λ made. signature_view made ≡ signature_view signature.now) }
{
    let params = copy_params(alloc, signature.params.as_slice())?;
    let result = match &signature.result {
        None => None,
        Some(ty) => Some(ty.copy()?),
    };
    Ok(Signature { params, result })
}

fn copy_params(alloc: Global, params: &[SigParam]) -> Result<SigParams, AllocError>
    ensures { IfOk result (λ made. map parameter_view made ≡ map parameter_view params.now) }
{
    let mut made = Sequence::new(alloc);
    for param in params {
        made.push(copy_param(param)?)?;
    }
    Ok(made)
}

fn copy_param(param: &SigParam) -> Result<SigParam, AllocError>
    ensures { IfOk result (λ made. parameter_view made ≡ parameter_view param.now) }
{
    Ok(SigParam {
        name: param.name.copy()?,
        ty: param.ty.copy()?,
        mode: param.mode,
    })
}
