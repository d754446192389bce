//! How functions take and answer values.

ghost use Rattle.std.specs.Prelude.{◌≡◌, IfOk, map, min, nat_lt, not, option_map};
ghost use Rattle.gp_types.specs.Signature.{function_params, function_type, mode_of, parameter_view, signature_view};
ghost use Rattle.gp_types.specs.Signature as spec;
ghost use Rattle.gp_types.specs.Size as sizes;
ghost use Rattle.gp_types.specs.Types.{params_of};
ghost use Rattle.gp_types.specs.View.{ty_view, param_view};
ghost use Rattle.gp_types.specs.declared.limit.TheConstants.{TYPE_SIZE_LIMIT};

use crate::limit::TYPE_SIZE_LIMIT;
use crate::mode::Mode;
use crate::ty::{FunParam, FunParams, Ty, is_linear, size};
use gp_base::{Name, Sequence};
use std::alloc::{AllocError, Global};

/// A parameter of a function.
#[derive(Debug, Drop)]
pub struct SigParam {
    /// The parameter's name.
    pub name: Name,
    /// The type of its values.
    pub ty: Ty,
    /// How it is taken.
    pub mode: Mode,
}

/// A list of parameters, in the order in which a call gives them.
pub type SigParams = Sequence<SigParam>;

/// What a function takes and what it answers.
#[derive(Debug, Drop)]
pub struct Signature {
    /// The parameters in order.
    pub params: SigParams,
    /// The type of the answer; `None` where the function answers nothing.
    pub result: Option<Ty>,
}

impl Mode {
    /// The mode of a parameter: a value without qubits is copied, and a linear one is borrowed unless the parameter is
    /// marked as owned. Takes no memory.
    pub fn of(ty: &Ty, owned: bool) -> Mode
        ensures { result ≡ mode_of (ty_view ty.now) owned }
    {
        match (is_linear(ty), owned) {
            (false, _) => Mode::Copied,
            (true, false) => Mode::Borrowed,
            (true, true) => Mode::Owned,
        }
    }
}

// What stands for every size above the limit.
const ABOVE: u64 = 65;

impl Signature {
    /// Whether the type of functions with this signature is within the limit on types. Takes no memory.
    pub fn is_within_limit(&self) -> bool
        ensures { result ≡ not (nat_lt TYPE_SIZE_LIMIT (sizes.size (function_type (signature_view self.now)))) }
    {
        let answer = match &self.result {
            Some(ty) => size(ty).min(ABOVE),
            None => 0,
        };
        1 + parameters_size(self.params.as_slice()) + answer <= TYPE_SIZE_LIMIT
    }

    /// The type of functions with this signature.
    pub fn function_type(&self, alloc: Global) -> Result<Ty, AllocError>
        ensures { IfOk result (λ made. ty_view made ≡ function_type (signature_view self.now)) }
    {
        let params = fun_params(alloc, self.params.as_slice())?;
        let answer = copy_answer(&self.result)?;
        Ty::function(alloc, params, answer)
    }
}

// The sizes of the parameters' types together; 65 where that is above the limit.
fn parameters_size(params: &[SigParam]) -> u64
    ensures { result ≡ min (sizes.total_param_size (function_params (map parameter_view params.now))) 65 }
{
    let mut total: u64 = 0;
    for param in params {
        total += size(&param.ty).min(ABOVE);
        if total > TYPE_SIZE_LIMIT {
            return ABOVE;
        }
    }
    total
}

fn fun_params(alloc: Global, params: &[SigParam]) -> Result<FunParams, AllocError>
    ensures { IfOk result (λ made.
        params_of (map param_view made.items) ≡ function_params (map parameter_view params.now)) }
{
    let mut made = Vec::new(alloc);
    for param in params {
        made.push(fun_param(param)?)?;
    }
    Ok(made)
}

// A parameter without its name.
fn fun_param(param: &SigParam) -> Result<FunParam, AllocError>
    ensures { IfOk result (λ made. param_view made ≡ spec.fun_param (parameter_view param.now)) }
{
    let ty = param.ty.copy()?;
    Ok(FunParam {
        ty,
        mode: param.mode,
    })
}

fn copy_answer(answer: &Option<Ty>) -> Result<Option<Ty>, AllocError>
    ensures { IfOk result (λ made. option_map ty_view made ≡ option_map ty_view answer.now) }
{
    match answer {
        Some(ty) => Ok(Some(ty.copy()?)),
        None => Ok(None),
    }
}
