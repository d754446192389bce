//! How a function begins and what it leaves.

ghost use Rattle.std.specs.Prelude.{◌≡◌, IfOk, map, option_map};
ghost use Rattle.gp_types.specs.Signature.{parameter_view};
ghost use Rattle.gp_evaluator.specs.Evaluation as spec;
ghost use Rattle.gp_meaning.specs.Meaning.{entered, finals_of, returns, ends_by};
ghost use Rattle.gp_evaluator.specs.View.{value_view, values_view, variables_view, called_view, Found, RanAlone};

use crate::built_ins::Called;
use crate::completion::Completion;
use crate::halt::Halt;
use crate::value::Value;
use crate::variables::Variables;
use gp_locals::Locals;
use gp_types::{Mode, SigParam};
use std::alloc::{AllocError, Global};

/// The values of a function's names when it begins: each parameter has its value.
pub fn begin(
    alloc: Global,
    names: &Locals,
    params: &[SigParam],
    values: &[Value],
) -> Result<Variables, AllocError>
    ensures { IfOk result (λ made. variables_view made ≡ entered names.now (map parameter_view params.now) (map value_view values.now)) }
{
    let mut variables = Variables::new(alloc, names)?;
    for i in 0..params.len() {
        if i < values.len() {
            let value = values[i].copy(alloc)?;
            variables.set(names, params[i].name.as_str(), value);
        }
    }
    Ok(variables)
}

// The final value of a parameter, where it is borrowed; it is stuck where such a parameter has none.
fn final_of(
    alloc: Global,
    names: &Locals,
    param: &SigParam,
    variables: &Variables,
) -> Result<Option<Value>, Halt>
    ensures { Found (option_map value_view) result (spec.final_of names.now (parameter_view param.now) (variables_view variables.now)) }
{
    if param.mode != Mode::Borrowed {
        return Ok(None);
    }
    match variables.get(names, param.name.as_str()) {
        Some(value) => Ok(Some(value.copy(alloc)?)),
        None => Err(Halt::Stuck),
    }
}

// For each parameter its final value, where it is borrowed.
fn final_values(
    alloc: Global,
    names: &Locals,
    params: &[SigParam],
    variables: &Variables,
) -> Result<Vec<Option<Value>>, Halt>
    ensures { Found (λ made. map (option_map value_view) made.items) result (finals_of names.now (map parameter_view params.now) (variables_view variables.now)) }
{
    let mut finals = Vec::new(alloc);
    for param in params {
        let value = final_of(alloc, names, param, variables)?;
        finals.push(value)?;
    }
    Ok(finals)
}

fn leave_with(
    alloc: Global,
    names: &Locals,
    params: &[SigParam],
    variables: &Variables,
    answer: Option<Value>,
) -> Result<Called, Halt>
    ensures { RanAlone called_view result (variables_view variables.now) (variables_view variables.now) (returns names.now (map parameter_view params.now) (option_map value_view answer)) }
{
    let finals = final_values(alloc, names, params, variables)?;
    Ok(Called { answer, finals })
}

/// What a function leaves where its body ends so.
pub fn leave(
    alloc: Global,
    names: &Locals,
    params: &[SigParam],
    variables: &Variables,
    completion: Completion,
) -> Result<Called, Halt>
    ensures { RanAlone called_view result (variables_view variables.now) (variables_view variables.now) (ends_by names.now (map parameter_view params.now) (spec.completion_view completion)) }
{
    match completion {
        Completion::Normal => leave_with(alloc, names, params, variables, None),
        Completion::Return(answer) => leave_with(alloc, names, params, variables, answer),
        Completion::Break | Completion::Continue => Err(Halt::Stuck),
    }
}
