//! The evaluator: plain recursion over the text and into the functions that are called. Loops are loops.

ghost use Rattle.std.specs.Prelude.{◌≡◌, ◌≤◌, IfOk, Some, map, option_map, drop};
ghost use Rattle.gp_locals.specs.CalleeView.{callee_view};
ghost use Rattle.gp_tree.specs.Expression as expr;
ghost use Rattle.gp_tree.specs.Expression.{expression, expressions};
ghost use Rattle.gp_tree.specs.Statement.{statement, statements};
ghost use Rattle.gp_meaning.specs.Calls.{called};
ghost use Rattle.gp_evaluator.specs.Evaluation.{completion_view, state_of, rest_of, rest_for, expression_run, value_run, truth_run, values_run, statement_run, block_run, while_run, for_run};
ghost use Rattle.gp_evaluator.specs.Evaluation as spec;
ghost use Rattle.gp_meaning.specs.Meaning.{looked_up};
ghost use Rattle.gp_meaning.specs.Value as values;
ghost use Rattle.gp_evaluator.specs.View.{value_view, variables_view, world_view, called_view, Found, Ran};

use crate::built_ins::{Called, perform};
use crate::calls::{make_struct, put_back_each, tag_of};
use crate::completion::{Completion, after_loop, goes_back};
use crate::counter::Counter;
use crate::frame::{Frame, find_function};
use crate::functions::{begin, leave};
use crate::halt::Halt;
use crate::names::{Resolved, read_place, resolve};
use crate::operators::{boolean_of, minus, operate};
use crate::value::{Value, Values};
use crate::variables::Variables;
use crate::world::World;
use gp_base::{Name, Tag};
use gp_locals::{Callee, locals_of};
use gp_scope::Scope;
use gp_tree::{Expr, Item, Stmt};
use std::alloc::Global;

// The value that is needed.
fn needed(value: Option<Value>) -> Result<Value, Halt>
    ensures { Found value_view result (option_map value_view value) }
{
    match value {
        Some(value) => Ok(value),
        None => Err(Halt::Stuck),
    }
}

// How many arguments stand before the values.
fn count_tags(tag: &Option<Tag>) -> usize
    ensures { result ≡ spec.tag_count tag.now }
{
    match tag {
        Some(_) => 1,
        None => 0,
    }
}

/// An expression: its value, where it has one.
#[cycle(evaluator)]
pub fn evaluate_expr(
    alloc: Global,
    frame: &Frame<'_>,
    variables: &mut Variables,
    world: &mut World<'_>,
    expr: &Expr,
) -> Result<Option<Value>, Halt>
    ensures run { Ran (option_map value_view) result (state_of variables.new world.new) (expression_run frame.now (expression expr.now) (state_of variables.old world.old)) }
    ensures fewer { world.new.turns ≤ world.old.turns }
{
    match expr {
        Expr::Int(number) => Ok(Some(Value::Int(*number))),
        Expr::Bool(truth) => Ok(Some(Value::Bool(*truth))),
        Expr::Text(_) => Err(Halt::Stuck),
        Expr::Place(place) => {
            let value = read_place(alloc, frame, variables, place)?;
            Ok(Some(value))
        }
        Expr::Neg(operand) => {
            let operand = evaluate_value(alloc, frame, variables, world, operand)?;
            let value = minus(&operand)?;
            Ok(Some(value))
        }
        Expr::Not(operand) => {
            let truth = evaluate_truth(alloc, frame, variables, world, operand)?;
            Ok(Some(Value::Bool(!truth)))
        }
        Expr::Binary(op, left, right) => {
            let left = evaluate_value(alloc, frame, variables, world, left)?;
            let right = evaluate_value(alloc, frame, variables, world, right)?;
            let value = operate(*op, &left, &right)?;
            Ok(Some(value))
        }
        Expr::And(left, right) => {
            if !evaluate_truth(alloc, frame, variables, world, left)? {
                return Ok(Some(Value::Bool(false)));
            }
            let truth = evaluate_truth(alloc, frame, variables, world, right)?;
            Ok(Some(Value::Bool(truth)))
        }
        Expr::Or(left, right) => {
            if evaluate_truth(alloc, frame, variables, world, left)? {
                return Ok(Some(Value::Bool(true)));
            }
            let truth = evaluate_truth(alloc, frame, variables, world, right)?;
            Ok(Some(Value::Bool(truth)))
        }
        Expr::Choice(test, value, other) => {
            if evaluate_truth(alloc, frame, variables, world, test)? {
                let value = evaluate_value(alloc, frame, variables, world, value)?;
                return Ok(Some(value));
            }
            let value = evaluate_value(alloc, frame, variables, world, other)?;
            Ok(Some(value))
        }
        Expr::Tuple(parts) => {
            let values = evaluate_each(alloc, frame, variables, world, parts, 0)?;
            Ok(Some(Value::Tuple(values)))
        }
        Expr::Call(name, arguments) => {
            evaluate_call(alloc, frame, variables, world, name, arguments)
        }
    }
}

// An expression that stands where a value is needed.
#[cycle(evaluator)]
fn evaluate_value(
    alloc: Global,
    frame: &Frame<'_>,
    variables: &mut Variables,
    world: &mut World<'_>,
    expr: &Expr,
) -> Result<Value, Halt>
    ensures run { Ran value_view result (state_of variables.new world.new) (value_run frame.now (expression expr.now) (state_of variables.old world.old)) }
    ensures fewer { world.new.turns ≤ world.old.turns }
{
    let value = evaluate_expr(alloc, frame, variables, world, expr)?;
    needed(value)
}

// An expression that stands where a truth value is needed.
#[cycle(evaluator)]
fn evaluate_truth(
    alloc: Global,
    frame: &Frame<'_>,
    variables: &mut Variables,
    world: &mut World<'_>,
    expr: &Expr,
) -> Result<bool, Halt>
    ensures run { Ran (λ truth. truth) result (state_of variables.new world.new) (truth_run frame.now (expression expr.now) (state_of variables.old world.old)) }
    ensures fewer { world.new.turns ≤ world.old.turns }
{
    let value = evaluate_value(alloc, frame, variables, world, expr)?;
    boolean_of(&value)
}

// The values of the expressions from place `first` on, counted from 0, from left to right.
#[cycle(evaluator)]
fn evaluate_each(
    alloc: Global,
    frame: &Frame<'_>,
    variables: &mut Variables,
    world: &mut World<'_>,
    exprs: &[Expr],
    first: usize,
) -> Result<Values, Halt>
    ensures run { Ran (λ made. map value_view made.items) result (state_of variables.new world.new) (values_run frame.now (expressions (drop first exprs.now)) (state_of variables.old world.old)) }
    ensures fewer { world.new.turns ≤ world.old.turns }
{
    let mut values = Values::new(alloc);
    for i in first..exprs.len() {
        let value = evaluate_value(alloc, frame, variables, world, &exprs[i])?;
        values.push(value)?;
    }
    Ok(values)
}

// A call of a name with these arguments: its answer, where it has one.
#[cycle(evaluator)]
fn evaluate_call(
    alloc: Global,
    frame: &Frame<'_>,
    variables: &mut Variables,
    world: &mut World<'_>,
    name: &Name,
    arguments: &[Expr],
) -> Result<Option<Value>, Halt>
    ensures run { Ran (option_map value_view) result (state_of variables.new world.new) (expression_run frame.now (expr.call name.now (expressions arguments.now)) (state_of variables.old world.old)) }
    ensures fewer { world.new.turns ≤ world.old.turns }
{
    let Resolved { name, callee } = resolve(frame, variables, name)?;
    let tag = tag_of(alloc, &callee, arguments)?;
    let values = evaluate_each(alloc, frame, variables, world, arguments, count_tags(&tag))?;
    let called = call(alloc, frame, world, &callee, name.as_str(), tag, values)?;
    let Called { answer, finals } = called;
    put_back_each(alloc, frame.names, variables, arguments, &finals)?;
    Ok(answer)
}

// A call with its tag and its values. That of a written function takes a turn.
#[cycle(evaluator)]
fn call(
    alloc: Global,
    frame: &Frame<'_>,
    world: &mut World<'_>,
    callee: &Callee<'_>,
    name: &str,
    tag: Option<Tag>,
    values: Values,
) -> Result<Called, Halt>
    ensures run { Ran called_view result (world_view world.new) (called (rest_for frame.now).call (callee_view callee.now) name.now tag (map value_view values.items) (world_view world.old)) }
    ensures fewer { world.new.turns ≤ world.old.turns }
{
    match callee {
        Callee::Written(_) | Callee::Value(_, _) => {
            world.take_turn()?;
            run_function(alloc, frame.items, frame.scope, world, name, &values)
        }
        Callee::Made(ty) => Ok(make_struct(alloc, ty, values)?),
        Callee::BuiltIn(function) => perform(alloc, world, *function, tag, &values),
    }
}

/// A written function, once its turn is taken.
#[cycle(evaluator)]
pub fn run_function(
    alloc: Global,
    items: &[Item],
    scope: &Scope,
    world: &mut World<'_>,
    name: &str,
    values: &[Value],
) -> Result<Called, Halt>
    ensures run { Ran called_view result (world_view world.new) ((rest_of items.now scope.now).call name.now (map value_view values.now) (world_view world.old)) }
    ensures fewer { world.new.turns ≤ world.old.turns }
{
    let Some(function) = find_function(items, name) else {
        return Err(Halt::Stuck);
    };
    let Some(signature) = scope.signature(name) else {
        return Err(Halt::Stuck);
    };
    let params = signature.params.as_slice();
    let names = locals_of(alloc, params, &function.body)?;
    let mut variables = begin(alloc, &names, params, values)?;
    let frame = Frame {
        items,
        scope,
        names: &names,
    };
    let completion = execute_block(alloc, &frame, &mut variables, world, &function.body)?;
    leave(alloc, &names, params, &variables, completion)
}

#[cycle(evaluator)]
fn execute(
    alloc: Global,
    frame: &Frame<'_>,
    variables: &mut Variables,
    world: &mut World<'_>,
    stmt: &Stmt,
) -> Result<Completion, Halt>
    ensures run { Ran completion_view result (state_of variables.new world.new) (statement_run frame.now (statement stmt.now) (state_of variables.old world.old)) }
    ensures fewer { world.new.turns ≤ world.old.turns }
{
    match stmt {
        Stmt::Assign(_, targets, expr) => {
            let value = evaluate_value(alloc, frame, variables, world, expr)?;
            variables.assign(alloc, frame.names, targets, value)?;
            Ok(Completion::Normal)
        }
        Stmt::Annotated(_, name, _, expr) => {
            let value = evaluate_value(alloc, frame, variables, world, expr)?;
            variables.set(frame.names, name.as_str(), value);
            Ok(Completion::Normal)
        }
        Stmt::Evaluate(_, expr) => {
            let _answer = evaluate_expr(alloc, frame, variables, world, expr)?;
            Ok(Completion::Normal)
        }
        Stmt::Return(_, answer) => match answer {
            None => Ok(Completion::Return(None)),
            Some(expr) => {
                let value = evaluate_value(alloc, frame, variables, world, expr)?;
                Ok(Completion::Return(Some(value)))
            }
        },
        Stmt::If(_, test, body, other) => {
            if evaluate_truth(alloc, frame, variables, world, test)? {
                return execute_block(alloc, frame, variables, world, body);
            }
            execute_block(alloc, frame, variables, world, other)
        }
        Stmt::While(_, test, body) => run_while(alloc, frame, variables, world, test, body),
        Stmt::For(_, name, count, body) => {
            let limit = evaluate_value(alloc, frame, variables, world, count)?;
            let counter = Counter::up_to(&limit)?;
            run_for(alloc, frame, variables, world, name.as_str(), counter, body)
        }
        Stmt::Break(_) => Ok(Completion::Break),
        Stmt::Continue(_) => Ok(Completion::Continue),
        Stmt::Pass(_) => Ok(Completion::Normal),
    }
}

// The statements in order, up to the first that doesn't end by itself.
#[cycle(evaluator)]
fn execute_block(
    alloc: Global,
    frame: &Frame<'_>,
    variables: &mut Variables,
    world: &mut World<'_>,
    block: &[Stmt],
) -> Result<Completion, Halt>
    ensures run { Ran completion_view result (state_of variables.new world.new) (block_run frame.now (statements block.now) (state_of variables.old world.old)) }
    ensures fewer { world.new.turns ≤ world.old.turns }
{
    for stmt in block {
        let completion = execute(alloc, frame, variables, world, stmt)?;
        if !matches!(completion, Completion::Normal) {
            return Ok(completion);
        }
    }
    Ok(Completion::Normal)
}

#[cycle(evaluator)]
fn run_while(
    alloc: Global,
    frame: &Frame<'_>,
    variables: &mut Variables,
    world: &mut World<'_>,
    test: &Expr,
    body: &[Stmt],
) -> Result<Completion, Halt>
    ensures run { Ran completion_view result (state_of variables.new world.new) (while_run frame.now (expression test.now) (statements body.now) (state_of variables.old world.old)) }
    ensures fewer { world.new.turns ≤ world.old.turns }
{
    while evaluate_truth(alloc, frame, variables, world, test)? {
        let completion = execute_block(alloc, frame, variables, world, body)?;
        if !goes_back(&completion) {
            return Ok(after_loop(completion));
        }
        world.take_turn()?;
    }
    Ok(Completion::Normal)
}

// A name counts on, up to one less than the limit.
#[cycle(evaluator)]
fn run_for(
    alloc: Global,
    frame: &Frame<'_>,
    variables: &mut Variables,
    world: &mut World<'_>,
    name: &str,
    counter: Counter,
    body: &[Stmt],
) -> Result<Completion, Halt>
    ensures run { Ran completion_view result (state_of variables.new world.new) (for_run frame.now name.now (statements body.now) counter.count counter.limit (state_of variables.old world.old)) }
    ensures fewer { world.new.turns ≤ world.old.turns }
{
    let mut counter = counter;
    'rounds: while counter.is_below() {
        variables.set(frame.names, name, counter.value());
        let completion = execute_block(alloc, frame, variables, world, body)?;
        if !goes_back(&completion) {
            return Ok(after_loop(completion));
        }
        world.take_turn()?;
        counter.advance();
    }
    Ok(Completion::Normal)
}
