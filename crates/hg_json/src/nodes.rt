//! The entries of `nodes`.

ghost use Rattle.std.specs.Prelude.{◌<◌, IfOk};
ghost use Rattle.serde_json.specs.View.{view};
ghost use Rattle.hg_ops.specs.OpView.{op_view};
ghost use Rattle.hg_graph.specs.NodeView.{node_view};
ghost use Rattle.hg_json.specs.ExtNames.{ext_op_named};
ghost use Rattle.hg_json.specs.Reading as spec;
ghost use Rattle.hg_json.specs.code.Found.{Finds, Gives};

use crate::fault::Miss;
use crate::keyless::keyless_ops;
use crate::parts::{integer_at, natural_at, text_at};
use crate::profile::{Profile, has_functions};
use crate::rows::{row_at, rows_at};
use gp_base::Name;
use hg_graph::{Node, NodeId};
use hg_ops::{ExtOp, OpKind, op_of_name};
use serde_json::Value;
use std::alloc::Global;

// A function.
#[tactic(auto, unfolding(crate::specs::Reading::func_defn))]
fn func_defn(alloc: Global, profile: Profile, value: &Value) -> Result<OpKind, Miss>
    ensures { Gives op_view result (spec.func_defn profile (view value.now)) }
{
    let name = text_at(value, "name").ok_or(Miss::Shape)?;
    let ins = row_at(alloc, profile, value, "ins")?;
    let outs = row_at(alloc, profile, value, "outs")?;
    let name = Name::new(alloc, name)?;
    Ok(OpKind::FuncDefn { name, ins, outs })
}

// An `Input`.
#[tactic(auto, unfolding(crate::specs::Reading::input))]
fn input(alloc: Global, profile: Profile, value: &Value) -> Result<OpKind, Miss>
    ensures { Gives op_view result (spec.input profile (view value.now)) }
{
    let types = row_at(alloc, profile, value, "types")?;
    Ok(OpKind::Input { types })
}

// An `Output`.
#[tactic(auto, unfolding(crate::specs::Reading::output))]
fn output(alloc: Global, profile: Profile, value: &Value) -> Result<OpKind, Miss>
    ensures { Gives op_view result (spec.output profile (view value.now)) }
{
    let types = row_at(alloc, profile, value, "types")?;
    Ok(OpKind::Output { types })
}

// A `DFG`.
#[tactic(auto, unfolding(crate::specs::Reading::dfg))]
fn dfg(alloc: Global, profile: Profile, value: &Value) -> Result<OpKind, Miss>
    ensures { Gives op_view result (spec.dfg profile (view value.now)) }
{
    let ins = row_at(alloc, profile, value, "ins")?;
    let outs = row_at(alloc, profile, value, "outs")?;
    Ok(OpKind::Dfg { ins, outs })
}

// A `CFG`.
#[tactic(auto, unfolding(crate::specs::Reading::cfg))]
fn cfg(alloc: Global, profile: Profile, value: &Value) -> Result<OpKind, Miss>
    ensures { Gives op_view result (spec.cfg profile (view value.now)) }
{
    let ins = row_at(alloc, profile, value, "ins")?;
    let outs = row_at(alloc, profile, value, "outs")?;
    Ok(OpKind::Cfg { ins, outs })
}

// A block.
#[tactic(auto, unfolding(crate::specs::Reading::dataflow_block))]
fn dataflow_block(alloc: Global, profile: Profile, value: &Value) -> Result<OpKind, Miss>
    ensures { Gives op_view result (spec.dataflow_block profile (view value.now)) }
{
    let ins = row_at(alloc, profile, value, "ins")?;
    let rows = rows_at(alloc, profile, value, "rows")?;
    let others = row_at(alloc, profile, value, "others")?;
    Ok(OpKind::DataflowBlock { ins, rows, others })
}

// The exit of a `CFG`.
#[tactic(auto, unfolding(crate::specs::Reading::exit_block))]
fn exit_block(alloc: Global, profile: Profile, value: &Value) -> Result<OpKind, Miss>
    ensures { Gives op_view result (spec.exit_block profile (view value.now)) }
{
    let types = row_at(alloc, profile, value, "types")?;
    Ok(OpKind::ExitBlock { types })
}

// A `Conditional`.
#[tactic(auto, unfolding(crate::specs::Reading::conditional))]
fn conditional(alloc: Global, profile: Profile, value: &Value) -> Result<OpKind, Miss>
    ensures { Gives op_view result (spec.conditional profile (view value.now)) }
{
    let rows = rows_at(alloc, profile, value, "rows")?;
    let ins = row_at(alloc, profile, value, "ins")?;
    let outs = row_at(alloc, profile, value, "outs")?;
    Ok(OpKind::Conditional { rows, ins, outs })
}

// A case of a `Conditional`.
#[tactic(auto, unfolding(crate::specs::Reading::case_of))]
fn case_of(alloc: Global, profile: Profile, value: &Value) -> Result<OpKind, Miss>
    ensures { Gives op_view result (spec.case_of profile (view value.now)) }
{
    let ins = row_at(alloc, profile, value, "ins")?;
    let outs = row_at(alloc, profile, value, "outs")?;
    Ok(OpKind::Case { ins, outs })
}

// A `TailLoop`.
#[tactic(auto, unfolding(crate::specs::Reading::tail_loop))]
fn tail_loop(alloc: Global, profile: Profile, value: &Value) -> Result<OpKind, Miss>
    ensures { Gives op_view result (spec.tail_loop profile (view value.now)) }
{
    let again = row_at(alloc, profile, value, "again")?;
    let leave = row_at(alloc, profile, value, "leave")?;
    let rest = row_at(alloc, profile, value, "rest")?;
    Ok(OpKind::TailLoop { again, leave, rest })
}

// A `Tag`.
#[tactic(auto, unfolding(crate::specs::Reading::tag))]
fn tag(alloc: Global, profile: Profile, value: &Value) -> Result<OpKind, Miss>
    ensures { Gives op_view result (spec.tag profile (view value.now)) }
{
    let rows = rows_at(alloc, profile, value, "rows")?;
    let tag = natural_at(value, "tag").ok_or(Miss::Shape)?;
    Ok(OpKind::Tag { rows, tag })
}

// A `Call`.
#[tactic(auto, unfolding(crate::specs::Reading::call))]
fn call(alloc: Global, profile: Profile, value: &Value) -> Result<OpKind, Miss>
    ensures { Gives op_view result (spec.call profile (view value.now)) }
{
    let ins = row_at(alloc, profile, value, "ins")?;
    let outs = row_at(alloc, profile, value, "outs")?;
    Ok(OpKind::Call { ins, outs })
}

// A `CallIndirect`, which the first version doesn't know.
#[tactic(auto, unfolding(crate::specs::Reading::call_indirect))]
fn call_indirect(alloc: Global, profile: Profile, value: &Value) -> Result<OpKind, Miss>
    ensures { Gives op_view result (spec.call_indirect profile (view value.now)) }
{
    if !has_functions(profile) {
        return Err(Miss::Shape);
    }
    let ins = row_at(alloc, profile, value, "ins")?;
    let outs = row_at(alloc, profile, value, "outs")?;
    Ok(OpKind::CallIndirect { ins, outs })
}

// A `LoadFunction`, which the first version doesn't know.
#[tactic(auto, unfolding(crate::specs::Reading::load_function))]
fn load_function(alloc: Global, profile: Profile, value: &Value) -> Result<OpKind, Miss>
    ensures { Gives op_view result (spec.load_function profile (view value.now)) }
{
    if !has_functions(profile) {
        return Err(Miss::Shape);
    }
    let ins = row_at(alloc, profile, value, "ins")?;
    let outs = row_at(alloc, profile, value, "outs")?;
    Ok(OpKind::LoadFunction { ins, outs })
}

// The values of a tuple.
#[tactic(auto, unfolding(crate::specs::Reading::unpack))]
fn unpack(alloc: Global, profile: Profile, value: &Value) -> Result<OpKind, Miss>
    ensures { Gives op_view result (spec.unpack profile (view value.now)) }
{
    let types = row_at(alloc, profile, value, "types")?;
    Ok(OpKind::Unpack { types })
}

// A whole number.
#[tactic(auto, unfolding(crate::specs::Reading::constant))]
fn constant(value: &Value) -> Result<OpKind, Miss>
    ensures { Gives op_view result (spec.constant (view value.now)) }
{
    let value = integer_at(value, "value").ok_or(Miss::Shape)?;
    Ok(OpKind::Const { value })
}

// The report of a whole number.
#[tactic(auto, unfolding(crate::specs::Reading::result_int))]
fn result_int(alloc: Global, value: &Value) -> Result<OpKind, Miss>
    ensures { Gives op_view result (spec.result_int (view value.now)) }
{
    let tag = text_at(value, "tag").ok_or(Miss::Shape)?;
    let tag = Name::new(alloc, tag)?;
    Ok(OpKind::ResultInt { tag })
}

// The report of a truth value.
#[tactic(auto, unfolding(crate::specs::Reading::result_bool))]
fn result_bool(alloc: Global, value: &Value) -> Result<OpKind, Miss>
    ensures { Gives op_view result (spec.result_bool (view value.now)) }
{
    let tag = text_at(value, "tag").ok_or(Miss::Shape)?;
    let tag = Name::new(alloc, tag)?;
    Ok(OpKind::ResultBool { tag })
}

macro_rules! extension {
    ([$alloc:ident $profile:ident $op:ident $value:ident] [$($keyless:ident)*]) => {
        match $op {
            $(ExtOp::$keyless => Ok(OpKind::$keyless),)*
            ExtOp::ResultInt => result_int($alloc, $value),
            ExtOp::ResultBool => result_bool($alloc, $value),
            ExtOp::Unpack => unpack($alloc, $profile, $value),
        }
    };
}

// An op of an extension, with its keys.
#[tactic(auto, unfolding(crate::specs::Reading::extension_op))]
fn extension_op(alloc: Global, profile: Profile, op: ExtOp, value: &Value) -> Result<OpKind, Miss>
    ensures { Gives op_view result (spec.extension_op profile op (view value.now)) }
{
    keyless_ops!(extension, alloc profile op value)
}

// The op of an extension of this name.
#[tactic(auto, using(crate::proofs::Names::found_by_name))]
fn ext_op(name: &str) -> Option<ExtOp>
    ensures { Finds (λ op. op) result (ext_op_named name.now) }
{
    op_of_name(name)
}

// The op of an extension of this name, with its keys.
#[tactic(auto, unfolding(crate::specs::Reading::extension_named))]
fn extension_named(
    alloc: Global,
    profile: Profile,
    name: &str,
    value: &Value,
) -> Result<OpKind, Miss>
    ensures { Gives op_view result (spec.extension_named profile name.now (view value.now)) }
{
    let op = ext_op(name).ok_or(Miss::Shape)?;
    extension_op(alloc, profile, op, value)
}

// An op inside a region that is no container, or an op of an extension.
#[tactic(auto, unfolding(crate::specs::Reading::plain_named))]
fn plain_named(alloc: Global, profile: Profile, name: &str, value: &Value) -> Result<OpKind, Miss>
    ensures { Gives op_view result (spec.plain_named profile name.now (view value.now)) }
{
    match name {
        "Input" => input(alloc, profile, value),
        "Output" => output(alloc, profile, value),
        "Tag" => tag(alloc, profile, value),
        "Call" => call(alloc, profile, value),
        "CallIndirect" => call_indirect(alloc, profile, value),
        "LoadConstant" => Ok(OpKind::LoadConstant),
        "LoadFunction" => load_function(alloc, profile, value),
        _ => extension_named(alloc, profile, name, value),
    }
}

// The op of this name, with its keys.
#[tactic(auto, unfolding(crate::specs::Reading::op_named))]
fn op_named(alloc: Global, profile: Profile, name: &str, value: &Value) -> Result<OpKind, Miss>
    ensures { Gives op_view result (spec.op_named profile name.now (view value.now)) }
{
    match name {
        "Module" => Ok(OpKind::Module),
        "FuncDefn" => func_defn(alloc, profile, value),
        "Const" => constant(value),
        "DFG" => dfg(alloc, profile, value),
        "CFG" => cfg(alloc, profile, value),
        "DataflowBlock" => dataflow_block(alloc, profile, value),
        "ExitBlock" => exit_block(alloc, profile, value),
        "Conditional" => conditional(alloc, profile, value),
        "Case" => case_of(alloc, profile, value),
        "TailLoop" => tail_loop(alloc, profile, value),
        _ => plain_named(alloc, profile, name, value),
    }
}

/// A node of a graph of `total` nodes.
#[tactic(auto, unfolding(crate::specs::Reading::node_of))]
pub fn node_of(alloc: Global, profile: Profile, total: u64, value: &Value) -> Result<Node, Miss>
    ensures gives { Gives node_view result (spec.node_of profile total (view value.now)) }
    ensures parent_in { IfOk result (λ node. node.parent.0 < total) }
{
    let name = text_at(value, "op").ok_or(Miss::Shape)?;
    let parent = natural_at(value, "parent").ok_or(Miss::Shape)?;
    if parent >= total {
        return Err(Miss::Shape);
    }
    let op = op_named(alloc, profile, name, value)?;
    Ok(Node {
        op,
        parent: NodeId(parent),
    })
}
