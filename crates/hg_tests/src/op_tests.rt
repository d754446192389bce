//! Tests of the tables.

use gp_base::GateName;
use hg_ops::{
    ExtOp, Gate, GraphType, OpKind, Row, input_count, is_effect, is_linear, name_of, op_of_name,
    output_count, signature, takes_turn,
};
use std::alloc::{AllocError, Global};
use std::process::Abort;
use std::test::Fail;

// The op names as a graph text has them.
const NAMES: [&str; 38] = [
    "quantum.alloc",
    "quantum.free",
    "quantum.measure_free",
    "quantum.measure",
    "quantum.reset",
    "quantum.h",
    "quantum.x",
    "quantum.y",
    "quantum.z",
    "quantum.s",
    "quantum.sdg",
    "quantum.t",
    "quantum.tdg",
    "quantum.cx",
    "quantum.cy",
    "quantum.cz",
    "quantum.toffoli",
    "quantum.rx",
    "quantum.ry",
    "quantum.rz",
    "result.int",
    "result.bool",
    "int.add",
    "int.sub",
    "int.mul",
    "int.floordiv",
    "int.mod",
    "int.neg",
    "int.eq",
    "int.ne",
    "int.lt",
    "int.le",
    "int.gt",
    "int.ge",
    "bool.not",
    "bool.eq",
    "bool.ne",
    "prelude.unpack",
];

#[test]
fn names_lead_to_ops_and_back(rt: HostRuntime) -> Result<(), Fail> {
    for name in NAMES {
        let op = op_of_name(name).ok_or("no op")?;
        assert_eq!(rt; name_of(op), name);
    }
    for name in [
        "",
        "quantum",
        "quantum.w",
        "quantum.alloc2",
        "Module",
        "int.Add",
    ] {
        assert_eq!(rt; op_of_name(name), None, "of {name}");
    }
    assert_eq!(rt; op_of_name("quantum.cx"), Some(ExtOp::Cx));
    assert_eq!(rt; op_of_name("bool.ne"), Some(ExtOp::BoolNe));
    Ok(())
}

#[test]
fn gates_have_their_numbers(rt: HostRuntime) {
    assert!(rt;
        matches!(Gate::<2, 0>::new(GateName::Cx), Some(gate) if gate.name() == GateName::Cx)
    );
    assert!(rt; Gate::<1, 1>::new(GateName::Cx).is_none());
    assert!(rt; Gate::<1, 0>::new(GateName::Rz).is_none());
}

// A number, a qubit.
fn pair(alloc: Global) -> Result<Row, AllocError> {
    let mut row = Row::new(alloc);
    row.push(GraphType::Int)?;
    row.push(GraphType::Qubit)?;
    Ok(row)
}

fn one(alloc: Global, ty: GraphType) -> Result<Row, AllocError> {
    let mut row = Row::new(alloc);
    row.push(ty)?;
    Ok(row)
}

// Calls a function from a number and a qubit to a qubit.
fn call(alloc: Global) -> Result<OpKind, AllocError> {
    let (ins, outs) = (pair(alloc)?, one(alloc, GraphType::Qubit)?);
    Ok(OpKind::CallIndirect { ins, outs })
}

// From a number and a qubit to a qubit, and from a qubit to both.
fn function(alloc: Global) -> Result<GraphType, AllocError> {
    let (ins, outs) = (pair(alloc)?, one(alloc, GraphType::Qubit)?);
    Ok(GraphType::Function(ins, outs))
}

fn turned(alloc: Global) -> Result<GraphType, AllocError> {
    let (ins, outs) = (one(alloc, GraphType::Qubit)?, pair(alloc)?);
    Ok(GraphType::Function(ins, outs))
}

#[test]
fn an_indirect_call_has_its_ports(rt: HostRuntime) -> Result<(), Fail> {
    let alloc = rt.alloc();
    let call = call(alloc)?;
    assert_eq!(rt; input_count(&call), 3);
    assert_eq!(rt; output_count(&call), 1);
    assert!(rt; is_effect(&call));
    assert!(rt; takes_turn(&call));
    let (ins, outs) = signature(alloc, &call)?;
    assert!(rt; matches!(ins.get(0), Some(ty) if ty.is_same(&function(alloc)?)));
    assert!(rt; outs.is_same(&one(alloc, GraphType::Qubit)?));
    Ok(())
}

#[test]
fn ports_of_gates_are_counted(rt: HostRuntime) {
    assert_eq!(rt; input_count(&OpKind::Rx), 2);
    assert_eq!(rt; output_count(&OpKind::Toffoli), 3);
    assert!(rt; is_effect(&OpKind::Mod));
    assert!(rt; !is_effect(&OpKind::Add));
}

#[test]
fn functions_are_copyable_and_the_same_by_both_rows(rt: HostRuntime) -> Result<(), Fail> {
    let alloc = rt.alloc();
    let ty = function(alloc)?;
    assert!(rt; !is_linear(&ty));
    assert!(rt; ty.is_same(&ty.copy(alloc)?));
    assert!(rt; !ty.is_same(&turned(alloc)?));
    Ok(())
}
