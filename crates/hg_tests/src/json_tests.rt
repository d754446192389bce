//! Texts that are read, refused and written.

use hg_graph::{Link, NodeId, Port};
use hg_json::{JsonFault, MAX_TEXT_BYTES, read, write, written_graphs_read_back};
use hg_ops::OpKind;
use std::test::Fail;

// A function that allocates a qubit and frees it, as graphs are written.
const QUBIT: &str =
    r#"{"edges":[[[4,0],[5,0]],[[4,null],[5,null]]],"nodes":[{"op":"Module","parent":0},{"ins":[],"name":"main","op":"FuncDefn","outs":[],"parent":0},{"op":"Input","parent":1,"types":[]},{"op":"Output","parent":1,"types":[]},{"op":"quantum.alloc","parent":1},{"op":"quantum.free","parent":1}],"version":"profile-2"}"#;

// A node of each op, with types of each kind, as graphs are written.
const EVERY_OP: &str =
    r#"{"edges":[],"nodes":[{"op":"Module","parent":0},{"ins":["int","qubit","(|)","(int,qubit)","()","[:]","[qubit,int:([(|):int]|qubit)]"],"name":"f \"\u0001é","op":"FuncDefn","outs":[],"parent":0},{"op":"Const","parent":0,"value":-9223372036854775808},{"op":"Const","parent":0,"value":9223372036854775807},{"op":"Input","parent":0,"types":["int","qubit","(|)","(int,qubit)","()","[:]","[qubit,int:([(|):int]|qubit)]"]},{"op":"Output","parent":0,"types":["(qubit|qubit)"]},{"ins":["int","qubit","(|)","(int,qubit)","()","[:]","[qubit,int:([(|):int]|qubit)]"],"op":"DFG","outs":["(qubit|qubit)"],"parent":0},{"ins":["(qubit|qubit)"],"op":"CFG","outs":["int","qubit","(|)","(int,qubit)","()","[:]","[qubit,int:([(|):int]|qubit)]"],"parent":0},{"ins":["int"],"op":"DataflowBlock","others":["[int:int]"],"parent":0,"rows":[[],["qubit"],["int","(|)"]]},{"op":"ExitBlock","parent":0,"types":[]},{"ins":["qubit"],"op":"Conditional","outs":["(qubit|qubit)"],"parent":0,"rows":[[],[]]},{"ins":["int"],"op":"Case","outs":["qubit"],"parent":0},{"again":["int"],"leave":["qubit"],"op":"TailLoop","parent":0,"rest":["(|)"]},{"op":"Tag","parent":0,"rows":[["qubit"],["int"]],"tag":18446744073709551615},{"op":"Tag","parent":0,"rows":[],"tag":0},{"ins":["int"],"op":"Call","outs":["qubit"],"parent":0},{"ins":["int"],"op":"CallIndirect","outs":["qubit"],"parent":0},{"op":"LoadConstant","parent":0},{"ins":["int"],"op":"LoadFunction","outs":["qubit"],"parent":0},{"op":"quantum.alloc","parent":0},{"op":"quantum.free","parent":0},{"op":"quantum.measure_free","parent":0},{"op":"quantum.measure","parent":0},{"op":"quantum.reset","parent":0},{"op":"quantum.h","parent":0},{"op":"quantum.x","parent":0},{"op":"quantum.y","parent":0},{"op":"quantum.z","parent":0},{"op":"quantum.s","parent":0},{"op":"quantum.sdg","parent":0},{"op":"quantum.t","parent":0},{"op":"quantum.tdg","parent":0},{"op":"quantum.cx","parent":0},{"op":"quantum.cy","parent":0},{"op":"quantum.cz","parent":0},{"op":"quantum.toffoli","parent":0},{"op":"quantum.rx","parent":0},{"op":"quantum.ry","parent":0},{"op":"quantum.rz","parent":0},{"op":"int.add","parent":0},{"op":"int.sub","parent":0},{"op":"int.mul","parent":0},{"op":"int.floordiv","parent":0},{"op":"int.mod","parent":0},{"op":"int.neg","parent":0},{"op":"int.eq","parent":0},{"op":"int.ne","parent":0},{"op":"int.lt","parent":0},{"op":"int.le","parent":0},{"op":"int.gt","parent":0},{"op":"int.ge","parent":0},{"op":"bool.not","parent":0},{"op":"bool.eq","parent":0},{"op":"bool.ne","parent":0},{"op":"result.int","parent":0,"tag":"a b"},{"op":"result.bool","parent":0,"tag":"c"},{"op":"prelude.unpack","parent":0,"types":["int","qubit"]}],"version":"profile-2"}"#;

#[test]
fn reads_and_writes_a_graph(rt: HostRuntime) -> Result<(), Fail> {
    let graph = read(rt.alloc(), QUBIT.as_bytes())?;
    assert_eq!(rt; graph.node_count(), 6);
    assert!(rt;
        matches!(graph.op(NodeId(1)), OpKind::FuncDefn { name, .. } if name.as_str() == "main")
    );
    assert_eq!(rt; graph.parent(NodeId(5)), NodeId(1));
    assert_eq!(rt; graph.link_count(), 2);
    let from = Port {
        node: NodeId(4),
        index: 0,
    };
    let to = Port {
        node: NodeId(5),
        index: 0,
    };
    assert_eq!(rt; graph.link_at(0), Some(Link::Ports(from, to)));
    assert_eq!(rt; graph.link_at(1), Some(Link::Order(NodeId(4), NodeId(5))));
    let text = write(rt.alloc(), &graph)?;
    assert_eq!(rt; text.as_slice(), QUBIT.as_bytes());
    written_graphs_read_back();
    Ok(())
}

#[test]
fn reads_and_writes_every_op(rt: HostRuntime) -> Result<(), Fail> {
    let graph = read(rt.alloc(), EVERY_OP.as_bytes())?;
    assert_eq!(rt; graph.node_count(), 57);
    let text = write(rt.alloc(), &graph)?;
    assert_eq!(rt; text.as_slice(), EVERY_OP.as_bytes());
    Ok(())
}

// A parent may have a greater number, further keys are ignored, and of equal keys the last stands.
#[test]
fn reads_the_last_of_equal_keys(rt: HostRuntime) -> Result<(), Fail> {
    let text = r#" {"version": "profile-1", "edges": [], "by": null, "nodes":
        [{"op": "quantum.y", "parent": 1, "types": 3, "op": "quantum.x"}, {"op": "Module", "parent": 1}]} "#;
    let graph = read(rt.alloc(), text.as_bytes())?;
    assert_eq!(rt; graph.node_count(), 2);
    assert!(rt; matches!(graph.op(NodeId(0)), OpKind::X));
    assert_eq!(rt; graph.parent(NodeId(0)), NodeId(1));
    Ok(())
}

#[test]
fn refuses_what_is_no_graph(rt: HostRuntime) -> Result<(), Fail> {
    for (text, fault) in [
        ("{", JsonFault::NotJson),
        ("[]", JsonFault::Top),
        (
            r#"{"version":"profile-2","nodes":[],"edges":[]}"#,
            JsonFault::Top,
        ),
        (
            r#"{"version":"profile-3","nodes":[1],"edges":[2]}"#,
            JsonFault::Version,
        ),
        (
            r#"{"version":"profile-1","nodes":[{"op":"Module","parent":0},{"op":"Module","parent":2}],"edges":[1]}"#,
            JsonFault::Node(1),
        ),
        (
            r#"{"version":"profile-2","nodes":[{"op":"Input","parent":0,"types":["(int,)"]}],"edges":[]}"#,
            JsonFault::Node(0),
        ),
        (
            r#"{"version":"profile-1","nodes":[{"op":"Module","parent":0},{"op":"Input","parent":0,"types":["([:])"]}],"edges":[]}"#,
            JsonFault::Node(1),
        ),
        (
            r#"{"version":"profile-1","nodes":[{"op":"LoadFunction","parent":0,"ins":[],"outs":[]}],"edges":[]}"#,
            JsonFault::Node(0),
        ),
        (
            r#"{"version":"profile-2","nodes":[{"op":"Const","parent":0,"value":9223372036854775808}],"edges":[]}"#,
            JsonFault::Node(0),
        ),
        (
            r#"{"version":"profile-1","nodes":[{"op":"quantum.w","parent":0}],"edges":[]}"#,
            JsonFault::Node(0),
        ),
        (
            r#"{"version":"profile-1","nodes":[{"op":"Module","parent":0}],"edges":[[[0,0],[0,1]],[[0,0],[0,null]]]}"#,
            JsonFault::Link(1),
        ),
        (
            r#"{"version":"profile-1","nodes":[{"op":"Module","parent":0}],"edges":[[[0,0],[1,0]]]}"#,
            JsonFault::Link(0),
        ),
    ] {
        assert!(rt; text.len() <= MAX_TEXT_BYTES);
        match read(rt.alloc(), text.as_bytes()) {
            Ok(_) => assert!(rt; false, "{text} was read"),
            Err(found) => assert_eq!(rt; found, fault, "at {text}"),
        }
    }
    Ok(())
}

#[test]
fn refuses_bytes_that_are_no_text(rt: HostRuntime) {
    assert!(rt; matches!(read(rt.alloc(), b"\"\xff\""), Err(JsonFault::NotJson)));
}
