//! The ops of program graphs after the HUGR specification, in the profile of this repository: the types of
//! values, the names of the ops and the gates, and the ports of each op.
#![tactic(auto)]

pub mod effect;
pub mod ext_op;
pub mod gate;
pub mod graph_type;
pub mod laws;
pub mod linear;
pub mod op_kind;
pub mod ports;
pub mod signatures;
mod tables;
pub mod turn;

pub use effect::is_effect;
pub use ext_op::{ExtOp, name_of, op_of_name};
pub use gate::{Gate, gate_op};
pub use graph_type::{GraphType, Row, Rows, same_types};
pub use laws::{gates_keep_their_qubits, op_names_are_distinct};
pub use linear::is_linear;
pub use op_kind::OpKind;
pub use ports::{input_count, output_count};
pub use signatures::signature;
pub use turn::takes_turn;
