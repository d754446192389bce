//! Laws of the tables: functions without parameters, whose contracts are the laws.

ghost use Rattle.hg_ops.specs.Gates.{GatesKeepTheirQubits};
ghost use Rattle.hg_ops.specs.Names.{OpNamesAreDistinct};

/// No two ops of extensions have one name.
pub fn op_names_are_distinct()
    ensures { OpNamesAreDistinct }
{}

/// A gate's inputs are its qubits and then its angles, and its outputs are its qubits, in their order.
pub fn gates_keep_their_qubits()
    ensures { GatesKeepTheirQubits }
{}
