//! The ops of extensions that have no keys of their own in a text, in one list.

macro_rules! keyless_ops {
    ($with:ident, $($handed:tt)*) => {
        $with! { [$($handed)*] [
            Alloc Free MeasureFree Measure Reset H X Y Z S
            Sdg T Tdg Cx Cy Cz Toffoli Rx Ry Rz
            Add Sub Mul FloorDiv Mod Neg IntEq IntNe Lt Le
            Gt Ge Not BoolEq BoolNe
        ] }
    };
}

pub(crate) use keyless_ops;
