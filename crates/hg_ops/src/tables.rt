//! The ops of extensions and the gates, each in one list. A macro that is handed to `ext_ops` gets what was handed on
//! with it, and then the ops, with their name, whether they are an effect, and their rows of inputs and outputs; those
//! whose rows a node keeps, without them; and the gates, with their name and their numbers of qubits and angles.

macro_rules! ext_ops {
    ($with:ident, $($handed:tt)*) => {
        gates! { $with, [$($handed)*] [
            Alloc "quantum.alloc" true [] [Qubit];
            Free "quantum.free" true [Qubit] [];
            MeasureFree "quantum.measure_free" true [Qubit] [Bool];
            Measure "quantum.measure" true [Qubit] [Qubit Bool];
            Reset "quantum.reset" true [Qubit] [Qubit];
            ResultInt "result.int" true [Int] [];
            ResultBool "result.bool" true [Bool] [];
            Add "int.add" false [Int Int] [Int];
            Sub "int.sub" false [Int Int] [Int];
            Mul "int.mul" false [Int Int] [Int];
            FloorDiv "int.floordiv" true [Int Int] [Int];
            Mod "int.mod" true [Int Int] [Int];
            Neg "int.neg" false [Int] [Int];
            IntEq "int.eq" false [Int Int] [Bool];
            IntNe "int.ne" false [Int Int] [Bool];
            Lt "int.lt" false [Int Int] [Bool];
            Le "int.le" false [Int Int] [Bool];
            Gt "int.gt" false [Int Int] [Bool];
            Ge "int.ge" false [Int Int] [Bool];
            Not "bool.not" false [Bool] [Bool];
            BoolEq "bool.eq" false [Bool Bool] [Bool];
            BoolNe "bool.ne" false [Bool Bool] [Bool];
        ] [
            Unpack "prelude.unpack" false;
        ] }
    };
}

macro_rules! gates {
    ($with:ident, $($handed:tt)*) => {
        $with! { $($handed)* [
            H "h" 1 0,
            X "x" 1 0,
            Y "y" 1 0,
            Z "z" 1 0,
            S "s" 1 0,
            Sdg "sdg" 1 0,
            T "t" 1 0,
            Tdg "tdg" 1 0,
            Cx "cx" 2 0,
            Cy "cy" 2 0,
            Cz "cz" 2 0,
            Toffoli "toffoli" 3 0,
            Rx "rx" 1 1,
            Ry "ry" 1 1,
            Rz "rz" 1 1,
        ] }
    };
}

pub(crate) use ext_ops;
pub(crate) use gates;
