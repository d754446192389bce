//! Numbers made of numbers, as ops make them.

ghost use Rattle.std.specs.Prelude.{◌≡◌, ◌≢◌, pos};
ghost use Rattle.hg_graph.specs.Run as run;
ghost use Rattle.hg_run.specs.code.Kinds.{calculation_view, division_view, comparison_view};

use integers::{difference, product, quotient, remainder, sum};

/// What makes a number of two.
#[derive(Clone, Copy)]
pub enum Calculation {
    Add,
    Sub,
    Mul,
}

/// What makes a number of two where the second isn't 0.
#[derive(Clone, Copy)]
pub enum Division {
    FloorDiv,
    Mod,
}

/// What compares two numbers.
#[derive(Clone, Copy)]
pub enum Comparison {
    Eq,
    Ne,
    Lt,
    Le,
    Gt,
    Ge,
}

/// A number made of two.
pub fn calculated(which: Calculation, left: i64, right: i64) -> i64
    ensures { result ≡ run.calculated (calculation_view which) left right }
{
    match which {
        Calculation::Add => sum(left, right),
        Calculation::Sub => difference(left, right),
        Calculation::Mul => product(left, right),
    }
}

/// A number made by a division.
pub fn divided(which: Division, left: i64, right: i64) -> i64
    requires { right ≢ pos 0 }
    ensures { result ≡ run.divided (division_view which) left right }
{
    match which {
        Division::FloorDiv => quotient(left, right),
        Division::Mod => remainder(left, right),
    }
}

/// Whether two numbers compare as they are asked to.
pub fn compared(which: Comparison, left: i64, right: i64) -> bool
    ensures { result ≡ run.compared (comparison_view which) left right }
{
    match which {
        Comparison::Eq => left == right,
        Comparison::Ne => left != right,
        Comparison::Lt => left < right,
        Comparison::Le => left <= right,
        Comparison::Gt => left > right,
        Comparison::Ge => left >= right,
    }
}
