//! Arithmetic on whole numbers of 64 bits with a sign: what 64 bits keep of sums, differences, products, and of quotients
//! rounded towards minus infinity with what they leave. The runs of source programs and of graphs count so.
#![tactic(auto)]

ghost use Rattle.std.specs.Prelude.{◌≡◌, ◌≢◌, ◌<ℤ◌, pos, negsuc};
ghost use Rattle.gp_base.specs.Number as numbers;

/// What 64 bits keep of a sum.
#[tactic(auto, using(crate::proofs::Numbers::numbers))]
pub fn sum(left: i64, right: i64) -> i64
    ensures { result ≡ numbers.sum left right }
{
    left.wrapping_add(right)
}

/// What 64 bits keep of a difference.
#[tactic(auto, using(crate::proofs::Numbers::numbers))]
pub fn difference(left: i64, right: i64) -> i64
    ensures { result ≡ numbers.difference left right }
{
    left.wrapping_sub(right)
}

/// What 64 bits keep of a product.
#[tactic(auto, using(crate::proofs::Numbers::numbers))]
pub fn product(left: i64, right: i64) -> i64
    ensures { result ≡ numbers.product left right }
{
    left.wrapping_mul(right)
}

/// What 64 bits keep of a number with its sign turned round.
#[tactic(auto, using(crate::proofs::Numbers::numbers))]
pub fn negated(number: i64) -> i64
    ensures { result ≡ numbers.negated number }
{
    number.wrapping_neg()
}

// The quotient of a division by a number below -1, rounded towards minus infinity.
#[tactic(auto, using(crate::proofs::Numbers::numbers))]
fn quotient_by_negative(left: i64, right: i64) -> i64
    requires { right <ℤ negsuc 0 }
    ensures { result ≡ numbers.floor_quotient left right }
{
    let divisor = right.unsigned_abs();
    if left > 0 {
        -1 - ((left as u64 - 1) / divisor) as i64
    } else {
        (left.unsigned_abs() / divisor) as i64
    }
}

/// What 64 bits keep of the quotient rounded towards minus infinity.
#[tactic(auto, using(crate::proofs::Numbers::numbers))]
pub fn quotient(left: i64, right: i64) -> i64
    requires { right ≢ pos 0 }
    ensures { result ≡ numbers.quotient left right }
{
    if right > 0 {
        left.div_euclid(right)
    } else if right == -1 {
        negated(left)
    } else {
        quotient_by_negative(left, right)
    }
}

/// What is left of a division; where it isn't 0 it has the divisor's sign.
#[tactic(auto, using(crate::proofs::Numbers::numbers))]
pub fn remainder(left: i64, right: i64) -> i64
    requires { right ≢ pos 0 }
    ensures { result ≡ numbers.remainder left right }
{
    difference(left, product(quotient(left, right), right))
}
