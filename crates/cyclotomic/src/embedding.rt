ghost use Rattle.std.specs.Prelude.{◌≡◌, ◌↔◌, ℕ, ◌<◌, IsErr, IfErr, IfOk};
ghost use Rattle.cyclotomic.specs.Refusals.{number_of};
ghost use Rattle.cyclotomic.specs.Ring.{power as power_of, root as root_of};
ghost use Rattle.cyclotomic.specs.Scalars.{triple_of, Negative, embedded};

use crate::refusal::Refusal;
use crate::ring::Ring;
use crate::scalar::Scalar;

// base^exponent, by squaring.
pub fn power<R: Ring>(base: R, exponent: u64) -> R
    ensures { R.value result ≡ power_of R.ops (R.value base) exponent }
{
    let mut result = R::one();
    let mut square = base;
    let mut left = exponent;
    while left > 0 {
        if left % 2 == 1 {
            result = result.times(square);
        }
        square = square.times(square);
        left /= 2;
    }
    result
}

// omega + omega^7, a square root of 2.
pub fn root<R: Ring>() -> R
    ensures { R.value result ≡ root_of R.ops }
{
    power(R::omega(), 1).plus(power(R::omega(), 7))
}

// The scalar as a value of the ring: the ring's zero, or root^power · omega^turn.
pub fn embed<R: Ring>(x: Scalar) -> Result<R, Refusal>
    ensures refused { IsErr result ↔ Negative (triple_of x) }
    ensures number { IfErr result (λ e. number_of e ≡ 25) }
    ensures value { IfOk result (λ v. R.value v ≡ embedded R.ops (triple_of x)) }
{
    let Some((exponent, turn)) = x.parts() else {
        return Ok(R::zero());
    };
    if exponent < 0 {
        return Err(Refusal::NegativePower);
    }
    let size = power(root::<R>(), exponent as u64);
    Ok(size.times(power(R::omega(), turn)))
}
