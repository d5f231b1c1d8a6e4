ghost use Rattle.std.specs.Prelude.{◌≡◌, OnOk, OnErr};
ghost use Rattle.cyclotomic.specs.Refusals.{answer_of};
ghost use Rattle.stabilizer.specs.Overlaps.{sizes_number, Intersects, Roomy, Overlapping};

use crate::state::StabilizerState;
use cyclotomic::refusal::Refusal;
use cyclotomic::scalar::Scalar;
use quadratic::intersection::Intersection;
use quadratic::sum::exponential_sum;

// Writes the intersection of two states: the strings that are in both spaces, each with the phase of s less that of t.
// It takes the place of one that the caller has, which may be in fixed memory; refused, that stays as it was.
pub fn intersect(
    out: &mut Intersection,
    t: &StabilizerState,
    s: &StabilizerState,
) -> Result<(), Refusal>
    ensures number { answer_of result ≡ sizes_number t.now s.now }
    ensures granted { OnOk result (Intersects out.new t.now s.now) }
    ensures roomy { OnOk result (Roomy out.new t.now s.now) }
    ensures refused { OnErr result (out.new ≡ out.old) }
{
    if t.qubits() != s.qubits() {
        return Err(Refusal::Sizes);
    }
    *out = Intersection {
        space: s.body().meet(t.body()),
    };
    Ok(())
}

// Writes the intersection of two states, by the same rule, and answers their overlap.
pub fn overlap_into(
    out: &mut Intersection,
    t: &StabilizerState,
    s: &StabilizerState,
) -> Result<Scalar, Refusal>
    ensures number { answer_of result ≡ sizes_number t.now s.now }
    ensures value { Overlapping result t.now s.now }
    ensures granted { OnOk result (Intersects out.new t.now s.now) }
    ensures refused { OnErr result (out.new ≡ out.old) }
{
    intersect(out, t, s)?;
    let sum = exponential_sum(out);
    // by its parts: a method on `Scalar` would have to say what it does past the ends of 64 bits
    let Some((power, turn)) = sum.parts() else {
        return Ok(sum);
    };
    Ok(Scalar::term(power - (t.depth() + s.depth()) as i64, turn))
}

// The overlap of t and s: the sum over all strings of the conjugate of t's amplitude times that of s.
pub fn overlap(t: &StabilizerState, s: &StabilizerState) -> Result<Scalar, Refusal>
    ensures number { answer_of result ≡ sizes_number t.now s.now }
    ensures value { Overlapping result t.now s.now }
{
    let mut both = Intersection { space: None };
    overlap_into(&mut both, t, s)
}
