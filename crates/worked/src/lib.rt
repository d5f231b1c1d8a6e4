#![tactic(auto)]

ghost use Rattle.cyclotomic.specs.Scalars.{triple_of};
ghost use Rattle.worked.specs.Worked.{WorkedExamples};

use cyclotomic::scalar::Scalar;

// The overlap of the states with the bytes 04 10 00 88 and 04 10 00 89, (1 + i)/4, and in the other order, (1 - i)/4. The contract says
// it, and the other worked examples, of every value with the fields in question.
pub fn worked_examples() -> (Scalar, Scalar)
    ensures { WorkedExamples (triple_of result.0) (triple_of result.1) }
{
    let overlap = Scalar::term(-3, 1);
    (overlap, overlap.conjugate())
}

#[cfg(test)]
mod tests;
