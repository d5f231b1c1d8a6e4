// Scalars as the numbers that they stand for.
ghost use Rattle.std.specs.Prelude.{◌≡◌, ℕ, T};
ghost use Rattle.cyclotomic.specs.Adjoin.{ints, conj};
ghost use Rattle.cyclotomic.specs.Exact.{scaled, Floor, mirrored};
ghost use Rattle.cyclotomic.specs.Scalars.{triple_of};

use super::{Scalar, Term};

impl Scalar {
    // The complex conjugate.
    pub fn conjugate(&self) -> Scalar
        ensures triple { triple_of result ≡ mirrored (triple_of self.now) }
        ensures exact { (n : ℕ) → scaled n (triple_of result) ≡ conj ints (scaled n (triple_of self.now)) }
    {
        Scalar {
            term: self.term.map(|term| Term {
                power: term.power,
                turn: (8 - term.turn) % 8,
            }),
        }
    }

    // Whether two scalars are the same, which they are if they stand for the same number.
    pub fn same(&self, other: &Scalar) -> bool
        ensures sound { T result → triple_of self.now ≡ triple_of other.now }
        ensures complete { triple_of self.now ≡ triple_of other.now → T result }
        ensures apart { (n : ℕ) → Floor n (triple_of self.now) → Floor n (triple_of other.now)
            → scaled n (triple_of self.now) ≡ scaled n (triple_of other.now) → T result }
    {
        self == other
    }
}
