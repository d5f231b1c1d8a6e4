ghost use Rattle.std.specs.Prelude.{◌≡◌, ℕ, ◌<◌, ℤ, pos, MatchOption};
ghost use Rattle.cyclotomic.specs.Scalars.{triple_of, Kind, nought, unit};

use super::{Scalar, Term};

impl Scalar {
    // The number 0.
    pub fn zero() -> Scalar
        ensures { triple_of result ≡ nought }
    {
        Scalar { term: None }
    }

    // 2^(power/2) ω^turn, the turn taken modulo 8.
    pub fn term(power: i64, turn: u64) -> Scalar
        ensures { triple_of result ≡ unit power turn }
    {
        Scalar {
            term: Some(Term {
                power,
                turn: turn % 8,
            }),
        }
    }

    // The scalar of a triple, if the triple is one.
    pub fn new(epsilon: u64, power: i64, turn: u64) -> Option<Scalar>
        ensures { MatchOption result (Kind (epsilon, power, turn) → ⊥) (λ x. triple_of x ≡ (epsilon, power, turn)) }
    {
        match (epsilon, power, turn) {
            (0, 0, 0) => Some(Scalar::zero()),
            (1, _, 0..8) => Some(Scalar::term(power, turn)),
            _ => None,
        }
    }

    // The power and the turn; none for the number 0.
    pub fn parts(&self) -> Option<(i64, u64)>
        ensures { MatchOption result (triple_of self.now ≡ nought) (λ parts. triple_of self.now ≡ (1, parts.0, parts.1)) }
    {
        self.term.map(|term| (term.power, term.turn))
    }

    pub fn epsilon(&self) -> u64
        ensures { result ≡ (triple_of self.now).0 }
    {
        self.term.map_or(0, |_| 1)
    }

    pub fn power(&self) -> i64
        ensures { result ≡ (triple_of self.now).1 }
    {
        self.term.map_or(0, |term| term.power)
    }

    pub fn turn(&self) -> u64
        ensures { result ≡ (triple_of self.now).2 }
    {
        self.term.map_or(0, |term| term.turn)
    }
}
