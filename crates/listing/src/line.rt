ghost use Rattle.std.specs.Prelude.{◌≡◌, IfOk, Some};
ghost use Rattle.cyclotomic.specs.Refusals.{answer_of};
ghost use Rattle.stabilizer.specs.Overlaps.{sizes_number};
ghost use Rattle.listing.specs.Texts.{line_text};

use crate::pair::OfPair;
use cyclotomic::refusal::Refusal;
use stabilizer::state::StabilizerState;
use std::fmt;

// A line: the numbers of two states, and what is said of them.
#[derive(Clone, Copy)]
pub struct Line<T> {
    pub i: u64,
    pub j: u64,
    pub outcome: Result<T, Refusal>,
}

impl<T: OfPair> Line<T> {
    // The line of the states t and s, which have the numbers i and j.
    pub fn new(i: u64, j: u64, t: &StabilizerState, s: &StabilizerState) -> Line<T>
        ensures first { result.i ≡ i }
        ensures second { result.j ≡ j }
        ensures number { answer_of result.outcome ≡ sizes_number t.now s.now }
        ensures told { IfOk result.outcome (λ x. T.tells x t.now s.now) }
    {
        let outcome = T::of_pair(t, s);
        Line { i, j, outcome }
    }
}

impl<T: OfPair> fmt::Display for Line<T> {
    ghost output = { λ l. Some (line_text T.text l) };

    fn fmt<W: fmt::Write>(&self, f: &mut fmt::Formatter<W>) -> fmt::Result {
        match self.outcome {
            Ok(told) => write!(f, "{} {} {told}", self.i, self.j),
            Err(refusal) => write!(f, "{} {} {refusal}", self.i, self.j),
        }
    }
}
