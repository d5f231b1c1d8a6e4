ghost use Rattle.std.specs.Prelude.{◌≡◌, ℕ, List, IfOk, Some, refl};
ghost use Rattle.cyclotomic.specs.Refusals.{answer_of};
ghost use Rattle.stabilizer.specs.Overlaps.{sizes_number};
ghost use Rattle.stabilizer.specs.declared.state.StabilizerState.{StabilizerState};
ghost use Rattle.listing.specs.Lines.{Compares};
ghost use Rattle.listing.specs.Texts.{comparison_text};

use crate::columns::columns_of;
use crate::comparison::Comparison;
use cyclotomic::refusal::Refusal;
use quadratic::intersection::Intersection;
use stabilizer::overlap::overlap_into;
use stabilizer::state::StabilizerState;
use std::fmt;

// What can be said of two states with the same number of qubits.
pub trait OfPair: fmt::Display + Copy {
    ghost text: { Self → List ℕ };

    ghost tells: { Self → StabilizerState → StabilizerState → Type 0 };

    // What is said of t and s.
    fn of_pair(t: &StabilizerState, s: &StabilizerState) -> Result<Self, Refusal>
        ensures number { answer_of result ≡ sizes_number t.now s.now }
        ensures told { IfOk result (λ x. tells x t.now s.now) };

    ghost shown: { (x : Self) → Self.output x ≡ Some (text x) };
}

impl OfPair for Comparison {
    ghost text = { comparison_text };

    ghost tells = { Compares };

    ghost shown = { λ x. refl };

    // The overlap of t and s, the columns of their intersection, and whether they are the same state.
    fn of_pair(t: &StabilizerState, s: &StabilizerState) -> Result<Comparison, Refusal> {
        let mut both = Intersection { space: None };
        let overlap = overlap_into(&mut both, t, s)?;
        Ok(Comparison {
            overlap,
            columns: columns_of(&both),
            equal: t.same(s),
        })
    }
}
