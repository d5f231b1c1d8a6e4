ghost use Rattle.std.specs.Prelude.{Some};
ghost use Rattle.listing.specs.Fields.{fields_text};

use crate::space::SpaceText;
use stabilizer::state::StabilizerState;
use std::fmt;

// The fields of a state as they are shown: qubits, dimension, weight, and its space.
#[derive(Clone, Copy)]
pub struct FieldsText<'a>(pub &'a StabilizerState);

impl fmt::Display for FieldsText<'_> {
    ghost output = { λ x. Some (fields_text x.0.now) };

    fn fmt<W: fmt::Write>(&self, f: &mut fmt::Formatter<W>) -> fmt::Result {
        let state = self.0;
        let qubits = state.qubits();
        let space = SpaceText {
            space: state.body(),
            qubits,
        };
        write!(
            f,
            "{qubits} {} {} {space}",
            state.dimension(),
            state.weight()
        )
    }
}
