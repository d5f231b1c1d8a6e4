ghost use Rattle.std.specs.Prelude.{◌≡◌};
ghost use Rattle.cyclotomic.specs.Refusals.{answer_of};
ghost use Rattle.stabilizer.specs.Calls.{Gated, ProjectedBy};
ghost use Rattle.stabilizer.specs.Paulis.{pauli_of, text_number};

use super::StabilizerState;
use crate::gate::Gate;
use crate::pauli::PauliMasks;
use cyclotomic::refusal::Refusal;
use quadratic::affine::Outcome;

// The weight is never below this number's negative.
const MOST: u64 = 4096;

impl StabilizerState {
    // Applies the gate with a number from 1 to 6 to the qubits j and l; l is 0 for a gate of one qubit. It takes a number and no `Gate`,
    // since any number may be handed over, and one that no gate has is refused.
    pub fn gate(&mut self, kind: u64, j: u64, l: u64) -> Result<(), Refusal>
        ensures { Gated kind j l self.old (answer_of result) self.new }
    {
        let gate = Gate::try_from(kind)?;
        if !gate.takes(self.qubits, j, l) {
            return Err(Refusal::Operands);
        }
        gate.apply(
            &mut self.body,
            (self.qubits - j) as usize,
            (self.qubits - l) as usize,
        );
        Ok(())
    }

    // Projects onto the states that a Pauli operator leaves as they are. The operator is given by a sign, + or -, and one of the
    // letters I, X, Y and Z for each qubit.
    pub fn project(&mut self, text: &[u8]) -> Result<(), Refusal>
        ensures { ProjectedBy (text_number self.old.qubits text.now) (pauli_of text.now) self.old (answer_of result) self.new }
    {
        let operator = PauliMasks::read(self.qubits, text)?;
        let mut body = self.body;
        match operator.project(&mut body) {
            Outcome::Unchanged => Ok(()),
            Outcome::Empty => Err(Refusal::Impossible),
            Outcome::Restricted => {
                if self.loss == MOST {
                    return Err(Refusal::Exhausted);
                }
                self.body = body;
                self.loss += 1;
                Ok(())
            }
        }
    }
}
