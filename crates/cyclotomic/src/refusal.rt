ghost use Rattle.std.specs.Prelude.{◌≡◌, Some};
ghost use Rattle.cyclotomic.specs.Refusals.{number_of};
ghost use Rattle.cyclotomic.specs.Texts.{refusal_text};

use std::fmt;

// Why a call was refused. A refused call changes nothing.
#[derive(Clone, Copy, Debug, PartialEq, Eq)]
pub enum Refusal {
    // the number of qubits is not 1 to 48
    Qubits = 2,
    // there is no gate of this kind
    Kind = 9,
    // the gate does not act on these qubits
    Operands = 10,
    // the Pauli text has not one byte more than there are qubits
    TextLength = 11,
    // a byte of the Pauli text is not allowed at its place
    Letter = 12,
    // the buffer for the answer is too short
    Buffer = 13,
    // the number of a string is 2^n or more
    StringNumber = 14,
    // the number of a state is not 1 to the archive's count
    Index = 15,
    // nothing would be left of the state
    Impossible = 21,
    // the weight would fall below -4096
    Exhausted = 22,
    // the two states have different numbers of qubits
    Sizes = 23,
    // every string has been added
    Finished = 24,
    // a scalar with a negative power has no place in a ring
    NegativePower = 25,
}

impl Refusal {
    // The number that stands for the refusal in every answer and document.
    pub fn number(self) -> u64
        ensures { result ≡ number_of self }
    {
        self as u64
    }
}

impl fmt::Display for Refusal {
    ghost output = { λ e. Some (refusal_text e) };

    fn fmt<W: fmt::Write>(&self, f: &mut fmt::Formatter<W>) -> fmt::Result {
        write!(f, "refused {}", self.number())
    }
}
