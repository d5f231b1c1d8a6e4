ghost use Rattle.std.specs.Prelude.{◌≡◌};
ghost use Rattle.cyclotomic.specs.Refusals.{answer_of};
ghost use Rattle.stabilizer.specs.Calls.{Step};
ghost use Rattle.circuit.specs.Made.{call_of};
ghost use Rattle.circuit.specs.Runs.{inverse as inverse_of, kind_inverse};

use cyclotomic::refusal::Refusal;
use stabilizer::gate::Gate;
use stabilizer::state::StabilizerState;

// A call of a gate or of a projection, with any numbers and any bytes.
#[derive(Drop)]
pub enum Call {
    // kind, first and second qubit are the three numbers of a public call, any of which may be no gate's or qubit's
    Gate { kind: u64, first: u64, second: u64 },
    Project(Vec<u8>),
}

impl Call {
    // Makes the call on a state.
    pub fn make(&self, state: &mut StabilizerState) -> Result<(), Refusal>
        ensures { Step (call_of self.now) state.old (answer_of result) state.new }
    {
        match self {
            Call::Gate {
                kind,
                first,
                second,
            } => state.gate(*kind, *first, *second),
            Call::Project(text) => state.project(text),
        }
    }

    // Makes the inverse of the call, with S and its inverse exchanged. A projection is its own.
    pub fn make_inverse(&self, state: &mut StabilizerState) -> Result<(), Refusal>
        ensures { Step (inverse_of (call_of self.now)) state.old (answer_of result) state.new }
    {
        match self {
            Call::Gate {
                kind,
                first,
                second,
            } => state.gate(inverse_kind(*kind), *first, *second),
            Call::Project(_) => self.make(state),
        }
    }
}

// The number of the inverse of the gate with a number. A call may hold a number that no gate has, which stays.
fn inverse_kind(kind: u64) -> u64
    ensures { result ≡ kind_inverse kind }
{
    match Gate::try_from(kind) {
        Ok(gate) => gate.inverse().number(),
        Err(_) => kind,
    }
}
