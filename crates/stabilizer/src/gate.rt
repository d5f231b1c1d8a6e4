ghost use Rattle.std.specs.Prelude.{◌≡◌, ◌^◌, ◌<◌, ◌≤◌};
ghost use Rattle.std.specs.Option.{ok_or};
ghost use Rattle.cyclotomic.specs.declared.refusal.Refusal.TheVariants.{Kind};
ghost use Rattle.stabilizer.specs.Gates.{gate_numbered, inverse_of, number_of, takes as taken_by};
ghost use Rattle.stabilizer.specs.Moved.{Placed, Moved};

use cyclotomic::refusal::Refusal;
use quadratic::phased::PhasedSpace;

// The gates, with their numbers.
#[derive(Clone, Copy, Debug, PartialEq, Eq)]
pub enum Gate {
    X = 1,
    Z = 2,
    S = 3,
    SDagger = 4,
    CNot = 5,
    CZ = 6,
}

impl TryFrom<u64> for Gate {
    type Error = Refusal;

    ghost try_from_gives = { λ kind r. r ≡ ok_or (gate_numbered kind) Kind };

    fn try_from(kind: u64) -> Result<Gate, Refusal> {
        match kind {
            1 => Ok(Gate::X),
            2 => Ok(Gate::Z),
            3 => Ok(Gate::S),
            4 => Ok(Gate::SDagger),
            5 => Ok(Gate::CNot),
            6 => Ok(Gate::CZ),
            _ => Err(Refusal::Kind),
        }
    }
}

impl Gate {
    // The number that stands for the gate in every call.
    pub fn number(self) -> u64
        ensures { result ≡ number_of self }
    {
        self as u64
    }

    // The gate with the inverse matrix.
    pub fn inverse(self) -> Gate
        ensures { result ≡ inverse_of self }
    {
        match self {
            Gate::S => Gate::SDagger,
            Gate::SDagger => Gate::S,
            own => own,
        }
    }

    // Whether the gate acts on these qubits of so many; a gate of one qubit has 0 for the second.
    pub fn takes(self, qubits: u64, j: u64, l: u64) -> bool
        ensures { result ≡ taken_by self qubits j l }
    {
        let is_qubit = |a| (1..=qubits).contains(&a);
        match self {
            Gate::X | Gate::Z | Gate::S | Gate::SDagger => is_qubit(j) && l == 0,
            Gate::CNot | Gate::CZ => is_qubit(j) && is_qubit(l) && j != l,
        }
    }

    // Applies the gate's matrix, with its qubits at the positions a and b of a string. By cases: the gates are closed, and each asks
    // for another call.
    pub(crate) fn apply(self, body: &mut PhasedSpace, a: usize, b: usize)
        requires { Placed self a b }
        ensures { Moved self a b body.old body.new }
    {
        match self {
            Gate::X => {
                let _ = body.flip(a);
            }
            Gate::Z => body.add_parity(2, at(a)),
            Gate::S => body.add_parity(1, at(a)),
            Gate::SDagger => body.add_parity(3, at(a)),
            Gate::CNot => {
                let _ = body.controlled_flip(a, b);
            }
            Gate::CZ => body.add_product(at(a), at(b)),
        }
    }
}

// The string with a 1 at a position alone.
fn at(a: usize) -> u64
    requires { a < 48 }
    ensures { result ≡ 2 ^ a }
{
    1 << a
}
