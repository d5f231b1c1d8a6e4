ghost use Rattle.std.specs.Prelude.{◌^◌, ◌<◌, ◌≤◌};

use quadratic::phased::PhasedSpace;

mod calls;
mod ops;

// The state with the amplitude 2^((e - k)/2) ω^q(y) at each string y of an affine space of dimension k, and 0 at every other string,
// where e is the weight and q the phase that the space gives to y. A string has one bit for each qubit, qubit 1 the highest.
#[derive(Clone, Copy)]
pub struct StabilizerState {
    qubits: u64,
    // the weight is -loss
    loss: u64,
    body: PhasedSpace,
    ghost some: { 1 ≤ qubits },
    ghost few: { qubits ≤ 48 },
    ghost light: { loss ≤ 4096 },
    ghost inside: { body.space.pivots < 2 ^ qubits },
    ghost near: { body.space.shift < 2 ^ qubits },
}
