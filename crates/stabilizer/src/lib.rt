// Stabilizer states of 1 to 48 qubits, and their exact overlaps.
#![tactic(auto)]

pub mod gate;
pub mod overlap;
mod pauli;
pub mod state;
