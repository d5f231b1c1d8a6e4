// Exact scalars, and the rings that they are put into.
#![tactic(auto)]

pub mod embedding;
pub mod mod17;
pub mod quads;
pub mod refusal;
pub mod ring;
pub mod scalar;
