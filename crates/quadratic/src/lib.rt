// Quadratic forms with values in Z8 on affine spaces of strings, and their exponential sums.
#![tactic(auto)]

pub mod affine;
pub mod bits;
pub mod coordinates;
pub mod form;
pub mod intersection;
pub mod phased;
pub mod running;
pub mod sum;
