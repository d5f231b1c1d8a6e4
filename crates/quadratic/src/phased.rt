ghost use Rattle.std.specs.Prelude.{◌≡◌, ℕ, ◌<◌, bit_and};
ghost use Rattle.quadratic.specs.Value.{value_at};

use crate::affine::AffineSpace;
use crate::form::QuadraticForm;

mod moves;
mod ops;

// A space with a phase at each of its strings. The form sees the pivots alone.
#[derive(Clone, Copy, PartialEq, Eq)]
pub struct PhasedSpace {
    space: AffineSpace,
    form: QuadraticForm,
    ghost idle: { (c : ℕ) → value_at form c ≡ value_at form (bit_and c space.pivots) },
}

// By what a phase turns at a string: 2 * quarters, and 4 times the parity with the mask.
#[derive(Clone, Copy, Debug, PartialEq, Eq)]
pub struct Turn {
    pub quarters: u8,
    pub mask: u64,
    ghost few: { quarters < 4 },
}
