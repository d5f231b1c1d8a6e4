ghost use Rattle.std.specs.Prelude.{◌≡◌, ℕ, ◌^◌, ◌<◌, ◌≤◌, slice_index};
ghost use Rattle.quadratic.specs.Bits.{bit as digit};
ghost use Rattle.quadratic.specs.Quadratic.{link};

mod moves;
mod ops;

// A quadratic form of 48 variables with values in Z8.
#[derive(Clone, Copy, PartialEq, Eq)]
pub struct QuadraticForm {
    phase: u8,
    odd: u64,
    neg: u64,
    // a fixed array, since there are 48 variables and no heap here
    coupling: [u64; 48],
    ghost phased: { phase < 8 },
    ghost odds: { odd < 2 ^ 48 },
    ghost negs: { neg < 2 ^ 48 },
    ghost inside: { (a : ℕ) → slice_index coupling a < 2 ^ 48 },
    ghost square: { (a b : ℕ) → link coupling a b ≡ link coupling b a },
    ghost own: { (a : ℕ) → link coupling a a ≡ digit odd a },
}
