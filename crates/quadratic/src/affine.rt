ghost use Rattle.std.specs.Prelude.{◌≡◌, ℕ, suc, ◌^◌, ◌<◌, bit_and};
ghost use Rattle.quadratic.specs.Bits.{bit as digit};
ghost use Rattle.quadratic.specs.Echelon.{row};

mod ops;

// An affine space of strings of 48 bits, in reduced echelon form by position: row p begins at bit p, and no other row has that
// bit, nor has the shift.
#[derive(Clone, Copy, PartialEq, Eq)]
pub struct AffineSpace {
    pivots: u64,
    // a fixed array, since no string has more than 48 bits and there is no heap here
    rows: [u64; 48],
    shift: u64,
    ghost within: { pivots < 2 ^ 48 },
    ghost low: { (p : ℕ) → row rows p < 2 ^ suc p },
    ghost lead: { (p : ℕ) → bit_and (row rows p) pivots ≡ bit_and (2 ^ p) pivots },
    ghost idle: { (p : ℕ) → digit pivots p ≡ 0 → row rows p ≡ 0 },
    ghost inside: { shift < 2 ^ 48 },
    ghost clean: { bit_and shift pivots ≡ 0 },
}

// What a restriction did.
#[derive(Clone, Copy)]
pub enum Outcome {
    Unchanged,
    Empty,
    Restricted,
}
