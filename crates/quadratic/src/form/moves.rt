ghost use Rattle.std.specs.Prelude.{◌≡◌, ℕ, ◌+◌, ◌*◌, ◌%◌, ◌^◌, ◌<◌, bit_xor};
ghost use Rattle.quadratic.specs.Bits.{dot as parity, flag as numeral};
ghost use Rattle.quadratic.specs.Value.{value_at};

use super::QuadraticForm;
use crate::bits::odd_rows;

impl QuadraticForm {
    // Adds 2 * quarters where the parity of the mask is not `base`. Mask and base are two arguments, since callers compute each by itself.
    pub(crate) fn add_affine(&mut self, quarters: u8, base: bool, mask: u64)
        requires { mask < 2 ^ 48 }
        ensures { (c : ℕ) → value_at self.new c ≡ (value_at self.old c + 2 * quarters * bit_xor (numeral base) (parity mask c)) % 8 }
    {
        if base {
            self.add_phase(2 * (quarters % 4));
            self.add_parity(4 - quarters % 4, mask);
        } else {
            self.add_parity(quarters, mask);
        }
    }

    // The variables in which the form gains 4 where u is added.
    pub(crate) fn polar(&self, u: u64) -> u64
        ensures { (c : ℕ) → (value_at self.now (bit_xor c u) + value_at self.now 0) % 8
            ≡ (value_at self.now c + value_at self.now u + 4 * parity result c) % 8 }
    {
        odd_rows(&self.coupling, u)
    }
}
