ghost use Rattle.std.specs.Prelude.{◌≡◌, ℕ, ◌<◌, Some, slice_index};
ghost use Rattle.cyclotomic.specs.Columns.{glyph_of, glyphs};

use crate::hex::{glyph, write_ascii};
use cyclotomic::ring::Column;
use std::fmt;

// The most digits that are printed of a value.
const WIDEST: usize = 64;

// A value of any printable ring as it is printed: hexadecimal digits, as many as the ring has. The two rings here print themselves.
#[derive(Clone, Copy)]
pub struct ColumnText<C>(pub C);

impl<C: Column> fmt::Display for ColumnText<C> {
    ghost output = { λ x. Some (glyphs (C.Column.digit_of x.0) 0 C.Column.DIGITS) };

    fn fmt<W: fmt::Write>(&self, f: &mut fmt::Formatter<W>) -> fmt::Result {
        let digits = column_digits(self.0);
        let width = C::DIGITS;
        if width > WIDEST {
            return Err(fmt::Error);
        }
        write_ascii(f, &digits[..width])
    }
}

// The digits of a value of a ring; past its last digit they are 0.
pub fn column_digits<C: Column>(value: C) -> [u8; WIDEST]
    ensures { (k : ℕ) → k < 64 → slice_index result k ≡ glyph_of (C.Column.digit_of value k) }
{
    let mut digits = [0; WIDEST];
    for place in 0..WIDEST {
        digits[place] = glyph(value.digit(place));
    }
    digits
}
