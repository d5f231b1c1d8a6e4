ghost use Rattle.std.specs.Prelude.{◌≡◌, ℕ, ◌<◌, ◌%◌, Some, refl};
ghost use Rattle.cyclotomic.specs.Columns.{hex_at};
ghost use Rattle.std.proofs.Common.{lit<};
ghost use Rattle.cyclotomic.specs.Modular.{Below as Residue, seventeen, low};
ghost use Rattle.cyclotomic.specs.ModularLaws.{seventeen_laws};
ghost use Rattle.cyclotomic.specs.Texts.{residue_text};

use crate::ring::{Column, Printed, Ring};
use std::fmt;

// A number modulo 17, where 2 is an eighth root of one.
#[derive(Clone, Copy, Debug, PartialEq, Eq)]
pub struct Mod17 {
    residue: u8,
    ghost small: { residue < 17 },
}

impl Mod17 {
    // What a number is modulo 17.
    fn reduced(number: u16) -> Mod17
        ensures { result.residue ≡ number % 17 }
    {
        Mod17 {
            residue: (number % 17) as u8,
        }
    }
}

impl Ring for Mod17 {
    ghost carrier = { Residue 17 };

    ghost ops = { seventeen };

    ghost laws = { seventeen_laws };

    ghost value = { λ x. low (lit< tt) x.residue };

    fn zero() -> Mod17 {
        Mod17 { residue: 0 }
    }

    fn one() -> Mod17 {
        Mod17 { residue: 1 }
    }

    fn omega() -> Mod17 {
        Mod17 { residue: 2 }
    }

    fn plus(self, other: Mod17) -> Mod17 {
        Mod17::reduced(self.residue as u16 + other.residue as u16)
    }

    fn negative(self) -> Mod17 {
        Mod17::reduced(17 - self.residue as u16)
    }

    fn times(self, other: Mod17) -> Mod17 {
        Mod17::reduced(self.residue as u16 * other.residue as u16)
    }

    fn equal(self, other: Mod17) -> bool {
        self == other
    }
}

impl Column for Mod17 {
    ghost DIGITS = { 2 };

    ghost digit_of = { λ x i. hex_at 2 x.residue i };

    const DIGITS: usize = 2;

    fn digit(self, place: usize) -> u8 {
        match place {
            0 => self.residue / 16,
            1 => self.residue % 16,
            _ => 0,
        }
    }
}

impl Printed for Mod17 {
    ghost printed = { λ x. refl };
}

impl fmt::Display for Mod17 {
    ghost output = { λ x. Some (residue_text x.residue) };

    fn fmt<W: fmt::Write>(&self, f: &mut fmt::Formatter<W>) -> fmt::Result {
        write!(f, "{:0digits$x}", self.residue, digits = Mod17::DIGITS)
    }
}
