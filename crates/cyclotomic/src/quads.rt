ghost use Rattle.std.specs.Prelude.{◌≡◌, ℕ, ◌/◌, ◌%◌, ◌^◌, ◌<◌, Some, refl};
ghost use Rattle.std.proofs.Common.{lit<};
ghost use Rattle.cyclotomic.specs.Adjoin.{quad};
ghost use Rattle.cyclotomic.specs.Columns.{hex_at, word_at};
ghost use Rattle.cyclotomic.specs.Modular.{Quad, quads as modular, low};
ghost use Rattle.cyclotomic.specs.ModularLaws.{quad_laws};
ghost use Rattle.cyclotomic.specs.Texts.{words_text};

use crate::ring::{Column, Printed, Ring};
use std::fmt;
use std::num::Wrapping;

// a0 + a1 ω + a2 ω^2 + a3 ω^3, each coordinate modulo 2^64.
#[derive(Clone, Copy, Debug, PartialEq, Eq)]
pub struct Cyclotomic64 {
    a0: Wrapping<u64>,
    a1: Wrapping<u64>,
    a2: Wrapping<u64>,
    a3: Wrapping<u64>,
}

impl Ring for Cyclotomic64 {
    ghost carrier = { Quad };

    ghost ops = { modular };

    ghost laws = { quad_laws };

    ghost value = { λ x. quad (low {n = 2 ^ 64} (lit< tt) x.a0.0) (low (lit< tt) x.a1.0) (low (lit< tt) x.a2.0) (low (lit< tt) x.a3.0) };

    fn zero() -> Cyclotomic64 {
        Cyclotomic64::new(0, 0, 0, 0)
    }

    fn one() -> Cyclotomic64 {
        Cyclotomic64::new(1, 0, 0, 0)
    }

    fn omega() -> Cyclotomic64 {
        Cyclotomic64::new(0, 1, 0, 0)
    }

    fn plus(self, other: Cyclotomic64) -> Cyclotomic64 {
        Cyclotomic64 {
            a0: self.a0 + other.a0,
            a1: self.a1 + other.a1,
            a2: self.a2 + other.a2,
            a3: self.a3 + other.a3,
        }
    }

    fn negative(self) -> Cyclotomic64 {
        Cyclotomic64 {
            a0: -self.a0,
            a1: -self.a1,
            a2: -self.a2,
            a3: -self.a3,
        }
    }

    fn times(self, other: Cyclotomic64) -> Cyclotomic64 {
        let Cyclotomic64 {
            a0: a,
            a1: b,
            a2: c,
            a3: d,
        } = self;
        let Cyclotomic64 {
            a0: e,
            a1: f,
            a2: g,
            a3: h,
        } = other;
        Cyclotomic64 {
            a0: a * e - c * g - b * h - d * f,
            a1: a * f - c * h + b * e - d * g,
            a2: a * g + c * e + b * f - d * h,
            a3: a * h + c * f + b * g + d * e,
        }
    }

    fn equal(self, other: Cyclotomic64) -> bool {
        self == other
    }
}

impl Cyclotomic64 {
    // The element with these coordinates.
    fn new(a0: u64, a1: u64, a2: u64, a3: u64) -> Cyclotomic64
        ensures first { result.a0.0 ≡ a0 }
        ensures second { result.a1.0 ≡ a1 }
        ensures third { result.a2.0 ≡ a2 }
        ensures fourth { result.a3.0 ≡ a3 }
    {
        Cyclotomic64 {
            a0: Wrapping(a0),
            a1: Wrapping(a1),
            a2: Wrapping(a2),
            a3: Wrapping(a3),
        }
    }

    // The coordinate of ω^i, 0 for an i over 3.
    pub fn word(self, i: usize) -> u64
        ensures { result ≡ word_at self.a0.0 self.a1.0 self.a2.0 self.a3.0 i }
    {
        match i {
            0 => self.a0.0,
            1 => self.a1.0,
            2 => self.a2.0,
            3 => self.a3.0,
            _ => 0,
        }
    }
}

impl Column for Cyclotomic64 {
    ghost DIGITS = { 64 };

    ghost digit_of = { λ x i. hex_at 16 (word_at x.a0.0 x.a1.0 x.a2.0 x.a3.0 (i / 16)) (i % 16) };

    const DIGITS: usize = 64;

    fn digit(self, place: usize) -> u8 {
        ((self.word(place / 16) >> (60 - 4 * (place % 16))) % 16) as u8
    }
}

impl Printed for Cyclotomic64 {
    ghost printed = { λ x. refl };
}

impl fmt::Display for Cyclotomic64 {
    ghost output = { λ x. Some (words_text x.a0.0 x.a1.0 x.a2.0 x.a3.0) };

    fn fmt<W: fmt::Write>(&self, f: &mut fmt::Formatter<W>) -> fmt::Result {
        let [a0, a1, a2, a3] = [self.a0.0, self.a1.0, self.a2.0, self.a3.0];
        let width = Cyclotomic64::DIGITS / 4;
        write!(f, "{a0:0width$x}{a1:0width$x}{a2:0width$x}{a3:0width$x}")
    }
}
