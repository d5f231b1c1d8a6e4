ghost use Rattle.std.specs.Prelude.{Some};
ghost use Rattle.quadratic.specs.Coordinates.{Coordinates as CoordinatesOf, coordinates_text};

use crate::intersection::Intersection;
use crate::running::closed_form;
use cyclotomic::quads::Cyclotomic64;
use std::fmt;

// An exact sum by its coordinates, those of 1, ω, ω^2 and ω^3.
#[derive(Clone, Copy, Debug, PartialEq, Eq)]
pub struct Coordinates {
    pub a0: i64,
    pub a1: i64,
    pub a2: i64,
    pub a3: i64,
}

// The sum of ω^value over all strings by its coordinates: the words of its value in `Cyclotomic64`, read as signed numbers.
pub fn exact_coordinates(x: &Intersection) -> Coordinates
    ensures { CoordinatesOf x.now result.a0 result.a1 result.a2 result.a3 }
{
    let sum: Cyclotomic64 = closed_form(x);
    Coordinates {
        a0: sum.word(0).cast_signed(),
        a1: sum.word(1).cast_signed(),
        a2: sum.word(2).cast_signed(),
        a3: sum.word(3).cast_signed(),
    }
}

impl fmt::Display for Coordinates {
    ghost output = { λ x. Some (coordinates_text x.a0 x.a1 x.a2 x.a3) };

    fn fmt<W: fmt::Write>(&self, f: &mut fmt::Formatter<W>) -> fmt::Result {
        let Coordinates { a0, a1, a2, a3 } = *self;
        write!(f, "{a0} {a1} {a2} {a3}")
    }
}
