// Scalars as they are printed.
ghost use Rattle.std.specs.Prelude.{Some};
ghost use Rattle.cyclotomic.specs.Scalars.{triple_of};
ghost use Rattle.cyclotomic.specs.Texts.{triple_text};

use super::Scalar;
use std::fmt;

impl fmt::Display for Scalar {
    ghost output = { λ x. Some (triple_text (triple_of x)) };

    fn fmt<W: fmt::Write>(&self, f: &mut fmt::Formatter<W>) -> fmt::Result {
        write!(f, "{} {} {}", self.epsilon(), self.power(), self.turn())
    }
}
