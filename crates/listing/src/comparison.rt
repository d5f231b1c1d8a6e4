ghost use Rattle.std.specs.Prelude.{Some};
ghost use Rattle.listing.specs.Texts.{comparison_text, mark_text};

use crate::columns::Columns;
use cyclotomic::scalar::Scalar;
use std::fmt;

// What the listing says of two states with the same number of qubits.
#[derive(Clone, Copy)]
pub struct Comparison {
    pub overlap: Scalar,
    // None where the intersection has more than 12 dimensions
    pub columns: Option<Columns>,
    // whether the two states have the same amplitudes
    pub equal: bool,
}

// Whether two things are the same, as it is shown.
#[derive(Clone, Copy)]
pub struct Mark(pub bool);

impl fmt::Display for Mark {
    ghost output = { λ x. Some (mark_text x.0) };

    fn fmt<W: fmt::Write>(&self, f: &mut fmt::Formatter<W>) -> fmt::Result {
        f.write_str(if self.0 { "=" } else { "." })
    }
}

impl fmt::Display for Comparison {
    ghost output = { λ x. Some (comparison_text x) };

    fn fmt<W: fmt::Write>(&self, f: &mut fmt::Formatter<W>) -> fmt::Result {
        let mark = Mark(self.equal);
        match self.columns {
            Some(columns) => write!(f, "{} {columns} {mark}", self.overlap),
            None => write!(f, "{} -- -- {mark}", self.overlap),
        }
    }
}
