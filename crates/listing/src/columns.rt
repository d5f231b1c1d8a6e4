ghost use Rattle.std.specs.Prelude.{Some};
ghost use Rattle.listing.specs.Sums.{ColumnsOf};
ghost use Rattle.listing.specs.Texts.{columns_text};

use cyclotomic::mod17::Mod17;
use cyclotomic::quads::Cyclotomic64;
use cyclotomic::ring::Ring;
use quadratic::intersection::Intersection;
use quadratic::running::closed_form;
use std::fmt;

// The most dimensions of an intersection whose columns are shown.
const LARGEST: u64 = 12;

// The sum over all strings of an intersection, in each of the two rings. Its closed form is proved to be the same as adding the
// strings one by one.
#[derive(Clone, Copy)]
pub struct Columns {
    pub residue: Mod17,
    pub quad: Cyclotomic64,
}

// The columns of an intersection, unless it has too many dimensions.
pub fn columns_of(x: &Intersection) -> Option<Columns>
    ensures { ColumnsOf result x.now }
{
    if x.dimension().is_some_and(|dimension| dimension > LARGEST) {
        return None;
    }
    Some(Columns {
        residue: closed_form(x),
        quad: closed_form(x),
    })
}

impl fmt::Display for Columns {
    ghost output = { λ x. Some (columns_text (Some x)) };

    fn fmt<W: fmt::Write>(&self, f: &mut fmt::Formatter<W>) -> fmt::Result {
        write!(f, "{} {}", self.residue, self.quad)
    }
}
