ghost use Rattle.std.specs.Prelude.{OnOk, refl};
ghost use Rattle.std.specs.Io.KnownBytes.{Appends};
ghost use Rattle.stabilizer.specs.Overlaps.{Overlaps};
ghost use Rattle.listing.specs.Fields.{state_lines};
ghost use Rattle.listing.specs.Listings.{DescribesStates};
ghost use Rattle.listing.specs.Texts.{scalar_text};

use crate::fields::FieldsText;
use crate::pair::OfPair;
use crate::pairs::write_pairs;
use crate::sheets::{Document, write_count};
use cyclotomic::refusal::Refusal;
use cyclotomic::scalar::Scalar;
use stabilizer::overlap::overlap;
use stabilizer::state::StabilizerState;
use std::io;
use std::io::Write;

// The description of an archive: how many states there are, the fields of each, and the overlap of each pair.
pub struct Description;

impl Document for Description {
    ghost tells = { DescribesStates };

    fn write_states<O: Write>(out: &mut O, states: &[StabilizerState]) -> io::Result<()> {
        write_count(out, states.len())?;
        write_fields(out, states)?;
        write_pairs::<Scalar, O>(out, states)
    }
}

// The overlap of a pair.
impl OfPair for Scalar {
    ghost text = { scalar_text };

    ghost tells = { Overlaps };

    ghost shown = { λ x. refl };

    fn of_pair(t: &StabilizerState, s: &StabilizerState) -> Result<Scalar, Refusal> {
        overlap(t, s)
    }
}

// Writes a line for each state: its number and its fields.
fn write_fields<O: Write>(out: &mut O, states: &[StabilizerState]) -> io::Result<()>
    ensures { OnOk result (Appends (O.contents out.old) (O.contents out.new) (state_lines 1 states.now)) }
{
    for (i, state) in states.iter().enumerate() {
        writeln!(out, "{}: {}", i + 1, FieldsText(state))?;
    }
    Ok(())
}
