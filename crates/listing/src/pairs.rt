ghost use Rattle.std.specs.Prelude.{◌+◌, ◌^◌, ◌<◌, List, length, OnOk};
ghost use Rattle.stabilizer.specs.declared.state.StabilizerState.{StabilizerState};
ghost use Rattle.listing.specs.Pairs.{IsPair, IsPairOf, Lines, StandsAt};
ghost use Rattle.listing.specs.Written.{Writes};

use crate::line::Line;
use crate::pair::OfPair;
use stabilizer::state::StabilizerState;
use std::io;
use std::io::Write;

// Writes a line for each pair of states.
pub(crate) fn write_pairs<T: OfPair, O: Write>(
    out: &mut O,
    states: &[StabilizerState],
) -> io::Result<()>
    ensures { OnOk result (Writes (Lines T.text T.tells states.now (IsPair (length states.now)))
        (O.contents out.old) (O.contents out.new)) }
{
    for (i, t) in states.iter().enumerate() {
        write_pairs_of::<T, O>(out, i, t, &states[i + 1..])?;
    }
    Ok(())
}

// Writes the lines of the pairs of t, which stands at i, with each state behind it.
fn write_pairs_of<T: OfPair, O: Write>(
    out: &mut O,
    i: usize,
    t: &StabilizerState,
    behind: &[StabilizerState],
) -> io::Result<()>
    requires { i + 1 + length behind.now < 2 ^ 63 }
    ensures { (states : List StabilizerState) → StandsAt states i t.now behind.now → OnOk result
        (Writes (Lines T.text T.tells states (IsPairOf (i + 1) (length states))) (O.contents out.old) (O.contents out.new)) }
{
    for (k, s) in behind.iter().enumerate() {
        let j = i + 1 + k;
        let line = Line::<T>::new(i as u64 + 1, j as u64 + 1, t, s);
        writeln!(out, "{line}")?;
    }
    Ok(())
}
