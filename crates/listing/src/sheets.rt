ghost use Rattle.std.specs.Prelude.{◌≡◌, ℕ, List, None, IfSome, IfErr, MatchOption, OnOk};
ghost use Rattle.std.specs.Io.KnownBytes.{Appends};
ghost use Rattle.std.specs.IoError.{error_kind};
ghost use Rattle.archive.specs.Loads.{fault_of};
ghost use Rattle.stabilizer.specs.declared.state.StabilizerState.{StabilizerState};
ghost use Rattle.listing.specs.Listings.{line_of_fault, ListsStates, Reports, sheets_text};
ghost use Rattle.listing.specs.Written.{Writes};

use crate::comparison::Comparison;
use crate::pairs::write_pairs;
use archive::fault::Fault;
use archive::load::{LoadError, load};
use stabilizer::state::StabilizerState;
use std::alloc::Global;
use std::io;
use std::io::{ErrorKind, Read, Write};

// A document on an archive: a listing or a description.
pub trait Document {
    // what the text says of the states
    ghost tells: { List StabilizerState → List ℕ → Type 0 };

    // Writes what the document says of states.
    fn write_states<O: Write>(out: &mut O, states: &[StabilizerState]) -> io::Result<()>
        ensures { OnOk result (Writes (tells states.now) (O.contents out.old) (O.contents out.new)) };

    // Writes the document on an archive: what it says of the states, or the line of the fault.
    final fn write<O: Write>(heap: Global, out: &mut O, archive: &[u8]) -> io::Result<()>
        ensures { OnOk result (Writes (Reports tells archive.now) (O.contents out.old) (O.contents out.new)) }
    {
        match load(heap, archive) {
            Ok(states) => Self::write_states(out, &states),
            Err(error) => write_load_error(out, error),
        }
    }

    // Reads an archive to its end, and writes the document on it.
    final fn render<R: Read, O: Write>(heap: Global, input: &mut R, out: &mut O) -> io::Result<()>
        ensures { OnOk result (IfSome (R.remaining input.old) (λ archive.
            Writes (Reports tells archive) (O.contents out.old) (O.contents out.new))) }
    {
        let mut archive = Vec::new(heap);
        input.read_to_end(&mut archive)?;
        Self::write(heap, out, &archive)?;
        out.flush()
    }
}

// The listing of an archive: how many states there are, and a line for each pair.
pub struct Listing;

impl Document for Listing {
    ghost tells = { ListsStates };

    fn write_states<O: Write>(out: &mut O, states: &[StabilizerState]) -> io::Result<()> {
        write_count(out, states.len())?;
        write_pairs::<Comparison, O>(out, states)
    }
}

// Writes the line that says how many states there are.
pub(crate) fn write_count<O: Write>(out: &mut O, count: usize) -> io::Result<()>
    ensures { OnOk result (Appends (O.contents out.old) (O.contents out.new) (sheets_text count)) }
{
    writeln!(out, "sheets {count}")
}

// Writes the line of a fault. Where there was no memory, nothing is written.
pub(crate) fn write_load_error<O: Write>(out: &mut O, error: LoadError) -> io::Result<()>
    ensures written { OnOk result (MatchOption (fault_of error) ⊥ (λ f.
        Appends (O.contents out.old) (O.contents out.new) (line_of_fault f))) }
    ensures memory { fault_of error ≡ None → out.new ≡ out.old }
    ensures kind { fault_of error ≡ None → IfErr result (λ e. error_kind e ≡ ErrorKind.OutOfMemory) }
{
    match error {
        LoadError::Archive(fault) => {
            let report = fault.report();
            writeln!(out, "{report}")
        }
        LoadError::Memory => Err(io::Error::from(ErrorKind::OutOfMemory)),
    }
}
