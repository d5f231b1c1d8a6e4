// All states of an archive at once.
ghost use Rattle.std.specs.Prelude.{◌≡◌, None, vec_len, IfOk, MatchResult};
ghost use Rattle.archive.specs.declared.load.LoadError.TheVariants.{Archive, Memory};
ghost use Rattle.archive.specs.Archives.{count_of, archive_fault};
ghost use Rattle.archive.specs.Loads.{InTurn, fault_of};

use crate::build::build;
use crate::container::{counted, skip};
use crate::fault::ArchiveFault;
use stabilizer::state::StabilizerState;
use std::alloc::{AllocFailed, Global};

// Why an archive was not loaded.
#[derive(Clone, Copy, Debug)]
pub enum LoadError {
    Archive(ArchiveFault),
    Memory,
}

impl From<ArchiveFault> for LoadError {
    ghost from_gives = { λ f r. r ≡ Archive f };

    fn from(fault: ArchiveFault) -> LoadError {
        LoadError::Archive(fault)
    }
}

impl<T: Drop> From<AllocFailed<T>> for LoadError {
    ghost from_gives = { λ _ r. r ≡ Memory };

    fn from(_refused: AllocFailed<T>) -> LoadError {
        LoadError::Memory
    }
}

// Checks a whole archive, and answers its states in turn.
pub fn load(heap: Global, archive: &[u8]) -> Result<Vec<StabilizerState>, LoadError>
    ensures verdict { MatchResult result (λ _. archive_fault archive.now ≡ None) (λ e. archive_fault archive.now ≡ fault_of e) }
    ensures count { IfOk result (λ states. vec_len states ≡ count_of archive.now) }
    ensures turn { IfOk result (λ states. InTurn archive.now 0 states.items) }
{
    let count = counted(archive)?;
    let mut states = Vec::new(heap);
    let mut at = 8;
    // A state says only where it ends, so there is nothing to go over but numbers.
    for i in 0..count {
        let end = skip(archive, at, i, 1)?;
        states.push(build(archive, at))?;
        at = end;
    }
    Ok(states)
}
