// Archives: a count byte, and as many states, each from a byte's start.
ghost use Rattle.std.specs.Prelude.{◌≡◌, ◌+◌, ◌-◌, ◌*◌, ◌/◌, ◌^◌, ◌<◌, ◌≤◌, length, None, IfOk, MatchResult, OnOk};
ghost use Rattle.archive.specs.First.{Blames, Faultless, First};
ghost use Rattle.archive.specs.Held.{Holds};
ghost use Rattle.archive.specs.Layout.{state_fault, end_of_state};
ghost use Rattle.archive.specs.declared.container.Denial.TheVariants.{Fault, Refused};
ghost use Rattle.archive.specs.Denials.{number_by, denied};
ghost use Rattle.archive.specs.Archives.{carried, count_of, place_after, states_fault, archive_verdicts, archive_fault, part_of};

use crate::build::build;
use crate::fault::{ArchiveFault, BitsFault, Fault, Field};
use crate::layout::state_end;
use cyclotomic::refusal::Refusal;
use stabilizer::state::StabilizerState;
use std::ops::Range;

// How many states an archive may have.
const MOST_STATES: usize = 100;

// Why what was asked for is denied: bytes with a fault, of the kind F, or else a refusal.
#[derive(Clone, Copy, Debug, PartialEq, Eq)]
pub enum Denial<F> {
    Fault(F),
    Refused(Refusal),
}

impl<F: Fault> From<F> for Denial<F> {
    ghost from_gives = { λ f r. r ≡ Fault f };

    fn from(fault: F) -> Denial<F> {
        Denial::Fault(fault)
    }
}

impl<F> From<Refusal> for Denial<F> {
    ghost from_gives = { λ e r. r ≡ Refused e };

    fn from(refusal: Refusal) -> Denial<F> {
        Denial::Refused(refusal)
    }
}

impl<F: Fault> Denial<F> {
    // The number that stands for it.
    pub fn number(self) -> u64
        ensures { result ≡ number_by F.reported self }
    {
        match self {
            Denial::Fault(fault) => fault.number(),
            Denial::Refused(refusal) => refusal.number(),
        }
    }
}

// The place after a state, the one with the number, that begins at a place.
fn sheet_end(archive: &[u8], place: usize, sheet: u64) -> Result<usize, ArchiveFault>
    requires { place ≤ 2 ^ 31 }
    ensures verdict { Blames result (carried sheet (state_fault archive.now place)) }
    ensures end { IfOk result (λ q. q ≡ end_of_state archive.now place) }
    ensures near { IfOk result (λ q. q ≤ place + 4096) }
    ensures inside { IfOk result (λ q. q ≤ 8 * length archive.now) }
{
    state_end(archive, place).map_err(|fault| ArchiveFault::from(fault).numbered(sheet))
}

// The place after m states that begin at a place, behind the first `done`.
pub(crate) fn skip(archive: &[u8], at: usize, done: usize, m: usize) -> Result<usize, ArchiveFault>
    requires place { at ≡ place_after archive.now done }
    requires near { at ≤ 8 + done * 4096 }
    requires few { done + m ≤ 255 }
    requires inside { at ≤ 8 * length archive.now }
    ensures verdict { Blames result (states_fault archive.now done m) }
    ensures place { IfOk result (λ q. q ≡ place_after archive.now (done + m)) }
    ensures near { IfOk result (λ q. q ≤ 8 + (done + m) * 4096) }
    ensures inside { IfOk result (λ q. q ≤ 8 * length archive.now) }
{
    let mut place = at;
    // a state says only where it ends, so there are only numbers to go over, and a fold would be no shorter
    for i in done..done + m {
        place = sheet_end(archive, place, (i + 1) as u64)?;
    }
    Ok(place)
}

// The count of an archive without a fault.
pub(crate) fn counted(archive: &[u8]) -> Result<usize, ArchiveFault>
    ensures verdict { Blames result (archive_fault archive.now) }
    ensures count { IfOk result (λ n. n ≡ count_of archive.now) }
    ensures few { IfOk result (λ n. n ≤ 100) }
    ensures some { OnOk result (0 < length archive.now) }
{
    let [count, rest @ ..] = archive else {
        return Err(ArchiveFault::from(BitsFault {
            field: Field::Count,
            place: 0,
        }));
    };
    let count = usize::from(*count);
    if count > MOST_STATES {
        return Err(ArchiveFault::Overfull);
    }
    let end = skip(archive, 8, 0, count)?;
    if end / 8 <= rest.len() {
        return Err(ArchiveFault::LeftOver { place: end });
    }
    Ok(count)
}

// Checks a whole archive, and answers its count.
pub fn check(archive: &[u8]) -> Result<u64, ArchiveFault>
    ensures verdict { Blames result (archive_fault archive.now) }
    ensures count { IfOk result (λ n. n ≡ count_of archive.now) }
    ensures first { MatchResult result (λ _. Faultless (archive_verdicts archive.now))
        (First (archive_verdicts archive.now)) }
{
    let count = counted(archive)?;
    Ok(count as u64)
}

// Checks a whole archive, and answers the range of bytes where its state with the number stands.
fn locate(archive: &[u8], i: u64) -> Result<Range<usize>, Denial<ArchiveFault>>
    ensures verdict { Blames result (denied archive.now i) }
    ensures from { IfOk result (λ part. 8 * part.start ≡ place_after archive.now (i - 1)) }
    ensures to { IfOk result (λ part. 8 * part.end ≡ place_after archive.now i) }
    ensures order { IfOk result (λ part. part.start ≤ part.end) }
    ensures inside { IfOk result (λ part. part.end ≤ length archive.now) }
    ensures near { IfOk result (λ part. part.start ≤ 2 ^ 20) }
    ensures sound { OnOk result (state_fault archive.now (place_after archive.now (i - 1)) ≡ None) }
{
    let count = counted(archive)?;
    if i < 1 || i > count as u64 {
        return Err(Denial::Refused(Refusal::Index));
    }
    let before = (i - 1) as usize;
    let from = skip(archive, 8, 0, before)?;
    let to = skip(archive, from, before, 1)?;
    Ok(from / 8..to / 8)
}

// The part of an archive that is its state with the number.
pub fn view<'a>(archive: &'a [u8], i: u64) -> Result<&'a [u8], Denial<ArchiveFault>>
    ensures verdict { Blames result (denied archive.now i) }
    ensures part { IfOk result (λ part. part.now ≡ part_of archive.now i) }
{
    let part = locate(archive, i)?;
    Ok(&archive[part])
}

// Reads the state with the number from an archive, in the place of one that the caller has, as `read` does; denied, that stays as it was.
pub fn take(state: &mut StabilizerState, archive: &[u8], i: u64) -> Result<(), Denial<ArchiveFault>>
    ensures verdict { Blames result (denied archive.now i) }
    ensures state { MatchResult result (λ _. Holds archive.now (place_after archive.now (i - 1)) state.new)
        (λ _. state.new ≡ state.old) }
{
    let part = locate(archive, i)?;
    *state = build(archive, 8 * part.start);
    Ok(())
}
