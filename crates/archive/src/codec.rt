// A state alone in a run of bytes: reading and writing.
ghost use Rattle.std.specs.Prelude.{◌≡◌, ℕ, ◌*◌, ◌<◌, ◌≤◌, length, take, IfOk, Some, None, MatchOption, MatchResult, OnOk, OnErr, slice_index};
ghost use Rattle.archive.specs.First.{Blames, Faultless, First};
ghost use Rattle.archive.specs.Layout.{alone_verdicts, alone_fault, state_fault};
ghost use Rattle.archive.specs.Held.{Holds};
ghost use Rattle.archive.specs.Writes.{length_of, LaidOut, RunOf, Telling};
ghost use Rattle.stabilizer.specs.States.{SameState};
ghost use Rattle.cyclotomic.specs.declared.refusal.Refusal.TheVariants.{Buffer};

use crate::build::build;
use crate::fault::{Field, Rule, StateFault};
use crate::layout::state_end;
use crate::put::StateFields;
use cyclotomic::refusal::Refusal;
use stabilizer::state::StabilizerState;

// Whether the bytes are those of one state and nothing else.
fn alone(bytes: &[u8]) -> Result<(), StateFault>
    ensures verdict { Blames result (alone_fault bytes.now) }
    ensures sound { OnOk result (state_fault bytes.now 0 ≡ None) }
{
    let end = state_end(bytes, 0)?;
    if end / 8 < bytes.len() {
        return Err(StateFault::Broken {
            rule: Rule::NothingLeft,
            field: Field::Rest,
            place: end,
        });
    }
    Ok(())
}

// Reads the state that the bytes hold, in the place of one that the caller has, which may be in fixed memory; refused, that stays as it was.
pub fn read(state: &mut StabilizerState, bytes: &[u8]) -> Result<(), StateFault>
    ensures verdict { Blames result (alone_fault bytes.now) }
    ensures first { MatchResult result (λ _. Faultless (alone_verdicts bytes.now)) (First (alone_verdicts bytes.now)) }
    ensures state { MatchResult result (λ _. Holds bytes.now 0 state.new) (λ _. state.new ≡ state.old) }
    ensures layout { OnOk result (LaidOut state.new bytes.now) }
{
    alone(bytes)?;
    *state = build(bytes, 0);
    Ok(())
}

// Writes the bytes of a state, and answers how many; the bytes past them stay, and refused all do.
pub fn write(state: &StabilizerState, buffer: &mut [u8]) -> Result<usize, Refusal>
    ensures length { MatchResult result (λ m. m ≡ length_of state.now) (λ e. e ≡ Buffer) }
    ensures room { MatchResult result (λ m. m ≤ length buffer.old) (λ _. length buffer.old < length_of state.now) }
    ensures least { IfOk result (λ m. 4 ≤ m) }
    ensures most { IfOk result (λ m. m ≤ 451) }
    ensures bytes { MatchResult result (λ m. RunOf state.now (take m buffer.new))
        (λ _. buffer.new ≡ buffer.old) }
    ensures layout { IfOk result (λ m. LaidOut state.now (take m buffer.new)) }
    ensures telling { IfOk result (λ m. Telling state.now (take m buffer.new)) }
    ensures past { MatchResult result (λ m. (i : ℕ) → m ≤ i → slice_index buffer.new i ≡ slice_index buffer.old i)
        (λ _. Unit {0}) }
{
    let fields = StateFields::of(state);
    let length = fields.bit_count().div_ceil(8);
    if buffer.len() < length {
        return Err(Refusal::Buffer);
    }
    fields.put(buffer);
    Ok(length)
}

// Writes a state and reads it again: what is read is the same state. The bytes past those of the state stay, and refused all do.
pub fn reread(
    state: &StabilizerState,
    copy: &mut StabilizerState,
    buffer: &mut [u8],
) -> Result<usize, Refusal>
    ensures length { MatchResult result (λ m. m ≡ length_of state.now) (λ e. e ≡ Buffer) }
    ensures room { OnErr result (length buffer.old < length_of state.now) }
    ensures copied { MatchResult result (λ _. SameState copy.new state.now) (λ _. copy.new ≡ copy.old) }
    ensures bytes { MatchResult result (λ m. RunOf state.now (take m buffer.new))
        (λ _. buffer.new ≡ buffer.old) }
    ensures past { MatchResult result (λ m. (i : ℕ) → m ≤ i → slice_index buffer.new i ≡ slice_index buffer.old i)
        (λ _. Unit {0}) }
{
    let written = write(state, buffer)?;
    let Ok(()) = read(copy, &buffer[..written]) else {
        unreachable()
    };
    Ok(written)
}

// Reads a state and writes it again: what is written are the same bytes. None where the buffer is shorter than these. The bytes past
// them stay, and all do where nothing is written.
pub fn rewrite(
    state: &mut StabilizerState,
    bytes: &[u8],
    buffer: &mut [u8],
) -> Result<Option<usize>, StateFault>
    ensures verdict { Blames result (alone_fault bytes.now) }
    ensures bytes { IfOk result (λ o. MatchOption o (length buffer.old < length bytes.now)
        (λ m. take m buffer.new ≡ bytes.now)) }
    ensures state { MatchResult result (λ _. Holds bytes.now 0 state.new) (λ _. state.new ≡ state.old) }
    ensures past { MatchResult result (λ o. MatchOption o (buffer.new ≡ buffer.old)
        (λ m. (i : ℕ) → m ≤ i → slice_index buffer.new i ≡ slice_index buffer.old i))
        (λ _. buffer.new ≡ buffer.old) }
{
    read(state, bytes)?;
    Ok(write(state, buffer).ok())
}
