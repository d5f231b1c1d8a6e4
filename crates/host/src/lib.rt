// The overlap of two states given as bytes, for programs in other languages: the crate `sangyldem` hands it to C.
#![tactic(auto)]

ghost use Rattle.std.specs.Prelude.{◌≡◌, ℕ, ◌<◌, ◌≤◌, length, IfOk, Some, None, MatchResult, slice_index};
ghost use Rattle.cyclotomic.specs.Scalars.{triple_of};
ghost use Rattle.archive.specs.Denials.{denial_number};
ghost use Rattle.archive.specs.First.{Blames};
ghost use Rattle.host.specs.Answers.{pair_denial, pair_number, entry_number, word_of, bytes_of, Overlapped, Answered};

use archive::codec::read;
use archive::container::Denial;
use archive::fault::StateFault;
use cyclotomic::refusal::Refusal;
use cyclotomic::scalar::Scalar;
use stabilizer::state::StabilizerState;

// The overlap of the states that two runs of bytes hold.
pub fn overlap_of(t: &[u8], s: &[u8]) -> Result<Scalar, Denial<StateFault>>
    ensures number { MatchResult result (λ _. pair_number t.now s.now ≡ 0) (λ d. denial_number d ≡ pair_number t.now s.now) }
    ensures denial { Blames result (pair_denial t.now s.now) }
    ensures value { IfOk result (Overlapped t.now s.now) }
{
    let mut first = StabilizerState::new();
    read(&mut first, t)?;
    let mut second = StabilizerState::new();
    read(&mut second, s)?;
    let overlap = stabilizer::overlap::overlap(&first, &second)?;
    Ok(overlap)
}

// A scalar in four bytes, most significant bit first: ε in 1 bit, the power without its sign in 14, the turn in 3, and 14 zeros.
pub fn packed(x: Scalar) -> [u8; 4]
    ensures { result ≡ bytes_of (word_of (triple_of x)) }
{
    let size = x.power().unsigned_abs() % 16384;
    let word = ((x.epsilon() * 16384 + size) * 8 + x.turn()) * 16384;
    (word as u32).to_be_bytes()
}

// Writes the overlap of two states, given as bytes, into the first four bytes of the answer, and answers 0; or answers the number of
// the refusal, and writes nothing.
pub fn overlap(t: &[u8], s: &[u8], answer: &mut [u8]) -> u8
    ensures number { result ≡ entry_number t.now s.now (length answer.old) }
    ensures granted { result ≡ 0 → Answered t.now s.now answer.new }
    ensures refused { 0 < result → answer.new ≡ answer.old }
    ensures rest { (k : ℕ) → 4 ≤ k → slice_index answer.new k ≡ slice_index answer.old k }
{
    if answer.len() < 4 {
        return Refusal::Buffer.number() as u8;
    }
    match overlap_of(t, s) {
        Ok(x) => {
            answer[..4].copy_from_slice(&packed(x));
            0
        }
        Err(denial) => denial.number() as u8,
    }
}
