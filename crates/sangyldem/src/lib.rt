// The C entry, as a static library. include/sangyldem.h declares it.
#![tactic(auto)]

ghost use Rattle.std.specs.Prelude.{◌≡◌, ℕ, ◌<◌, ◌≤◌, length, slice_index};
ghost use Rattle.host.specs.Answers.{entry_number, Answered};

// Writes the overlap of two states, given as bytes, into the first four bytes of the answer, and answers 0; or answers the number of
// the refusal, and writes nothing. A slice is a pointer and a length to C.
#[unsafe(no_mangle)]
pub extern "C" fn overlap(t: &[u8], s: &[u8], answer: &mut [u8]) -> u8
    ensures number { result ≡ entry_number t.now s.now (length answer.old) }
    ensures granted { result ≡ 0 → Answered t.now s.now answer.new }
    ensures refused { 0 < result → answer.new ≡ answer.old }
    ensures rest { (k : ℕ) → 4 ≤ k → slice_index answer.new k ≡ slice_index answer.old k }
{
    host::overlap(t, s, answer)
}
