ghost use Rattle.std.specs.Prelude.{◌≡◌, ℕ, ◌+◌, ◌*◌, ◌^◌, ◌<◌, ◌≤◌, length, IfSome};
ghost use Rattle.quadratic.specs.Bits.{dot as parity};
ghost use Rattle.quadratic.specs.Moves.{turn};
ghost use Rattle.quadratic.specs.Phase.{phase};
ghost use Rattle.quadratic.specs.declared.affine.Outcome.TheVariants.{Restricted};
ghost use Rattle.cyclotomic.specs.Refusals.{answer_of};
ghost use Rattle.stabilizer.specs.Masks.{Added, MaskedLetters, Masked, quarters_of};
ghost use Rattle.stabilizer.specs.Projections.{Effected};
ghost use Rattle.stabilizer.specs.Paulis.{sign_of, letter_of, letters_of, pauli_of, text_number};

use cyclotomic::refusal::Refusal;
use quadratic::affine::Outcome;
use quadratic::phased::PhasedSpace;

// A signed product of the matrices I, X, Y and Z, one for each qubit: it takes a string y to y with the bits of `flips` turned
// over, times i^quarters, and times -1 where y has an odd parity with `signs`.
#[derive(Clone, Copy, Default)]
pub(crate) struct PauliMasks {
    flips: u64,
    signs: u64,
    quarters: u8,
}

impl PauliMasks {
    // A text with a sign and a letter for each qubit.
    pub(crate) fn read(qubits: u64, text: &[u8]) -> Result<PauliMasks, Refusal>
        requires { qubits ≤ 48 }
        ensures number { answer_of result ≡ text_number qubits text.now }
        ensures masks { Masked result (pauli_of text.now) }
    {
        let [sign, letters @ ..] = text else {
            return Err(Refusal::TextLength);
        };
        if letters.len() as u64 != qubits {
            return Err(Refusal::TextLength);
        }
        let turned = sign_quarters(*sign).ok_or(Refusal::Letter)?;
        let masks = PauliMasks::read_letters(letters)?;
        Ok(PauliMasks {
            quarters: masks.quarters + turned,
            ..masks
        })
    }

    // The letters, from the last to the first.
    fn read_letters(letters: &[u8]) -> Result<PauliMasks, Refusal>
        requires { length letters.now ≤ 48 }
        ensures { MaskedLetters result (letters_of letters.now) }
    {
        let mut masks = PauliMasks::default();
        for (place, &letter) in letters.iter().rev().enumerate() {
            masks = masks.with(letter, place)?;
        }
        Ok(masks)
    }

    // One letter more, for the qubit at a position above the others.
    fn with(self, letter: u8, place: usize) -> Result<PauliMasks, Refusal>
        requires place { place < 48 }
        requires flips { self.flips < 2 ^ place }
        requires signs { self.signs < 2 ^ place }
        requires quarters { self.quarters ≤ place }
        ensures { Added result (letter_of letter) self place }
    {
        let here: u64 = 1 << place;
        let (flip, sign) = match letter as char {
            'I' => (0, 0),
            'X' => (1, 0),
            'Y' => (1, 1),
            'Z' => (0, 1),
            _ => return Err(Refusal::Letter),
        };
        Ok(PauliMasks {
            flips: flip * here + self.flips,
            signs: sign * here + self.signs,
            quarters: self.quarters + (flip * sign) as u8,
        })
    }

    // Adds to the phased space what the operator makes of it: it is left as it was, nothing is left of it, or it is restricted to what
    // the operator leaves as it is.
    pub(crate) fn project(&self, body: &mut PhasedSpace) -> Outcome
        requires { self.now.flips < 2 ^ 48 }
        ensures { Effected result self.now body.old body.new }
    {
        let Some(turn) = body.factor_along(self.flips, self.signs) else {
            let _ = body.extend(self.flips, self.quarters, self.signs);
            return Outcome::Restricted;
        };
        // 1 + i is √2 ω, and 1 - i is √2 ω^7
        match (self.quarters % 4 + turn.quarters) % 4 {
            0 => body.restrict(turn.mask, false),
            1 => turned(body, 1, 3, turn.mask),
            2 => body.restrict(turn.mask, true),
            _ => turned(body, 7, 1, turn.mask),
        }
    }
}

// Turns every phase by so many eighths, and by quarters where the parity with the mask is odd.
fn turned(body: &mut PhasedSpace, eighths: u8, quarters: u8, mask: u64) -> Outcome
    ensures outcome { result ≡ Restricted }
    ensures phases { (y : ℕ) → phase body.new y ≡ turn (2 * quarters * parity mask y) (turn eighths (phase body.old y)) }
    ensures space { body.new.space ≡ body.old.space }
{
    body.add_phase(eighths);
    body.add_parity(quarters, mask);
    Outcome::Restricted
}

// The quarter turns that a sign stands for.
fn sign_quarters(sign: u8) -> Option<u8>
    ensures read { result ≡ quarters_of (sign_of sign) }
    ensures small { IfSome result (λ q. q ≤ 2) }
{
    match sign as char {
        '+' => Some(0),
        '-' => Some(2),
        _ => None,
    }
}
