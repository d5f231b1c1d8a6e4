ghost use Rattle.std.specs.Prelude.{◌≡◌, ◌≢◌, ◌≤◌, ◌⊎◌, [], ◌∷◌, ◌==◌, length, IfOk, IfErr, OnOk, OnErr, MatchResult, Ok, Err, slice_index};
ghost use Rattle.std.specs.List.{position_or_len};
ghost use Rattle.console.specs.Parts.{IsHex, Spells, scalar_parts};
ghost use Rattle.console.specs.Words.{words_in, Lacks, Next, Reads, Unreadable};
ghost use Rattle.console.specs.declared.problem.Problem.TheVariants.{NoMemory};
ghost use Rattle.cyclotomic.specs.Scalars.{triple_of};
ghost use Rattle.listing.specs.Digits.{Paired};

use crate::problem::Problem;
use cyclotomic::scalar::Scalar;
use listing::hex::Hex;
use std::num::ParseIntError;
use std::str;
use std::str::FromStr;

// The words of a line that have not been read yet. Blanks stand between them.
#[derive(Drop)]
pub struct Words<'a> {
    rest: &'a [u8],
    ghost at_word: { slice_index rest.now 0 ≢ 32 },
}

impl<'a> Words<'a> {
    pub(crate) fn new(line: &'a [u8]) -> Words<'a>
        ensures { words_in result.rest.now ≡ words_in line.now }
    {
        Words {
            rest: trimmed(line),
        }
    }

    // Whether no word is left.
    pub(crate) fn is_empty(&self) -> bool {
        self.rest.is_empty()
    }

    // The next word.
    pub(crate) fn word(&mut self) -> Result<&'a [u8], Problem>
        ensures first { IfOk result (λ w. words_in self.old.rest.now ≡ w.now ∷ words_in self.new.rest.now) }
        ensures none { OnErr result (words_in self.old.rest.now ≡ []) }
    {
        if self.rest.is_empty() {
            return Err(Problem::MissingWord);
        }
        let (word, after) = self.rest.split_at(until(self.rest, b' '));
        self.rest = trimmed(after);
        Ok(word)
    }

    // The next word as a number in base ten.
    pub(crate) fn number<N: FromStr<Err = ParseIntError>>(&mut self) -> Result<N, Problem>
        ensures read { IfOk result (λ n. Next (λ w. Reads N.from_str_gives n w.now)
            (words_in self.old.rest.now) (words_in self.new.rest.now)) }
        ensures unread { OnErr result (Lacks (λ w. Unreadable N.from_str_gives w.now) (words_in self.old.rest.now)) }
    {
        number_of(self.word()?)
    }

    // The next word as the name of a state or of a ring.
    pub(crate) fn named<N: TryFrom<&'a [u8], Error = Problem>>(&mut self) -> Result<N, Problem>
        ensures named { IfOk result (λ n. Next (λ w. N.try_from_gives w (Ok n))
            (words_in self.old.rest.now) (words_in self.new.rest.now)) }
        ensures unnamed { IfErr result (λ p. Lacks (λ w. N.try_from_gives w (Err p)) (words_in self.old.rest.now)) }
    {
        N::try_from(self.word()?)
    }

    // The next three words as a scalar.
    pub(crate) fn scalar(&mut self) -> Result<Scalar, Problem>
        ensures { IfOk result (λ x. Spells (scalar_parts (triple_of x))
            (words_in self.old.rest.now) (words_in self.new.rest.now)) }
    {
        let epsilon = self.number()?;
        let power = self.number()?;
        let turn = self.number()?;
        Scalar::new(epsilon, power, turn).ok_or(Problem::NoScalar)
    }

    // Puts the bytes that the next word stands for into `out`, in place of what it held.
    pub(crate) fn bytes(&mut self, out: &mut Vec<u8>) -> Result<(), Problem>
        ensures decoded { OnOk result (Next (λ w. IsHex out.new.items w.now)
            (words_in self.old.rest.now) (words_in self.new.rest.now)) }
        ensures unpaired { IfErr result (λ p. (p ≡ NoMemory) ⊎ Lacks (λ w. Paired w.now → ⊥) (words_in self.old.rest.now)) }
    {
        let digits = Hex::new(self.word()?).ok_or(Problem::NoPairs)?;
        digits.decode(out)?;
        Ok(())
    }

    // Refuses a word that is left over.
    pub(crate) fn end(&self) -> Result<(), Problem>
        ensures { MatchResult result (λ _. words_in self.now.rest.now ≡ []) (λ _. words_in self.now.rest.now ≢ []) }
    {
        if self.rest.is_empty() {
            Ok(())
        } else {
            Err(Problem::ExtraWord)
        }
    }
}

// The line without the blanks at its start.
fn trimmed(line: &[u8]) -> &[u8]
    ensures words { words_in result.now ≡ words_in line.now }
    ensures at_word { slice_index result.now 0 ≢ 32 }
{
    let mut rest = line;
    while let [b' ', after @ ..] = rest {
        rest = after;
    }
    rest
}

// How many bytes stand before the first one that is `end`.
fn until(line: &[u8], end: u8) -> usize
    ensures inside { result ≤ length line.now }
    ensures place { result ≡ position_or_len (λ c. c == end) line.now }
{
    line.iter()
        .position(|byte| *byte == end)
        .unwrap_or(line.len())
}

// The number that a word of digits stands for, with `-` before them where the type has a sign, if it is one of the type.
pub(crate) fn number_of<N: FromStr<Err = ParseIntError>>(word: &[u8]) -> Result<N, Problem>
    ensures read { IfOk result (λ n. Reads N.from_str_gives n word.now) }
    ensures unread { OnErr result (Unreadable N.from_str_gives word.now) }
{
    // `parse` would read a plus sign
    if let [b'+', ..] = word {
        return Err(Problem::NoNumber);
    }
    let digits = str::from_utf8(word).map_err(|_| Problem::NoNumber)?;
    digits.parse().map_err(|_| Problem::NoNumber)
}
