ghost use Rattle.std.specs.Prelude.{◌≡◌, Some};
ghost use Rattle.console.specs.Replies.{problem_text};
ghost use Rattle.console.specs.declared.problem.Problem.TheVariants.{NoMemory};

use std::alloc::{AllocError, AllocFailed};
use std::fmt;

// Why a line cannot be read.
#[derive(Clone, Copy, Debug, PartialEq, Eq)]
pub enum Problem {
    UnknownCommand,
    MissingWord,
    ExtraWord,
    NoState,
    NoRing,
    NoNumber,
    NoPairs,
    NoScalar,
    NoCall,
    NoMemory,
}

impl From<AllocError> for Problem {
    ghost from_gives = { λ _ p. p ≡ NoMemory };

    fn from(_: AllocError) -> Problem {
        Problem::NoMemory
    }
}

impl<T: Drop> From<AllocFailed<T>> for Problem {
    ghost from_gives = { λ _ p. p ≡ NoMemory };

    fn from(_: AllocFailed<T>) -> Problem {
        Problem::NoMemory
    }
}

impl fmt::Display for Problem {
    ghost output = { λ x. Some (problem_text x) };

    fn fmt<W: fmt::Write>(&self, f: &mut fmt::Formatter<W>) -> fmt::Result {
        f.write_str(match self {
            Problem::UnknownCommand => "no such command; help lists them",
            Problem::MissingWord => "a word is missing",
            Problem::ExtraWord => "there is a word too many",
            Problem::NoState => "a state is s or t",
            Problem::NoRing => "a ring is mod17 or quad",
            Problem::NoNumber => "a number in base ten of at most 64 bits is wanted",
            Problem::NoPairs => "pairs of hexadecimal digits are wanted, or - for none",
            Problem::NoScalar => "a scalar is 0 0 0, or 1 P M with M from 0 to 7",
            Problem::NoCall =>
                "a call is g:KIND:J:L or p:TEXT, with ; between calls, or - for none",
            Problem::NoMemory => "there is no memory for these bytes",
        })
    }
}
