ghost use Rattle.std.specs.Prelude.{◌<◌};

pub mod ops;
pub mod text;
pub mod values;

// The number 0, or 2^(power/2) · ω^turn, where ω is the eighth root of one with ω^4 = -1. As a triple (ε, power, turn) the number 0 is
// (0, 0, 0), and every other number has ε = 1: no two scalars stand for the same number.
#[derive(Clone, Copy, Debug, PartialEq, Eq)]
pub struct Scalar {
    // none for the number 0
    term: Option<Term>,
}

// The number 2^(power/2) · ω^turn.
#[derive(Clone, Copy, Debug, PartialEq, Eq)]
struct Term {
    power: i64,
    turn: u64,
    ghost eighths: { turn < 8 },
}
