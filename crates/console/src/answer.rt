ghost use Rattle.std.specs.Prelude.{◌≡◌, Some, Ok, MatchResult};
ghost use Rattle.archive.specs.Faults.{archive_report, state_report};
ghost use Rattle.console.specs.Answers.{denial_answer, fault_answer, split_answer};
ghost use Rattle.console.specs.Replies.{common_text, reply_text, value_text};
ghost use Rattle.console.specs.declared.answer.Answer.TheVariants.{Done, Refused, Scalar as Shown};
ghost use Rattle.console.specs.declared.answer.RingValue.TheVariants.{Mod17 as Residue, Quad as Words};

use crate::problem::Problem;
use archive::container::Denial;
use archive::fault::{ArchiveFault, Fault, Report, StateFault};
use cyclotomic::mod17::Mod17;
use cyclotomic::quads::Cyclotomic64;
use cyclotomic::refusal::Refusal;
use cyclotomic::scalar::Scalar;
use listing::comparison::Mark;
use listing::fields::FieldsText;
use listing::hex::HexBytes;
use listing::space::SpaceText;
use quadratic::coordinates::Coordinates;
use quadratic::intersection::Intersection;
use stabilizer::state::StabilizerState;
use std::fmt;

// A value of one of the rings.
#[derive(Clone, Copy)]
pub enum RingValue {
    Mod17(Mod17),
    Quad(Cyclotomic64),
}

impl From<Mod17> for RingValue {
    ghost from_gives = { λ x v. v ≡ Residue x };

    fn from(x: Mod17) -> RingValue {
        RingValue::Mod17(x)
    }
}

impl From<Cyclotomic64> for RingValue {
    ghost from_gives = { λ x v. v ≡ Words x };

    fn from(x: Cyclotomic64) -> RingValue {
        RingValue::Quad(x)
    }
}

impl fmt::Display for RingValue {
    ghost output = { λ x. Some (value_text x) };

    fn fmt<W: fmt::Write>(&self, f: &mut fmt::Formatter<W>) -> fmt::Result {
        match self {
            RingValue::Mod17(x) => write!(f, "{x}"),
            RingValue::Quad(x) => write!(f, "{x}"),
        }
    }
}

// An intersection of states of so many qubits.
#[derive(Clone, Copy)]
pub struct Common {
    pub both: Intersection,
    pub qubits: u64,
}

impl fmt::Display for Common {
    ghost output = { λ x. Some (common_text x.both x.qubits) };

    fn fmt<W: fmt::Write>(&self, f: &mut fmt::Formatter<W>) -> fmt::Result {
        match &self.both.space {
            None => f.write_str("empty"),
            Some(space) => {
                let text = SpaceText {
                    space,
                    qubits: self.qubits,
                };
                write!(f, "{} {text}", space.dimension())
            }
        }
    }
}

// What a line is answered. Bytes of an answer are in the buffer of the operands, of which `run` says what it holds after a refusal too.
#[derive(Clone, Copy)]
pub enum Answer {
    Help,
    Done,
    Refused(Refusal),
    Fault(Report),
    Unreadable(Problem),
    Bytes,
    Length(usize),
    Number(u8),
    Fields(StabilizerState),
    Scalar(Scalar),
    Common(Common),
    Mark(bool),
    Aside,
    Coordinates(Coordinates),
    // the number of the last answer as the line prints it, 0 where nothing was refused: a Result of nothing would be made a number there
    Total {
        number: u64,
        count: u64,
        value: RingValue,
    },
    Value(RingValue),
    Count(u64),
}

impl From<()> for Answer {
    ghost from_gives = { λ _ a. a ≡ Done };

    fn from(_: ()) -> Answer {
        Answer::Done
    }
}

impl From<Scalar> for Answer {
    ghost from_gives = { λ x a. a ≡ Shown x };

    fn from(scalar: Scalar) -> Answer {
        Answer::Scalar(scalar)
    }
}

impl From<Option<Scalar>> for Answer {
    ghost from_gives = { λ v a. a ≡ split_answer (Ok v) };

    fn from(value: Option<Scalar>) -> Answer {
        value.map_or(Answer::Aside, Answer::from)
    }
}

impl From<Refusal> for Answer {
    ghost from_gives = { λ e a. a ≡ Refused e };

    fn from(refusal: Refusal) -> Answer {
        Answer::Refused(refusal)
    }
}

impl From<StateFault> for Answer {
    ghost from_gives = { λ f a. a ≡ fault_answer (state_report f) };

    fn from(fault: StateFault) -> Answer {
        Answer::Fault(fault.report())
    }
}

impl From<ArchiveFault> for Answer {
    ghost from_gives = { λ f a. a ≡ fault_answer (archive_report f) };

    fn from(fault: ArchiveFault) -> Answer {
        Answer::Fault(fault.report())
    }
}

impl From<Denial<ArchiveFault>> for Answer {
    ghost from_gives = { λ d a. a ≡ denial_answer d };

    fn from(denial: Denial<ArchiveFault>) -> Answer {
        match denial {
            Denial::Fault(fault) => Answer::from(fault),
            Denial::Refused(refusal) => Answer::from(refusal),
        }
    }
}

// The answer to a call, from that to what it grants and to what denies it.
impl<T: Into<Answer>, E: Into<Answer>> From<Result<T, E>> for Answer {
    ghost from_gives = { λ r a. MatchResult r (λ x. T.converts x a) (λ e. E.converts e a) };

    fn from(res: Result<T, E>) -> Answer {
        match res {
            Ok(granted) => granted.into(),
            Err(denied) => denied.into(),
        }
    }
}

// An answer with the bytes that it shows.
#[derive(Clone, Copy)]
pub struct Reply<'a> {
    pub answer: Answer,
    pub buffer: &'a [u8],
}

const HELP: &str =
    "open STATE N | read STATE HEX | take STATE HEX I | write STATE | write STATE HEX | fields STATE | amplitude \
     STATE NUMBER | gate STATE KIND J L | project STATE TEXT | split PLACE CALLS | overlap | same | intersect | sum | \
     coordinates | total RING N | embed RING E P M | check HEX | view HEX I | host HEX HEX HEX | help; STATE: s or t; \
     RING: mod17 or quad; HEX: pairs of digits, - for none; TEXT: a sign and a letter for each qubit, or x:HEX; CALLS: \
     g:KIND:J:L and p:TEXT with ; between, - for none";

impl fmt::Display for Reply<'_> {
    ghost output = { λ x. Some (reply_text x.answer x.buffer.now) };

    fn fmt<W: fmt::Write>(&self, f: &mut fmt::Formatter<W>) -> fmt::Result {
        match self.answer {
            Answer::Help => f.write_str(HELP),
            Answer::Done => f.write_str("ok"),
            Answer::Refused(refusal) => write!(f, "{refusal}"),
            Answer::Fault(report) => write!(f, "{report}"),
            Answer::Unreadable(problem) => write!(f, "? {problem}"),
            Answer::Bytes => write!(f, "{}", HexBytes(self.buffer)),
            Answer::Length(length) => write!(f, "{length} {}", HexBytes(self.buffer)),
            Answer::Number(number) => write!(f, "{number} {}", HexBytes(self.buffer)),
            Answer::Fields(state) => write!(f, "{}", FieldsText(&state)),
            Answer::Scalar(scalar) => write!(f, "{scalar}"),
            Answer::Common(common) => write!(f, "{common}"),
            Answer::Mark(equal) => write!(f, "{}", Mark(equal)),
            Answer::Aside => f.write_str("aside"),
            Answer::Coordinates(coordinates) => write!(f, "{coordinates}"),
            Answer::Total {
                number,
                count,
                value,
            } => write!(f, "{number} {count} {value}"),
            Answer::Value(value) => write!(f, "{value}"),
            Answer::Count(count) => write!(f, "{count}"),
        }
    }
}
