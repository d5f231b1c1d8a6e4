ghost use Rattle.std.specs.Prelude.{[], ◌∷◌, IfOk, IfErr, codes};
ghost use Rattle.console.specs.Spelling.{left, parts_of, ring_word, state_word, TellsUnknown};
ghost use Rattle.console.specs.Words.{words_in, NamedBy};
ghost use Rattle.console.specs.Parts.{Spells};
ghost use Rattle.console.specs.declared.command.Operands.{Operands};

use crate::calls;
use crate::problem::Problem;
use crate::words::Words;
use circuit::call::Call;
use cyclotomic::scalar::Scalar;
use std::alloc::Global;

// The name of a state.
#[derive(Clone, Copy, Debug, PartialEq, Eq)]
pub enum Name {
    S,
    T,
}

impl TryFrom<&[u8]> for Name {
    type Error = Problem;

    ghost try_from_gives = { λ word r. NamedBy state_word word.now r };

    fn try_from(word: &[u8]) -> Result<Name, Problem> {
        match word {
            b"s" => Ok(Name::S),
            b"t" => Ok(Name::T),
            _ => Err(Problem::NoState),
        }
    }
}

// The name of a ring.
#[derive(Clone, Copy, Debug, PartialEq, Eq)]
pub enum RingName {
    Mod17,
    Quad,
}

impl TryFrom<&[u8]> for RingName {
    type Error = Problem;

    ghost try_from_gives = { λ word r. NamedBy ring_word word.now r };

    fn try_from(word: &[u8]) -> Result<RingName, Problem> {
        match word {
            b"mod17" => Ok(RingName::Mod17),
            b"quad" => Ok(RingName::Quad),
            _ => Err(Problem::NoRing),
        }
    }
}

// What a line asks for. Bytes that the line has are in the operands. Commands are told apart by cases, since each asks for another call.
#[derive(Clone, Copy)]
pub enum Command {
    Help,
    OnState(Name, StateCommand),
    Split { place: u64 },
    Overlap,
    Same,
    Intersect,
    Sum,
    Coordinates,
    Total { ring: RingName, times: u64 },
    Embed { ring: RingName, scalar: Scalar },
    Check,
    View { index: u64 },
    Host,
}

// What is asked for of one state.
#[derive(Clone, Copy)]
pub enum StateCommand {
    Open { qubits: u64 },
    Read,
    Take { index: u64 },
    Write,
    WriteInto,
    Fields,
    Amplitude { string: u64 },
    // kind, first and second qubit are the three numbers of a public call, any of which may be no gate's or qubit's
    Gate { kind: u64, first: u64, second: u64 },
    Project,
}

// The bytes of a line: what is read, in the first or in the first two, and the buffer that an answer is written into; and its calls.
// They are kept from line to line, so that only a line longer than those before allocates, and no command owns any.
#[derive(Drop)]
pub struct Operands {
    pub first: Vec<u8>,
    pub second: Vec<u8>,
    pub buffer: Vec<u8>,
    pub calls: Vec<Call>,
}

impl Operands {
    pub(crate) fn new(heap: Global) -> Operands {
        Operands {
            first: Vec::new(heap),
            second: Vec::new(heap),
            buffer: Vec::new(heap),
            calls: Vec::new(heap),
        }
    }
}

// The command of a line; its bytes go into the operands.
pub(crate) fn parse(line: &[u8], operands: &mut Operands) -> Result<Command, Problem>
    ensures spelled { IfOk result (λ c. Spells (parts_of c operands.new) (words_in line.now) []) }
    ensures unknown { IfErr result (λ p. TellsUnknown p (words_in line.now)) }
{
    let mut words = Words::new(line);
    let verb = words.word()?;
    let command = parse_rest(verb, &mut words, operands)?;
    words.end()?;
    Ok(command)
}

// The command with a first word, of the words after it. Words and operands are two parameters: a struct of them would be made for a line and
// taken apart in it.
fn parse_rest(
    verb: &[u8],
    words: &mut Words<'_>,
    operands: &mut Operands,
) -> Result<Command, Problem>
    ensures spelled { IfOk result (λ c. Spells (parts_of c operands.new) (verb.now ∷ left words.old) (left words.new)) }
    ensures unknown { IfErr result (λ p. TellsUnknown p (verb.now ∷ left words.old)) }
{
    match verb {
        b"help" => Ok(Command::Help),
        b"overlap" => Ok(Command::Overlap),
        b"same" => Ok(Command::Same),
        b"intersect" => Ok(Command::Intersect),
        b"sum" => Ok(Command::Sum),
        b"coordinates" => Ok(Command::Coordinates),
        b"split" => {
            let place = words.number()?;
            calls::read_calls(words.word()?, &mut operands.calls)?;
            Ok(Command::Split { place })
        }
        b"total" => {
            let ring = words.named()?;
            let times = words.number()?;
            Ok(Command::Total { ring, times })
        }
        b"embed" => {
            let ring = words.named()?;
            let scalar = words.scalar()?;
            Ok(Command::Embed { ring, scalar })
        }
        _ => parse_on_state(verb, words, operands),
    }
}

// The same, of a command on a state or on bytes.
fn parse_on_state(
    verb: &[u8],
    words: &mut Words<'_>,
    operands: &mut Operands,
) -> Result<Command, Problem>
    ensures spelled { IfOk result (λ c. Spells (parts_of c operands.new) (verb.now ∷ left words.old) (left words.new)) }
    ensures unknown { IfErr result (λ p. TellsUnknown p (verb.now ∷ left words.old)) }
{
    match verb {
        b"open" => {
            let name = words.named()?;
            let qubits = words.number()?;
            Ok(Command::OnState(name, StateCommand::Open { qubits }))
        }
        b"fields" => Ok(Command::OnState(words.named()?, StateCommand::Fields)),
        b"amplitude" => {
            let name = words.named()?;
            let string = words.number()?;
            Ok(Command::OnState(name, StateCommand::Amplitude { string }))
        }
        b"gate" => parse_gate(words),
        b"project" => {
            let name = words.named()?;
            calls::read_text(words.word()?, &mut operands.first)?;
            Ok(Command::OnState(name, StateCommand::Project))
        }
        b"read" => {
            let name = words.named()?;
            words.bytes(&mut operands.first)?;
            Ok(Command::OnState(name, StateCommand::Read))
        }
        b"take" => parse_take(words, operands),
        b"write" => parse_write(words, operands),
        _ => parse_bytes(verb, words, operands),
    }
}

fn parse_gate(words: &mut Words<'_>) -> Result<Command, Problem>
    ensures { (o : Operands) → IfOk result (λ c. Spells (parts_of c o) (codes "gate" ∷ left words.old) (left words.new)) }
{
    let name = words.named()?;
    let kind = words.number()?;
    let first = words.number()?;
    let second = words.number()?;
    let gate = StateCommand::Gate {
        kind,
        first,
        second,
    };
    Ok(Command::OnState(name, gate))
}

fn parse_take(words: &mut Words<'_>, operands: &mut Operands) -> Result<Command, Problem>
    ensures { IfOk result (λ c. Spells (parts_of c operands.new) (codes "take" ∷ left words.old) (left words.new)) }
{
    let name = words.named()?;
    words.bytes(&mut operands.first)?;
    let index = words.number()?;
    Ok(Command::OnState(name, StateCommand::Take { index }))
}

fn parse_write(words: &mut Words<'_>, operands: &mut Operands) -> Result<Command, Problem>
    ensures { IfOk result (λ c. Spells (parts_of c operands.new) (codes "write" ∷ left words.old) (left words.new)) }
{
    let name = words.named()?;
    if words.is_empty() {
        return Ok(Command::OnState(name, StateCommand::Write));
    }
    words.bytes(&mut operands.buffer)?;
    Ok(Command::OnState(name, StateCommand::WriteInto))
}

// The same, of a command on bytes alone.
fn parse_bytes(
    verb: &[u8],
    words: &mut Words<'_>,
    operands: &mut Operands,
) -> Result<Command, Problem>
    ensures spelled { IfOk result (λ c. Spells (parts_of c operands.new) (verb.now ∷ left words.old) (left words.new)) }
    ensures unknown { IfErr result (λ p. TellsUnknown p (verb.now ∷ left words.old)) }
{
    match verb {
        b"check" => {
            words.bytes(&mut operands.first)?;
            Ok(Command::Check)
        }
        b"view" => {
            words.bytes(&mut operands.first)?;
            let index = words.number()?;
            Ok(Command::View { index })
        }
        b"host" => {
            words.bytes(&mut operands.first)?;
            words.bytes(&mut operands.second)?;
            words.bytes(&mut operands.buffer)?;
            Ok(Command::Host)
        }
        _ => Err(Problem::UnknownCommand),
    }
}
