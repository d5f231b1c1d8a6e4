ghost use Rattle.std.specs.Prelude.{◌≡◌, IfOk, OnErr};
ghost use Rattle.std.specs.Borrow.{sem};
ghost use Rattle.console.specs.Lending.{LendsState};
ghost use Rattle.console.specs.Sessions.{state_of, Fresh, Looks, LooksAt, Leaves, Ran, RanOn};
ghost use Rattle.console.specs.Answers.{Denies};
ghost use Rattle.console.specs.Commands.{Writes, WritesInto};
ghost use Rattle.console.specs.Commands.{ShowsTotal, ShowsTotalIn, Embeds, EmbedsIn, Checks, Views};

use crate::answer::{Answer, Common, RingValue};
use crate::command::{Command, Name, Operands, RingName, StateCommand};
use archive::{codec, container};
use circuit::division::split;
use cyclotomic::embedding::embed;
use cyclotomic::mod17::Mod17;
use cyclotomic::quads::Cyclotomic64;
use cyclotomic::refusal::Refusal;
use cyclotomic::ring::Ring;
use cyclotomic::scalar::Scalar;
use quadratic::coordinates::exact_coordinates;
use quadratic::intersection::Intersection;
use quadratic::running::added;
use quadratic::sum::exponential_sum;
use stabilizer::overlap::{intersect, overlap};
use stabilizer::state::StabilizerState;
use std::alloc::AllocError;

// The bytes of the longest state.
const LONGEST: usize = 451;

// What the console keeps from line to line: two states, and the last intersection.
#[derive(Clone, Copy)]
pub struct Session {
    s: StabilizerState,
    t: StabilizerState,
    last: Intersection,
}

impl Session {
    // Two built-in states, and the empty intersection.
    pub(crate) fn new() -> Session
        ensures { Fresh result }
    {
        Session {
            s: StabilizerState::new(),
            t: StabilizerState::new(),
            last: Intersection { space: None },
        }
    }

    // Does what a command asks for. That a denial changes nothing (`kept`) is handed on from `run_on` and `intersect`, and is the promise.
    pub(crate) fn run(
        &mut self,
        command: Command,
        operands: &mut Operands,
    ) -> Result<Answer, AllocError>
        ensures kept { IfOk result (λ a. Denies a → self.new ≡ self.old) }
        ensures looks { Looks command → self.new ≡ self.old }
        ensures ran { IfOk result (λ a. Ran command operands.old self.old a operands.new self.new) }
        ensures memory { OnErr result (self.new ≡ self.old) }
    {
        match command {
            Command::Help => Ok(Answer::Help),
            Command::OnState(name, command) => run_on(self.named_mut(name), command, operands),
            Command::Split { place } => Ok(Answer::from(split(
                &self.s,
                &self.t,
                &operands.calls,
                place,
            ))),
            Command::Overlap => Ok(Answer::from(overlap(&self.t, &self.s))),
            Command::Same => Ok(Answer::Mark(self.t.same(&self.s))),
            Command::Intersect => Ok(self.intersect()),
            Command::Sum => Ok(Answer::Scalar(exponential_sum(&self.last))),
            Command::Coordinates => Ok(Answer::Coordinates(exact_coordinates(&self.last))),
            Command::Total { ring, times } => Ok(total(&self.last, ring, times)),
            Command::Embed { ring, scalar } => Ok(embedded(ring, scalar)),
            Command::Check => Ok(check(&operands.first)),
            Command::View { index } => view(&operands.first, index, &mut operands.buffer),
            Command::Host => Ok(Answer::Number(host::overlap(
                &operands.first,
                &operands.second,
                &mut operands.buffer,
            ))),
        }
    }

    // The state with a name, to be changed: it is put back in its place.
    fn named_mut(&mut self, name: Name) -> &mut StabilizerState
        ensures* lent { sem 𝓛 (LendsState self.entry name result) }
        ensures value { result.now ≡ state_of self.old name }
    {
        match name {
            Name::S => &mut self.s,
            Name::T => &mut self.t,
        }
    }

    // `run` hands the answer on, and `kept` with it: the clause is the promise.
    fn intersect(&mut self) -> Answer
        ensures kept { Denies result → self.new ≡ self.old }
        ensures shared { Leaves self.old result self.new }
    {
        match intersect(&mut self.last, &self.t, &self.s) {
            Ok(()) => Answer::Common(Common {
                both: self.last,
                qubits: self.t.qubits(),
            }),
            Err(refusal) => Answer::from(refusal),
        }
    }
}

// Does what a command asks for of a state. `run` hands the answer on, and `kept` with it: the clause is the promise.
fn run_on(
    state: &mut StabilizerState,
    command: StateCommand,
    operands: &mut Operands,
) -> Result<Answer, AllocError>
    ensures kept { IfOk result (λ a. Denies a → state.new ≡ state.old) }
    ensures looks { LooksAt command → state.new ≡ state.old }
    ensures ran { IfOk result (λ a. RanOn command operands.old state.old a operands.new state.new) }
    ensures memory { OnErr result (state.new ≡ state.old) }
{
    match command {
        StateCommand::Open { qubits } => Ok(Answer::from(state.open(qubits))),
        StateCommand::Read => Ok(Answer::from(codec::read(state, &operands.first))),
        StateCommand::Take { index } => {
            let taken = container::take(state, &operands.first, index);
            Ok(Answer::from(taken))
        }
        StateCommand::Write => write(state, &mut operands.buffer),
        StateCommand::WriteInto => Ok(write_into(state, &mut operands.buffer)),
        StateCommand::Fields => Ok(Answer::Fields(*state)),
        StateCommand::Amplitude { string } => Ok(Answer::from(state.amplitude(string))),
        StateCommand::Gate {
            kind,
            first,
            second,
        } => Ok(Answer::from(state.gate(kind, first, second))),
        StateCommand::Project => Ok(Answer::from(state.project(&operands.first))),
    }
}

// Puts the bytes of a state into the buffer, and nothing else.
fn write(state: &StabilizerState, buffer: &mut Vec<u8>) -> Result<Answer, AllocError>
    ensures { IfOk result (λ a. Writes state.now a buffer.new.items) }
{
    buffer.clear();
    buffer.resize(LONGEST, 0)?;
    match codec::write(state, buffer) {
        Ok(length) => {
            buffer.truncate(length);
            Ok(Answer::Bytes)
        }
        Err(refusal) => Ok(Answer::from(refusal)),
    }
}

fn write_into(state: &StabilizerState, buffer: &mut [u8]) -> Answer
    ensures { WritesInto state.now result buffer.old buffer.new }
{
    codec::write(state, buffer).map_or_else(Answer::from, Answer::Length)
}

fn check(archive: &[u8]) -> Answer
    ensures { Checks archive.now result }
{
    container::check(archive).map_or_else(Answer::from, Answer::Count)
}

// Puts the part of an archive into the buffer.
fn view(archive: &[u8], index: u64, buffer: &mut Vec<u8>) -> Result<Answer, AllocError>
    ensures { IfOk result (λ a. Views archive.now index a buffer.new.items) }
{
    match container::view(archive, index) {
        Ok(part) => {
            buffer.clear();
            buffer.extend_from_slice(part)?;
            Ok(Answer::Bytes)
        }
        Err(denial) => Ok(Answer::from(denial)),
    }
}

// A fresh running sum in a ring that is handed an intersection so many times.
fn total(x: &Intersection, ring: RingName, times: u64) -> Answer
    ensures { ShowsTotal ring times x.now result }
{
    match ring {
        RingName::Mod17 => total_in::<Mod17>(x, times),
        RingName::Quad => total_in::<Cyclotomic64>(x, times),
    }
}

fn total_in<R: Ring + Into<RingValue>>(x: &Intersection, times: u64) -> Answer
    ensures { ShowsTotalIn R.converts R.value R.ops times x.now result }
{
    let (sum, last) = added::<R>(x, times);
    Answer::Total {
        number: last.map_or_else(Refusal::number, |()| 0),
        count: sum.count(),
        value: sum.value().into(),
    }
}

// The scalar in a ring.
fn embedded(ring: RingName, scalar: Scalar) -> Answer
    ensures { Embeds ring scalar result }
{
    match ring {
        RingName::Mod17 => embedded_in::<Mod17>(scalar),
        RingName::Quad => embedded_in::<Cyclotomic64>(scalar),
    }
}

fn embedded_in<R: Ring + Into<RingValue>>(scalar: Scalar) -> Answer
    ensures { EmbedsIn R.converts R.value R.ops scalar result }
{
    match embed::<R>(scalar) {
        Ok(value) => Answer::Value(value.into()),
        Err(refusal) => Answer::from(refusal),
    }
}
