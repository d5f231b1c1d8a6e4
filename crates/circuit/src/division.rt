ghost use Rattle.std.specs.Prelude.{◌≡◌, map, ◌==◌};
ghost use Rattle.std.specs.Iterator.{IsFinite};
ghost use Rattle.cyclotomic.specs.Refusals.{answer_of};
ghost use Rattle.stabilizer.specs.Calls.{Call as Ideal};
ghost use Rattle.stabilizer.specs.Overlaps.{sizes_number};
ghost use Rattle.circuit.specs.Made.{call_of};
ghost use Rattle.circuit.specs.Runs.{OneValue};
ghost use Rattle.circuit.specs.Splits.{Made, MakesAs, Divided, Divides, gravest};
ghost use Rattle.circuit.specs.declared.call.Call.{Call as Held};

use crate::call::Call;
use cyclotomic::refusal::Refusal;
use cyclotomic::scalar::Scalar;
use stabilizer::overlap::overlap;
use stabilizer::state::StabilizerState;

// The gravest refusal of a projection that a run has met.
#[derive(Clone, Copy, PartialEq, Eq, PartialOrd, Ord)]
pub(crate) enum Met {
    Neither,
    Impossible,
    Exhausted,
}

impl From<Result<(), Refusal>> for Met {
    ghost from_gives = { λ answer met. met ≡ gravest (answer_of answer == 21) (answer_of answer == 22) };

    fn from(answer: Result<(), Refusal>) -> Met {
        match answer {
            Err(Refusal::Impossible) => Met::Impossible,
            Err(Refusal::Exhausted) => Met::Exhausted,
            _ => Met::Neither,
        }
    }
}

// Divides the calls at a place: s gets those before it, and t the others, from the last to the first and inverted. A place past the
// end counts as the end. It comes to the overlap, or 0 where a projection was impossible; to nothing where a projection found the weight
// exhausted, so that the division does not count.
pub fn split(
    s: &StabilizerState,
    t: &StabilizerState,
    calls: &[Call],
    place: u64,
) -> Result<Option<Scalar>, Refusal>
    ensures number { answer_of result ≡ sizes_number t.now s.now }
    ensures value { Divided result (map call_of calls.now) place s.now t.now }
    ensures one_value { t.now.qubits ≡ s.now.qubits → OneValue (map call_of calls.now) s.now t.now }
{
    if t.qubits() != s.qubits() {
        return Err(Refusal::Sizes);
    }
    let mut left = *s;
    let mut right = *t;
    match divide(&mut left, &mut right, calls, place) {
        Met::Exhausted => Ok(None),
        Met::Impossible => Ok(Some(Scalar::zero())),
        Met::Neither => Ok(Some(overlap(&right, &left)?)),
    }
}

// Makes the calls before the place on s, and the inverses of the others, from the last to the first, on t.
fn divide(s: &mut StabilizerState, t: &mut StabilizerState, calls: &[Call], place: u64) -> Met
    ensures { Divides (map call_of calls.now) place s.old t.old result s.new t.new }
{
    let (before, after) = calls.split_at(place.min(calls.len() as u64) as usize);
    let first = run(s, before.iter(), Call::make);
    let second = run(t, after.iter().rev(), Call::make_inverse);
    first.max(second)
}

// Makes the calls one after another, each as `make` does.
fn run<'a, I, F>(state: &mut StabilizerState, calls: I, make: F) -> Met
where
    I: Iterator<Item = &'a Call>,
    F: Fn(&Call, &mut StabilizerState) -> Result<(), Refusal>,
    requires can { I.can_next calls }
    requires ends { IsFinite (I.remaining calls) }
    requires callable { F.IsAlwaysCallable make }
    ensures { (ideal : Held → Ideal) → MakesAs (F.post make) ideal → Made I.next_gives ideal calls state.old result state.new }
{
    let mut met = Met::Neither;
    for call in calls {
        met = met.max(Met::from(make(call, state)));
    }
    met
}
