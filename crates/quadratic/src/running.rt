ghost use Rattle.std.specs.Prelude.{◌≡◌, OnOk, OnErr, ℕ, ◌+◌, ◌<◌, ◌≤◌};
ghost use Rattle.cyclotomic.specs.Refusals.{answer_of};
ghost use Rattle.quadratic.specs.Meets.{strings_in};
ghost use Rattle.cyclotomic.specs.Sum.{sum_to};
ghost use Rattle.quadratic.specs.Running.{add_number, added_count, last_number, term_in};
ghost use Rattle.quadratic.specs.Sums.{total as total_of, IsSum};
ghost use Rattle.cyclotomic.specs.Scalars.{triple_of, embedded};
ghost use Rattle.cyclotomic.specs.declared.scalar.Scalar.{Scalar};

use crate::intersection::Intersection;
use crate::sum::exponential_sum;
use cyclotomic::embedding::{embed, power};
use cyclotomic::refusal::Refusal;
use cyclotomic::ring::Ring;

// The sum of omega^value over the strings of an intersection that have been added so far, in a ring.
#[derive(Clone, Copy)]
pub struct RunningSum<R> {
    value: R,
    count: u64,
}

impl<R: Ring> RunningSum<R> {
    // No string added yet.
    pub fn new() -> RunningSum<R>
        ensures value { R.value result.value ≡ R.ops.nil }
        ensures count { result.count ≡ 0 }
    {
        RunningSum {
            value: R::zero(),
            count: 0,
        }
    }

    // Adds the string that the count numbers: row a is in string c when bit a - 1 of c is 1.
    pub fn add(&mut self, x: &Intersection) -> Result<(), Refusal>
        ensures number { answer_of result ≡ add_number self.old.count x.now }
        ensures count { OnOk result (self.new.count ≡ self.old.count + 1) }
        ensures value { OnOk result (R.value self.new.value ≡ R.ops.plus (R.value self.old.value) (term_in R.ops x.now self.old.count)) }
        ensures refused { OnErr result (self.new ≡ self.old) }
    {
        let s = x.space.as_ref().ok_or(Refusal::Finished)?;
        if self.count >= s.strings() {
            return Err(Refusal::Finished);
        }
        let term: R = power(R::omega(), s.numbered_value(self.count));
        *self = RunningSum {
            value: self.value.plus(term),
            count: self.count + 1,
        };
        Ok(())
    }

    pub fn value(&self) -> R
        ensures { result ≡ self.now.value }
    {
        self.value
    }

    pub fn count(&self) -> u64
        ensures { result ≡ self.now.count }
    {
        self.count
    }
}

// A fresh running sum that is handed an intersection so many times, and its last answer. A sum that has refused once goes on to refuse,
// so the first refusal ends the calls. Once every string has been added, the value is that of the exponential sum.
pub fn added<R: Ring>(x: &Intersection, times: u64) -> (RunningSum<R>, Result<(), Refusal>)
    ensures count { result.0.count ≡ added_count times x.now }
    ensures value { R.value result.0.value ≡ sum_to R.ops (term_in R.ops x.now) result.0.count }
    ensures number { answer_of result.1 ≡ last_number times x.now }
    ensures closed { (e : Scalar) → IsSum x.now e → strings_in x.now ≤ times → R.value result.0.value ≡ embedded R.ops (triple_of e) }
{
    let mut sum = RunningSum::new();
    for _ in 0..times {
        if let Err(refusal) = sum.add(x) {
            return (sum, Err(refusal));
        }
    }
    (sum, Ok(()))
}

// The running sum to which every string of the intersection has been added.
pub fn total<R: Ring>(x: &Intersection) -> RunningSum<R>
    ensures value { R.value result.value ≡ total_of R.ops x.now }
    ensures count { result.count ≡ strings_in x.now }
{
    let (sum, _) = added(x, u64::MAX);
    sum
}

// The same sum by its closed form: the scalar of the exponential sum, embedded in the ring.
pub fn closed_form<R: Ring>(x: &Intersection) -> R
    ensures { R.value result ≡ total_of R.ops x.now }
{
    embed(exponential_sum(x)).unwrap()
}
