ghost use Rattle.std.specs.Prelude.{◌≡◌, OnOk, OnErr, ℕ, ◌+◌, ◌*◌, ◌%◌, ◌^◌, ◌<◌, ◌≤◌, T, ℤ, pos, neg_ℤ, count_ones};
ghost use Rattle.cyclotomic.specs.Refusals.{answer_of};
ghost use Rattle.quadratic.specs.Fields.{row_of, linear_of, coupling_of};
ghost use Rattle.stabilizer.specs.Overlaps.{depth as depth_of};
ghost use Rattle.stabilizer.specs.States.{Opened, open_number, Assembled, amplitude_number, AmplitudeAt, SameState};

use super::StabilizerState;
use cyclotomic::refusal::Refusal;
use cyclotomic::scalar::Scalar;
use quadratic::phased::PhasedSpace;

impl StabilizerState {
    // The built-in state: one qubit, amplitude 1 at the string 0.
    pub fn new() -> StabilizerState
        ensures { Opened result 1 }
    {
        StabilizerState {
            qubits: 1,
            loss: 0,
            body: PhasedSpace::origin(0),
        }
    }

    // The state of n qubits with amplitude 1 at the string of zeros.
    pub fn open(&mut self, n: u64) -> Result<(), Refusal>
        ensures number { answer_of result ≡ open_number n }
        ensures granted { OnOk result (Opened self.new n) }
        ensures refused { OnErr result (self.new ≡ self.old) }
    {
        if n < 1 || n > 48 {
            return Err(Refusal::Qubits);
        }
        *self = StabilizerState {
            qubits: n,
            loss: 0,
            body: PhasedSpace::origin(0),
        };
        Ok(())
    }

    // The state with these parts, if it is one.
    pub fn assemble(qubits: u64, loss: u64, body: PhasedSpace) -> Option<StabilizerState>
        ensures { Assembled result qubits loss body }
    {
        if qubits < 1 || qubits > 48 || loss > 4096 {
            return None;
        }
        let end: u64 = 1 << qubits;
        if body.pivots() >= end || body.shift() >= end {
            return None;
        }
        Some(StabilizerState { qubits, loss, body })
    }

    pub fn qubits(&self) -> u64
        ensures { result ≡ self.now.qubits }
    {
        self.qubits
    }

    pub fn dimension(&self) -> u64
        ensures { result ≡ count_ones self.now.body.space.pivots }
    {
        self.body.dimension()
    }

    // The weight e, the logarithm to base 2 of the squared norm.
    pub fn weight(&self) -> i64
        ensures { result ≡ neg_ℤ (pos self.now.loss) }
    {
        -(self.loss as i64)
    }

    // The weight without its sign.
    pub fn loss(&self) -> u64
        ensures { result ≡ self.now.loss }
    {
        self.loss
    }

    // The weight without its sign and the dimension together: every amplitude that is not 0 has this power of √2 below it.
    pub fn depth(&self) -> u64
        ensures value { result ≡ depth_of self.now }
        ensures bound { result ≤ 4144 }
    {
        self.dimension() + self.loss
    }

    pub fn phase(&self) -> u64
        ensures { result ≡ self.now.body.form.phase }
    {
        self.body.phase()
    }

    pub fn shift(&self) -> u64
        ensures { result ≡ self.now.body.space.shift }
    {
        self.body.shift()
    }

    // Row a, counted from 1 at the highest pivot.
    pub fn row(&self, a: u64) -> Option<u64>
        ensures { result ≡ row_of self.now.body a }
    {
        self.body.row(a)
    }

    // The linear coefficient of row a.
    pub fn linear(&self, a: u64) -> Option<u64>
        ensures { result ≡ linear_of self.now.body a }
    {
        self.body.linear(a)
    }

    // The coupling of rows a and b.
    pub fn coupling(&self, a: u64, b: u64) -> Option<u64>
        ensures { result ≡ coupling_of self.now.body a b }
    {
        self.body.coupling(a, b)
    }

    // The strings with their phases.
    pub fn body(&self) -> &PhasedSpace
        ensures { result.now ≡ self.now.body }
    {
        &self.body
    }

    // The amplitude at a string, given as a number with qubit 1 as its highest bit.
    pub fn amplitude(&self, string: u64) -> Result<Scalar, Refusal>
        ensures number { answer_of result ≡ amplitude_number self.now string }
        ensures value { AmplitudeAt result self.now string }
    {
        if string >> self.qubits != 0 {
            return Err(Refusal::StringNumber);
        }
        let Some(phase) = self.body.phase_at(string) else {
            return Ok(Scalar::zero());
        };
        Ok(Scalar::term(-(self.depth() as i64), phase as u64))
    }

    // Whether two states have the same number of qubits and the same amplitudes.
    pub fn same(&self, other: &StabilizerState) -> bool
        ensures sound { T result → SameState self.now other.now }
        ensures complete { SameState self.now other.now → T result }
    {
        // not self == other: there the proof lacks the lengths of the arrays that the body holds
        (self.qubits, self.loss) == (other.qubits, other.loss) && self.body.same(&other.body)
    }
}
