// The state that stands in bits without a fault.
ghost use Rattle.std.specs.Prelude.{◌≡◌, ◌+◌, ◌*◌, ◌^◌, ◌<◌, ◌≤◌, None};
ghost use Rattle.quadratic.specs.Bits.{bit, flag};
ghost use Rattle.archive.specs.Coefficients.{LinearGrown, CouplingGrown};
ghost use Rattle.archive.specs.Held.{Sound, Holds};
ghost use Rattle.archive.specs.Layout.{state_fault};

use crate::bits::bits_at;
use crate::pivots::Pivots;
use crate::shape::{
    DIMENSION_PLACE, DIMENSION_WIDTH, LINEAR_WIDTH, PHASE_PLACE, PHASE_WIDTH, QUBITS_WIDTH, Shape,
    WEIGHT_PLACE, WEIGHT_WIDTH,
};
use quadratic::phased::PhasedSpace;
use stabilizer::state::StabilizerState;

// The bits of a state without a fault, from the start on.
#[derive(Clone, Copy)]
struct StateBits<'a> {
    bytes: &'a [u8],
    start: usize,
    shape: Shape,
    ghost near: { start ≤ 2 ^ 31 },
    ghost sound: { Sound bytes.now start shape.n shape.k },
}

// Adds twice a value to the linear coefficient of the row with the pivot p.
fn add_linear(body: &mut PhasedSpace, p: usize, value: u64)
    requires pivot { bit body.old.space.pivots p ≡ 1 }
    requires few { value < 4 }
    ensures { LinearGrown body.old body.new p value }
{
    let _ = body.add_linear(p, 2 * value);
}

// Couples the rows with the pivots p and q.
fn add_coupling(body: &mut PhasedSpace, p: usize, q: usize)
    requires pivot { bit body.old.space.pivots p ≡ 1 }
    requires later { bit body.old.space.pivots q ≡ 1 }
    requires order { q < p }
    ensures { CouplingGrown body.old body.new p q 1 }
{
    let _ = body.couple(p, q);
}

// The fields of the state.
impl StateBits<'_> {
    ghost use Rattle.archive.specs.StateBits.{loss_in, phase_in, row_in, shift_in, linear_in, coupling_in};

    fn loss(&self) -> u64
        ensures { result ≡ loss_in self.now }
    {
        bits_at(self.bytes, self.start + WEIGHT_PLACE, WEIGHT_WIDTH)
    }

    fn phase(&self) -> u64
        ensures { result ≡ phase_in self.now }
    {
        bits_at(self.bytes, self.start + PHASE_PLACE, PHASE_WIDTH)
    }

    fn row(&self, a: usize) -> u64
        requires { a < self.now.shape.k }
        ensures { result ≡ row_in self.now a }
    {
        bits_at(self.bytes, self.start + self.shape.row(a), self.shape.n)
    }

    fn shift(&self) -> u64
        ensures { result ≡ shift_in self.now }
    {
        bits_at(self.bytes, self.start + self.shape.shift(), self.shape.n)
    }

    // Half the linear coefficient of row a.
    fn linear(&self, a: usize) -> u64
        requires { a < self.now.shape.k }
        ensures { result ≡ linear_in self.now a }
    {
        bits_at(self.bytes, self.start + self.shape.linear(a), LINEAR_WIDTH)
    }

    // Whether row a is coupled to the later row c.
    fn coupling(&self, a: usize, c: usize) -> bool
        requires order { a < c }
        requires inside { c < self.now.shape.k }
        ensures { flag result ≡ coupling_in self.now a c }
    {
        let first = self.start + self.shape.coupling(a);
        bits_at(self.bytes, first + (c - a - 1), 1) == 1
    }
}

// The state, from its fields.
impl StateBits<'_> {
    ghost use Rattle.quadratic.specs.Building.{Begun};
    ghost use Rattle.archive.specs.StateBits.{SpansIn, WeighsIn, RaisedIn, ListedIn, OnPivotsIn, LinearIn, RowIn, CouplingIn};

    // Adds the rows to a space of one string, and answers their pivots.
    fn add_rows(&self, body: &mut PhasedSpace) -> Pivots
        requires { Begun body.old body.old.form.phase }
        ensures raised { RaisedIn self.now self.now.shape.k body.new }
        ensures listed { ListedIn self.now self.now.shape.k result.items }
        ensures same { body.new.form ≡ body.old.form }
    {
        let mut pivots = Pivots::new();
        // by row numbers, which tell the places of the rows in the bits: there is no slice of rows to go over
        for a in 0..self.shape.k {
            let Some(pivot) = body.append_row(self.row(a)) else {
                unreachable()
            };
            pivots.push(pivot);
        }
        pivots
    }

    // Gives a space of one string the rows and the shift, and answers the pivots.
    fn add_space(&self, body: &mut PhasedSpace) -> Pivots
        requires { Begun body.old body.old.form.phase }
        ensures spans { SpansIn self.now body.new }
        ensures pivots { OnPivotsIn self.now body.new }
        ensures listed { ListedIn self.now self.now.shape.k result.items }
        ensures same { body.new.form ≡ body.old.form }
    {
        let pivots = self.add_rows(body);
        let _ = body.set_shift(self.shift());
        pivots
    }

    // Sets the linear coefficients of all rows, which are 0 at first.
    fn add_linear(&self, pivots: &[usize], body: &mut PhasedSpace)
        requires listed { ListedIn self.now self.now.shape.k pivots.now }
        requires pivots { OnPivotsIn self.now body.old }
        requires blank { LinearIn self.now 0 body.old body.old }
        ensures { LinearIn self.now self.now.shape.k body.old body.new }
    {
        for (a, &p) in pivots.iter().enumerate() {
            add_linear(body, p, self.linear(a));
        }
    }

    // Sets the couplings of row a with later rows, which are 0 at first.
    fn add_couplings_of(&self, pivots: &[usize], a: usize, body: &mut PhasedSpace)
        requires listed { ListedIn self.now self.now.shape.k pivots.now }
        requires pivots { OnPivotsIn self.now body.old }
        requires row { a < self.now.shape.k }
        requires blank { RowIn self.now a (a + 1) body.old body.old }
        ensures { RowIn self.now a self.now.shape.k body.old body.new }
    {
        // by row numbers, which tell the place of a coupling: pivots with their numbers would be no shorter
        for c in a + 1..self.shape.k {
            if self.coupling(a, c) {
                add_coupling(body, pivots[a], pivots[c]);
            }
        }
    }

    // Sets the couplings of all rows, which are 0 at first.
    fn add_couplings(&self, pivots: &[usize], body: &mut PhasedSpace)
        requires listed { ListedIn self.now self.now.shape.k pivots.now }
        requires pivots { OnPivotsIn self.now body.old }
        requires blank { CouplingIn self.now 0 body.old body.old }
        ensures { CouplingIn self.now self.now.shape.k body.old body.new }
    {
        // by row numbers, for the same reason
        for a in 0..self.shape.k {
            self.add_couplings_of(pivots, a, body);
        }
    }

    // The space with its phases.
    fn body(&self) -> PhasedSpace
        ensures spans { SpansIn self.now result }
        ensures weighs { WeighsIn self.now result }
    {
        let mut body = PhasedSpace::origin(self.phase());
        let pivots = self.add_space(&mut body);
        self.add_linear(pivots.as_slice(), &mut body);
        self.add_couplings(pivots.as_slice(), &mut body);
        body
    }
}

// The state whose bits begin at a place and have no fault.
pub(crate) fn build(bytes: &[u8], start: usize) -> StabilizerState
    requires near { start ≤ 2 ^ 31 }
    requires sound { state_fault bytes.now start ≡ None }
    ensures { Holds bytes.now start result }
{
    let n = bits_at(bytes, start, QUBITS_WIDTH);
    let k = bits_at(bytes, start + DIMENSION_PLACE, DIMENSION_WIDTH);
    let shape = Shape {
        n: n as usize,
        k: k as usize,
    };
    let bits = StateBits {
        bytes,
        start,
        shape,
    };
    let Some(state) = StabilizerState::assemble(n, bits.loss(), bits.body()) else {
        unreachable()
    };
    state
}
