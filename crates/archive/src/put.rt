// The fields of a state, put into a buffer one after another.
ghost use Rattle.std.specs.Prelude.{◌≡◌, ℕ, suc, ◌+◌, ◌*◌, ◌^◌, ◌<◌, ◌≤◌, length, count_ones, slice_index};
ghost use Rattle.quadratic.specs.Bits.{bit};
ghost use Rattle.archive.specs.Bits.{bits_from, Framed};
ghost use Rattle.archive.specs.Writes.{Falling};

use crate::bits::put_bits;
use crate::pivots::{Pivots, pivots_of};
use crate::shape::{
    DIMENSION_PLACE, DIMENSION_WIDTH, LINEAR_WIDTH, MOST_QUBITS, PHASE_PLACE, PHASE_WIDTH,
    QUBITS_WIDTH, ROWS_PLACE, Shape, WEIGHT_PLACE, WEIGHT_WIDTH,
};
use stabilizer::state::StabilizerState;

// A state that is written, with its pivots.
#[derive(Drop)]
pub(crate) struct StateFields<'a> {
    state: &'a StabilizerState,
    shape: Shape,
    pivots: Pivots,
    ghost size: { shape.n ≡ state.now.qubits },
    ghost rank: { shape.k ≡ length pivots.items },
    ghost on: { (a : ℕ) → a < shape.k → bit state.now.body.space.pivots (slice_index pivots.items a) ≡ 1 },
}

// Puts what a function gives at each of the pivots, numbers of one width, one after another.
fn put_each<F: Fn(usize) -> u64>(
    buffer: &mut [u8],
    at: usize,
    width: usize,
    pivots: &[usize],
    value: F,
)
    requires callable { F.IsAlwaysCallable value }
    requires few { length pivots.now ≤ MOST_QUBITS }
    requires narrow { width ≤ 64 }
    requires near { at ≤ 2 ^ 31 }
    requires room { at + length pivots.now * width ≤ 8 * length buffer.old }
    requires fits { (j v : ℕ) → j < length pivots.now → F.post value (slice_index pivots.now j) v → v < 2 ^ width }
    ensures there { (j : ℕ) → j < length pivots.now
        → F.post value (slice_index pivots.now j) (bits_from buffer.new (at + j * width) width) }
    ensures framed { Framed buffer.old buffer.new at (at + length pivots.now * width) }
{
    for (j, &p) in pivots.iter().enumerate() {
        put_bits(buffer, at + j * width, width, value(p));
    }
}

impl StateFields<'_> {
    ghost use Rattle.archive.specs.Layout.{padded, padding};
    ghost use Rattle.archive.specs.StateFields.{linear_from, coupling_from, bits_of};
    ghost use Rattle.archive.specs.StateFields.{HeaderIn, RowsIn, LinearIn, CouplingsOfIn, CouplingsIn, FormIn};

    pub(crate) fn of(state: &StabilizerState) -> StateFields<'_>
        ensures same { result.state.now ≡ state.now }
        ensures pivots { Falling state.now.body.space.pivots (count_ones state.now.body.space.pivots) result.pivots.items }
    {
        let pivots = pivots_of(state.body().pivots());
        let shape = Shape {
            n: state.qubits() as usize,
            k: pivots.len(),
        };
        StateFields {
            state,
            shape,
            pivots,
        }
    }

    // How many bits the fields take before the fill.
    pub(crate) fn bit_count(&self) -> usize
        ensures count { result ≡ bits_of self.now }
        ensures most { result ≤ 3604 }
        ensures least { ROWS_PLACE + self.now.shape.n ≤ result }
    {
        self.shape.bit_count()
    }

    // Puts the fields before the rows.
    fn put_header(&self, buffer: &mut [u8])
        requires room { 4 ≤ length buffer.old }
        ensures put { HeaderIn self.now buffer.new }
        ensures framed { Framed buffer.old buffer.new 0 ROWS_PLACE }
    {
        put_bits(buffer, 0, QUBITS_WIDTH, self.shape.n as u64);
        put_bits(
            buffer,
            DIMENSION_PLACE,
            DIMENSION_WIDTH,
            self.shape.k as u64,
        );
        put_bits(buffer, WEIGHT_PLACE, WEIGHT_WIDTH, self.state.loss());
        put_bits(buffer, PHASE_PLACE, PHASE_WIDTH, self.state.body().phase());
    }

    // Puts the rows and the shift.
    fn put_rows(&self, buffer: &mut [u8])
        requires room { linear_from self.now 0 ≤ 8 * length buffer.old }
        ensures put { RowsIn self.now buffer.new }
        ensures framed { Framed buffer.old buffer.new ROWS_PLACE (linear_from self.now 0) }
    {
        let n = self.shape.n;
        let body = self.state.body();
        put_each(
            buffer,
            self.shape.row(0),
            n,
            &self.pivots,
            |p| body.row_at(p),
        );
        put_bits(buffer, self.shape.shift(), n, body.shift());
    }

    // Puts the linear coefficients.
    fn put_linear(&self, buffer: &mut [u8])
        requires room { linear_from self.now self.now.shape.k ≤ 8 * length buffer.old }
        ensures there { LinearIn self.now buffer.new }
        ensures framed { Framed buffer.old buffer.new (linear_from self.now 0) (linear_from self.now self.now.shape.k) }
    {
        let body = self.state.body();
        put_each(
            buffer,
            self.shape.linear(0),
            LINEAR_WIDTH,
            &self.pivots,
            |p| body.linear_at(p) / 2,
        );
    }

    // Puts the couplings of row a with later rows.
    fn put_couplings_of(&self, a: usize, buffer: &mut [u8])
        requires row { a < self.now.shape.k }
        requires room { bits_of self.now ≤ 8 * length buffer.old }
        ensures there { CouplingsOfIn self.now a buffer.new }
        ensures framed { Framed buffer.old buffer.new (coupling_from self.now a (suc a)) (coupling_from self.now (suc a) (suc (suc a))) }
    {
        let body = self.state.body();
        let pivots = self.pivots.as_slice();
        let p = pivots[a];
        put_each(
            buffer,
            self.shape.coupling(a),
            1,
            &pivots[a + 1..],
            |q| body.coupling_at(p, q) / 4,
        );
    }

    // Puts the couplings of all rows.
    fn put_couplings(&self, buffer: &mut [u8])
        requires room { bits_of self.now ≤ 8 * length buffer.old }
        ensures there { CouplingsIn self.now buffer.new }
        ensures framed { Framed buffer.old buffer.new (linear_from self.now self.now.shape.k) (bits_of self.now) }
    {
        // by row numbers: a row is put with those after it, and its number tells the place
        for a in 0..self.shape.k {
            self.put_couplings_of(a, buffer);
        }
    }

    // Puts all fields.
    pub(crate) fn put(&self, buffer: &mut [u8])
        requires room { padded (bits_of self.now) ≤ 8 * length buffer.old }
        ensures header { HeaderIn self.now buffer.new }
        ensures rows { RowsIn self.now buffer.new }
        ensures form { FormIn self.now buffer.new }
        ensures fill { bits_from buffer.new (bits_of self.now) (padding (bits_of self.now)) ≡ 0 }
        ensures framed { Framed buffer.old buffer.new 0 (padded (bits_of self.now)) }
    {
        self.put_header(buffer);
        self.put_rows(buffer);
        self.put_linear(buffer);
        self.put_couplings(buffer);
        let end = self.bit_count();
        put_bits(buffer, end, (8 - end % 8) % 8, 0);
    }
}
