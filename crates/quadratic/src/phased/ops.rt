ghost use Rattle.std.specs.Prelude.{◌≡◌, ℕ, ◌+◌, ◌*◌, ◌%◌, ◌^◌, ◌<◌, ◌≤◌, T, bit_and, bit_xor, count_ones};
ghost use Rattle.quadratic.specs.Bits.{bit as digit};
ghost use Rattle.quadratic.specs.Building.{Begun, RowAdded, Reshifted, LinearAdded, Coupled};
ghost use Rattle.quadratic.specs.Fields.{row_of, linear_of, coupling_of, coefficient_at, coupling_between};
ghost use Rattle.quadratic.specs.Numbering.{spread};
ghost use Rattle.quadratic.specs.Phase.{phase as phase_of, Meets, Wide, SamePhases};
ghost use Rattle.quadratic.specs.Strings.{Member};
ghost use Rattle.quadratic.specs.Echelon.{row as table_row};
ghost use Rattle.quadratic.specs.Value.{value_at, Sees};

use super::PhasedSpace;
use crate::affine::AffineSpace;
use crate::bits::{bit, deposit, nth, set_bits, turned};
use crate::form::QuadraticForm;

impl PhasedSpace {
    // The zero string alone, with a phase taken modulo 8.
    pub fn origin(phase: u64) -> PhasedSpace
        ensures { Begun result (phase % 8) }
    {
        PhasedSpace {
            space: AffineSpace::origin(),
            form: QuadraticForm::constant((phase % 8) as u8),
        }
    }

    // One more row below the others, where that keeps the reduced echelon form: the position of its pivot.
    pub fn append_row(&mut self, row: u64) -> Option<usize>
        ensures { RowAdded result self.old self.new row }
    {
        self.space.append(row)
    }

    // Another shift, where it is 0 at every pivot; false where it is not. Such an answer is a yes or no, as that of a set's `insert`: an Option
    // of nothing would say no more.
    pub fn set_shift(&mut self, shift: u64) -> bool
        ensures { Reshifted result self.old self.new shift }
    {
        self.space.set_shift(shift)
    }

    // Adds an even number to the linear coefficient of the row with the pivot p; false where there is none, for
    // the same reason.
    pub fn add_linear(&mut self, p: usize, times: u64) -> bool
        ensures { LinearAdded result self.old self.new p times }
    {
        if !self.space.is_pivot(p) || times > 6 || times % 2 == 1 {
            return false;
        }
        self.form.add_parity((times / 2) as u8, turned(0, p));
        true
    }

    // Turns over the coupling of the rows with the pivots p and q; false where there are no two such
    // rows, for the same reason.
    pub fn couple(&mut self, p: usize, q: usize) -> bool
        ensures { Coupled result self.old self.new p q }
    {
        if !self.space.is_pivot(p) || !self.space.is_pivot(q) || p == q {
            return false;
        }
        self.form.add_product(turned(0, p), turned(0, q));
        true
    }

    // The positions of the pivots, as a string.
    pub fn pivots(&self) -> u64
        ensures { result ≡ self.now.space.pivots }
    {
        self.space.pivots()
    }

    pub fn shift(&self) -> u64
        ensures { result ≡ self.now.space.shift }
    {
        self.space.shift()
    }

    pub fn phase(&self) -> u64
        ensures { result ≡ self.now.form.phase }
    {
        self.form.phase()
    }

    // How many rows there are.
    pub fn dimension(&self) -> u64
        ensures { result ≡ count_ones self.now.space.pivots }
    {
        u64::from(self.space.pivots().count_ones())
    }

    // How many strings there are.
    pub fn strings(&self) -> u64
        ensures { result ≡ 2 ^ count_ones self.now.space.pivots }
    {
        1 << self.dimension()
    }

    // The row with its pivot at a position; 0 where there is none.
    pub fn row_at(&self, p: usize) -> u64
        ensures { result ≡ table_row self.now.space.rows p }
    {
        self.space.row_at(p)
    }

    // The linear coefficient of the row with the pivot p; 0 where there is none.
    pub fn linear_at(&self, p: usize) -> u64
        ensures { result ≡ coefficient_at self.now p }
    {
        self.form.linear(p)
    }

    // The coupling of the rows with the pivots p and q; 0 where there are none.
    pub fn coupling_at(&self, p: usize, q: usize) -> u64
        ensures { result ≡ coupling_between self.now p q }
    {
        self.form.coupling(p, q)
    }

    // Row a, counted from 1 at the highest pivot.
    pub fn row(&self, a: u64) -> Option<u64>
        ensures { result ≡ row_of self.now a }
    {
        nth(self.space.pivots(), a).map(|p| self.row_at(p))
    }

    // The linear coefficient of row a.
    pub fn linear(&self, a: u64) -> Option<u64>
        ensures { result ≡ linear_of self.now a }
    {
        nth(self.space.pivots(), a).map(|p| self.linear_at(p))
    }

    // The coupling of rows a and b.
    pub fn coupling(&self, a: u64, b: u64) -> Option<u64>
        ensures { result ≡ coupling_of self.now a b }
    {
        let p = nth(self.space.pivots(), a)?;
        let q = nth(self.space.pivots(), b)?;
        Some(self.coupling_at(p, q))
    }

    // The phase at the string y, if y is in the space.
    pub fn phase_at(&self, y: u64) -> Option<u8>
        ensures { result ≡ phase_of self.now y }
    {
        if self.space.contains(y) {
            Some(self.form.value(y))
        } else {
            None
        }
    }

    // The strings in both spaces, each with this space's phase less the other's; None where there is no such string.
    pub fn meet(&self, other: &PhasedSpace) -> Option<PhasedSpace>
        ensures phases { Meets result self.now other.now }
        ensures wide { Wide result self.now other.now }
    {
        let space = self.space.shared(&other.space)?;
        let mut form = self.form.minus(&other.form);
        let all = self.space.pivots() | other.space.pivots();
        settle(&mut form, &space, all ^ (all & space.pivots()));
        Some(PhasedSpace { space, form })
    }

    // Whether two spaces have the same strings with the same phases.
    pub fn same(&self, other: &PhasedSpace) -> bool
        ensures sound { T result → SamePhases self.now other.now }
        ensures complete { SamePhases self.now other.now → T result }
    {
        self == other
    }

    // The form's value at the string numbered by c: row a is in it when bit a - 1 of c is 1.
    pub fn numbered_value(&self, c: u64) -> u64
        ensures value { result ≡ value_at self.now.form (spread 48 self.now.space.pivots c) }
        ensures small { result < 8 }
    {
        self.form.value(deposit(self.space.pivots(), c)) as u64
    }

    pub(crate) fn form(&self) -> QuadraticForm
        ensures { result ≡ self.now.form }
    {
        self.form
    }
}

// Puts, in the place of each variable of `gone`, what the strings of the space have there.
pub(crate) fn settle(form: &mut QuadraticForm, space: &AffineSpace, gone: u64)
    requires inside { gone < 2 ^ 48 }
    requires apart { bit_and gone space.now.pivots ≡ 0 }
    ensures kept { (y : ℕ) → Member space.now y → value_at form.new y ≡ value_at form.old y }
    ensures seen { Sees form.old (bit_xor space.now.pivots gone) → Sees form.new space.now.pivots }
{
    if gone == 0 {
        return;
    }
    let columns = space.columns();
    for i in set_bits(gone) {
        form.fix(i, columns[i], bit(space.shift(), i) == 1);
    }
}
