ghost use Rattle.std.specs.Prelude.{◌≡◌, ℕ, suc, ◌*◌, ◌^◌, ◌<◌, T, MatchOption, bit_and, bit_xor};
ghost use Rattle.quadratic.specs.Bits.{bit as digit, dot as parity};
ghost use Rattle.quadratic.specs.Bits.{flag as numeral};
ghost use Rattle.quadratic.specs.Echelon.{row, combination as combined, reduced};
ghost use Rattle.quadratic.specs.Strings.{Member, Half, Cut, OneLess, Moved, Doubled, Shared, Fitting, Appended, Shifted};

use super::{AffineSpace, Outcome};
use crate::bits::{bit, dot, highest, lowest, set_bits, turned, xor_rows};

impl AffineSpace {
    // The space of the zero string alone.
    pub(crate) fn origin() -> AffineSpace
        ensures pivots { result.pivots ≡ 0 }
        ensures rows { (p : ℕ) → row result.rows p ≡ 0 }
        ensures shift { result.shift ≡ 0 }
    {
        AffineSpace {
            pivots: 0,
            rows: [0; 48],
            shift: 0,
        }
    }

    pub(crate) fn pivots(&self) -> u64
        ensures { result ≡ self.now.pivots }
    {
        self.pivots
    }

    pub(crate) fn shift(&self) -> u64
        ensures { result ≡ self.now.shift }
    {
        self.shift
    }

    pub(crate) fn is_pivot(&self, p: usize) -> bool
        ensures yes { T result → (p < 48) × (digit self.now.pivots p ≡ 1) }
        ensures no { digit self.now.pivots p ≡ 1 → T result }
    {
        p < 48 && bit(self.pivots, p) == 1
    }

    // The sum of the rows that stand in c.
    pub(crate) fn combination(&self, c: u64) -> u64
        ensures { result ≡ combined (row self.now.rows) c }
    {
        let mut sum = 0;
        for p in set_bits(c) {
            sum ^= self.rows[p];
        }
        sum
    }

    // What is left of d without its bits at the pivots.
    pub(crate) fn rest(&self, d: u64) -> u64
        ensures { result ≡ reduced self.now.pivots (row self.now.rows) d }
    {
        d ^ self.combination(d & self.pivots)
    }

    // Whether y is a string of the space.
    pub(crate) fn contains(&self, y: u64) -> bool
        ensures sound { T result → Member self.now y }
        ensures complete { Member self.now y → T result }
    {
        self.rest(y) == self.shift
    }

    // The pivots whose rows have an odd parity with w.
    pub(crate) fn responses(&self, w: u64) -> u64
        ensures below { result < 2 ^ 48 }
        ensures bits { (p : ℕ) → digit result p ≡ parity w (row self.now.rows p) }
    {
        // by the pivots alone: with `odd_rows` of all 48, where the others are 0, overlaps take up to 97 percent more instructions
        let mut l = 0;
        for p in set_bits(self.pivots) {
            l ^= dot(w, self.rows[p]) << p;
        }
        l
    }

    // The pivots whose rows have a 1 at position i.
    pub(crate) fn column(&self, i: usize) -> u64
        requires { i < 48 }
        ensures below { result < 2 ^ 48 }
        ensures bits { (p : ℕ) → digit result p ≡ digit (row self.now.rows p) i }
    {
        self.responses(turned(0, i))
    }

    // The parity that tells bit i of what is left of a string.
    pub(crate) fn check(&self, i: usize) -> u64
        requires { i < 48 }
        ensures { (y : ℕ) → parity result y ≡ digit (reduced self.now.pivots (row self.now.rows) y) i }
    {
        turned(self.column(i), i)
    }

    // For each position the pivots whose rows have a 1 there. By position, as the rows are, in fixed memory: a place is an index.
    pub(crate) fn columns(&self) -> [u64; 48]
        ensures below { (i : ℕ) → row result i < 2 ^ 48 }
        ensures bits { (i p : ℕ) → digit (row result i) p ≡ digit (row self.now.rows p) i }
    {
        let mut table = [0; 48];
        for p in set_bits(self.pivots) {
            xor_rows(&mut table, self.rows[p], turned(0, p));
        }
        table
    }

    // Keeps the strings whose parity with l is beta, for l inside the pivots and p its lowest bit: row p goes.
    pub(crate) fn cut(&mut self, l: u64, p: usize, beta: bool)
        requires place { p < 48 }
        requires low { l < 2 ^ 48 }
        requires part { bit_and l self.old.pivots ≡ l }
        requires on { digit l p ≡ 1 }
        requires least { (q : ℕ) → q < p → digit l q ≡ 0 }
        ensures pivots { self.new.pivots ≡ bit_xor self.old.pivots (2 ^ p) }
        ensures half { Half self.old self.new l (numeral beta) }
    {
        let gone = self.rows[p];
        xor_rows(&mut self.rows, l, gone);
        self.shift ^= u64::from(beta) * gone;
        self.pivots = turned(self.pivots, p);
    }

    // Keeps the strings whose parity with w is b.
    pub(crate) fn restrict(&mut self, w: u64, b: bool) -> Outcome
        ensures strings { Cut result self.old self.new w (numeral b) }
        ensures pivots { OneLess result self.old.pivots self.new.pivots }
    {
        let l = self.responses(w);
        let beta = (dot(w, self.shift) == 1) != b;
        if l == 0 {
            return if beta {
                Outcome::Empty
            } else {
                Outcome::Unchanged
            };
        }
        self.cut(l, lowest(l), beta);
        Outcome::Restricted
    }

    // Turns bit i of every string over.
    pub(crate) fn flip(&mut self, i: usize)
        requires { i < 48 }
        ensures strings { Moved self.old self.new (2 ^ i) }
        ensures pivots { self.new.pivots ≡ self.old.pivots }
    {
        self.shift ^= turned(self.rows[i], i);
    }

    // Keeps the strings that are in the other space too, if there is one.
    fn confine(mut self, other: &AffineSpace) -> Option<AffineSpace>
        ensures { Shared result self other.now }
    {
        let columns = other.columns();
        for i in set_bits(!other.pivots) {
            let w = turned(columns[i], i);
            if let Outcome::Empty = self.restrict(w, bit(other.shift, i) == 1) {
                return None;
            }
        }
        Some(self)
    }

    // The strings that are in both spaces, if there is one. The smaller space is confined to the larger, which asks less of it.
    pub(crate) fn shared(&self, other: &AffineSpace) -> Option<AffineSpace>
        ensures { Shared result self.now other.now }
    {
        if self.pivots.count_ones() > other.pivots.count_ones() {
            return other.confine(self);
        }
        self.confine(other)
    }

    // Adds the direction f, which has no bit at a pivot, and whose highest bit is p.
    pub(crate) fn insert(&mut self, f: u64, p: usize)
        requires low { f < 2 ^ 48 }
        requires place { p < 48 }
        requires on { digit f p ≡ 1 }
        requires most { f < 2 ^ suc p }
        requires off { bit_and f self.old.pivots ≡ 0 }
        ensures pivots { self.new.pivots ≡ bit_xor self.old.pivots (2 ^ p) }
        ensures doubled { Doubled self.old self.new f }
        ensures rows { (q : ℕ) → row self.new.rows q
            ≡ bit_xor (row self.old.rows q) (bit_xor (digit (row self.old.rows q) p) (digit (2 ^ p) q) * f) }
        ensures shift { self.new.shift ≡ bit_xor self.old.shift (digit self.old.shift p * f) }
    {
        let l = turned(self.column(p), p);
        xor_rows(&mut self.rows, l, f);
        self.shift ^= bit(self.shift, p) * f;
        self.pivots = turned(self.pivots, p);
    }

    // The position of a row's pivot, if the row may stand below the others.
    pub(crate) fn fitting(&self, added: u64) -> Option<usize>
        ensures { MatchOption result ((p : ℕ) → Fitting self.now added p → ⊥) (λ p. Fitting self.now added p) }
    {
        if added == 0 {
            return None;
        }
        let p = highest(added);
        if p >= 48 || self.pivots % turned(0, p + 1) != 0 {
            return None;
        }
        if bit(self.shift, p) == 1 || self.column(p) != 0 {
            return None;
        }
        Some(p)
    }

    // One more row below the others, where that keeps the reduced echelon form: the position of its pivot.
    pub(crate) fn append(&mut self, added: u64) -> Option<usize>
        ensures { Appended result self.old self.new added }
    {
        let p = self.fitting(added)?;
        self.insert(added, p);
        Some(p)
    }

    // Another shift, where it is 0 at every pivot; false where it is not, as a set's `insert` answers: an Option of
    // nothing would say no more.
    pub(crate) fn set_shift(&mut self, shift: u64) -> bool
        ensures { Shifted result self.old self.new shift }
    {
        if shift >= 1 << 48 || shift & self.pivots != 0 {
            return false;
        }
        self.shift = shift;
        true
    }

    // The row with its pivot at a position; 0 where there is none.
    pub(crate) fn row_at(&self, p: usize) -> u64
        ensures { result ≡ row self.now.rows p }
    {
        self.rows.get(p).copied().unwrap_or(0)
    }
}
