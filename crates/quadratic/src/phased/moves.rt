ghost use Rattle.std.specs.Prelude.{◌≡◌, ℕ, suc, ◌+◌, ◌*◌, ◌%◌, ◌^◌, ◌<◌, MatchOption, ◌≢◌, bit_and, bit_xor};
ghost use Rattle.quadratic.specs.Bits.{bit as digit, dot as parity};
ghost use Rattle.quadratic.specs.Bits.{flag as numeral};
ghost use Rattle.quadratic.specs.Moves.{Turned, Kept, Flipped, Outside, Along, Grown, Sheared, Controlled};
ghost use Rattle.quadratic.specs.Strings.{Doubled};
ghost use Rattle.quadratic.specs.Value.{value_at};

use super::ops::settle;
use super::{PhasedSpace, Turn};
use crate::affine::Outcome;
use crate::bits::{bit, dot, highest, turned};

// A move answers false where it can't be made, as a set's `insert` does, and then leaves the space as it was. No caller hands that answer
// on, so an Option or a Result would be no plainer.
impl PhasedSpace {
    // Keeps the strings whose parity with w is b.
    pub fn restrict(&mut self, w: u64, b: bool) -> Outcome
        ensures { Kept result self.old self.new w (numeral b) }
    {
        let mut space = self.space;
        match space.restrict(w, b) {
            Outcome::Restricted => {
                let gone = self.space.pivots() ^ space.pivots();
                settle(&mut self.form, &space, gone);
                self.space = space;
                Outcome::Restricted
            }
            same => same,
        }
    }

    // Adds a constant to every phase.
    pub fn add_phase(&mut self, k: u8)
        ensures { Turned self.old self.new (λ y. k) }
    {
        self.form.add_phase(k % 8);
    }

    // Adds 2 * quarters where the parity with w is not `base`. Word and base are two arguments here and below: a struct of them would be opened
    // in the first line.
    pub(crate) fn add_affine(&mut self, quarters: u8, base: bool, w: u64)
        ensures { Turned self.old self.new (λ y. 2 * quarters * bit_xor (numeral base) (parity w y)) }
    {
        let l = self.space.responses(w);
        let here = base != (dot(w, self.space.shift()) == 1);
        self.form.add_affine(quarters, here, l);
    }

    // Adds 2 * quarters where the parity with w is odd.
    pub fn add_parity(&mut self, quarters: u8, w: u64)
        ensures { Turned self.old self.new (λ y. 2 * quarters * parity w y) }
    {
        self.add_affine(quarters, false, w);
    }

    // Adds 4 where the parities with u and v are both odd.
    pub fn add_product(&mut self, u: u64, v: u64)
        ensures { Turned self.old self.new (λ y. 4 * (parity u y * parity v y)) }
    {
        let l = self.space.responses(u);
        let m = self.space.responses(v);
        let a = dot(u, self.space.shift());
        let b = dot(v, self.space.shift());
        self.form.add_product(l, m);
        self.form.add_affine(2 * a as u8, b == 1, m);
        self.form.add_parity(2 * b as u8, l);
    }

    // Turns bit i of every string over; false past the last bit.
    pub fn flip(&mut self, i: usize) -> bool
        ensures { Flipped result self.old self.new i }
    {
        if i >= 48 {
            return false;
        }
        self.space.flip(i);
        self.form.flip(i);
        true
    }

    // What the form, and 4 times the parity with z, gain where d is added.
    pub(crate) fn gain(&self, d: u64, z: u64) -> Turn
        ensures { (c : ℕ) → (value_at self.now.form (bit_xor c d) + 4 * parity z (bit_xor c d)) % 8
            ≡ (value_at self.now.form c + (2 * result.quarters + 4 * parity result.mask c)) % 8 }
    {
        let u = d & self.space.pivots();
        let quarters = (self.form.value(u) + 8 - self.form.value(0)) % 8 / 2;
        let mask = self.form.polar(u) & self.space.pivots();
        Turn {
            quarters: (quarters + 2 * dot(z, d) as u8) % 4,
            mask: mask ^ z,
        }
    }

    // By what the phases, and 4 times the parity with z, turn along a combination f of rows; None where f is no such combination.
    pub fn factor_along(&self, f: u64, z: u64) -> Option<Turn>
        ensures { MatchOption result (Outside self.now f) (λ turn. Along self.now f z turn.quarters turn.mask) }
    {
        if self.space.rest(f) != 0 {
            return None;
        }
        Some(self.gain(f, z))
    }

    // Adds 2 * quarters, and 4 times the parity with n, where the parity with w is not `base`.
    pub(crate) fn add_across(&mut self, quarters: u8, base: bool, w: u64, n: u64)
        ensures { Turned self.old self.new (λ y. bit_xor (numeral base) (parity w y) * (2 * quarters + 4 * parity n y)) }
    {
        self.add_affine(quarters, base, w);
        self.add_product(w, n);
        self.add_parity(2 * u8::from(base), n);
    }

    // One row more, with no bit at a pivot, and its highest bit at p: the form stays.
    pub(crate) fn insert(&mut self, row: u64, p: usize)
        requires place { p < 48 }
        requires on { digit row p ≡ 1 }
        requires most { row < 2 ^ suc p }
        requires off { bit_and row self.old.space.pivots ≡ 0 }
        ensures form { self.new.form ≡ self.old.form }
        ensures pivots { self.new.space.pivots ≡ bit_xor self.old.space.pivots (2 ^ p) }
        ensures strings { Doubled self.old.space self.new.space row }
    {
        self.space.insert(row, p);
    }

    // Adds the direction d, unless it is a combination of rows: the phase at y ^ d is that at y, with 2 * quarters and 4 times the
    // parity of z and y added.
    pub fn extend(&mut self, d: u64, quarters: u8, z: u64) -> bool
        ensures { Grown result self.old self.new d quarters z }
    {
        let rest = self.space.rest(d);
        if rest == 0 {
            return false;
        }
        let p = highest(rest);
        if p >= 48 {
            return false;
        }
        let w = self.space.check(p);
        let base = bit(self.space.shift(), p) == 1;
        let turn = self.gain(d, z);
        self.insert(rest, p);
        self.add_across(quarters % 4 + turn.quarters, base, w, turn.mask);
        true
    }

    // Turns bit l over where bit j is 1, for a bit l that is no combination of rows: bit l becomes free, and a check that told it
    // tells it together with bit j.
    pub(crate) fn slide(&mut self, j: usize, l: usize)
        requires control { j < 48 }
        requires place { l < 48 }
        requires two { j ≢ l }
        requires outside { Outside self.old (2 ^ l) }
        ensures { Sheared self.old self.new j l }
    {
        let d = turned(0, l);
        let i = highest(self.space.rest(d));
        let w = turned(self.space.check(i), j);
        let b = bit(self.space.shift(), i) == 1;
        self.extend(d, 0, 0);
        self.restrict(w, b);
    }

    // Turns bit l over where bit j is 1; false, and nothing is done, unless these are two bits.
    pub fn controlled_flip(&mut self, j: usize, l: usize) -> bool
        ensures { Controlled result self.old self.new j l }
    {
        if j >= 48 || l >= 48 || j == l {
            return false;
        }
        if let Some(turn) = self.factor_along(turned(0, l), 0) {
            let control = turned(0, j);
            self.add_parity(turn.quarters, control);
            self.add_product(control, turn.mask);
            return true;
        }
        self.slide(j, l);
        true
    }
}
