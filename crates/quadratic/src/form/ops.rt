ghost use Rattle.std.specs.Prelude.{◌≡◌, ℕ, ◌+◌, ◌*◌, ◌%◌, ◌^◌, ◌<◌, ◌≤◌, T, bit_xor, slice_index};
ghost use Rattle.quadratic.specs.Bits.{bit as digit, dot as parity, flag as numeral};
ghost use Rattle.quadratic.specs.Quadratic.{coef, link};
ghost use Rattle.quadratic.specs.Value.{value_at};

use super::QuadraticForm;
use crate::bits::{bit, dot, set_bits, turned, xor_rows, xor_tables};

impl QuadraticForm {
    // The form's value at the point c.
    pub(crate) fn value(&self, c: u64) -> u8
        ensures value { result ≡ value_at self.now c }
        ensures small { result < 8 }
    {
        let mut sum = self.phase;
        let mut seen = 0;
        for a in set_bits(c) {
            sum = (sum + self.slope(a, seen)) % 8;
            seen = turned(seen, a);
        }
        sum
    }

    // Adds 4 times the parity of the mask.
    pub(crate) fn add_four(&mut self, mask: u64)
        requires { mask < 2 ^ 48 }
        ensures { (c : ℕ) → value_at self.new c ≡ (value_at self.old c + 4 * parity mask c) % 8 }
    {
        self.neg ^= mask;
    }

    // Adds 2 times the parity of the mask.
    pub(crate) fn add_two(&mut self, mask: u64)
        requires { mask < 2 ^ 48 }
        ensures { (c : ℕ) → value_at self.new c ≡ (value_at self.old c + 2 * parity mask c) % 8 }
    {
        self.neg ^= mask & self.odd;
        self.odd ^= mask;
        xor_rows(&mut self.coupling, mask, mask);
    }

    // Adds 2 * quarters times the parity of the mask.
    pub(crate) fn add_parity(&mut self, quarters: u8, mask: u64)
        requires { mask < 2 ^ 48 }
        ensures { (c : ℕ) → value_at self.new c ≡ (value_at self.old c + 2 * quarters * parity mask c) % 8 }
    {
        if quarters % 2 == 1 {
            self.add_two(mask);
        }
        if quarters / 2 % 2 == 1 {
            self.add_four(mask);
        }
    }

    // Adds 4 times the product of the parities of u and v.
    pub(crate) fn add_product(&mut self, u: u64, v: u64)
        requires first { u < 2 ^ 48 }
        requires second { v < 2 ^ 48 }
        ensures { (c : ℕ) → value_at self.new c ≡ (value_at self.old c + 4 * (parity u c * parity v c)) % 8 }
    {
        self.neg ^= u & v;
        xor_rows(&mut self.coupling, u, v);
        xor_rows(&mut self.coupling, v, u);
    }

    // The form at c becomes what it was at c with variable a turned over.
    pub(crate) fn flip(&mut self, a: usize)
        requires { a < 48 }
        ensures { (c : ℕ) → value_at self.new c ≡ value_at self.old (bit_xor c (2 ^ a)) }
    {
        self.phase = (self.phase + self.linear(a) as u8) % 8;
        self.neg ^= self.coupling[a];
    }

    // The form with one value.
    pub(crate) fn constant(phase: u8) -> QuadraticForm
        requires { phase < 8 }
        ensures values { (c : ℕ) → value_at result c ≡ phase }
        ensures phase { result.phase ≡ phase }
    {
        QuadraticForm {
            phase,
            odd: 0,
            neg: 0,
            coupling: [0; 48],
        }
    }

    pub(crate) fn phase(&self) -> u64
        ensures { result ≡ self.now.phase }
    {
        self.phase as u64
    }

    // The linear coefficient of a variable; 0 past the last.
    pub(crate) fn linear(&self, p: usize) -> u64
        ensures value { result ≡ coef self.now.odd self.now.neg p }
        ensures bound { result ≤ 6 }
    {
        if p >= 48 {
            return 0;
        }
        2 * bit(self.odd, p) + 4 * bit(self.neg, p)
    }

    // The coupling of two variables; 0 past the last.
    pub(crate) fn coupling(&self, p: usize, q: usize) -> u64
        ensures { result ≡ 4 * link self.now.coupling p q }
    {
        if p >= 48 || q >= 48 {
            return 0;
        }
        4 * bit(self.coupling[p], q)
    }

    // This form less another, word by word.
    pub(crate) fn minus(&self, other: &QuadraticForm) -> QuadraticForm
        ensures { (c : ℕ) → (value_at result c + value_at other.now c) % 8 ≡ value_at self.now c }
    {
        let odd = self.odd ^ other.odd;
        let mut coupling = self.coupling;
        xor_tables(&mut coupling, &other.coupling);
        QuadraticForm {
            phase: (self.phase + 8 - other.phase) % 8,
            odd,
            neg: self.neg ^ other.neg ^ (other.odd & odd),
            coupling,
        }
    }

    // The variables with the linear coefficient 2 or 6.
    pub(crate) fn odd(&self) -> u64
        ensures { result ≡ self.now.odd }
    {
        self.odd
    }

    // The variables that a variable is coupled with, itself among them where its linear coefficient is 2 or 6.
    pub(crate) fn partners(&self, a: usize) -> u64
        requires { a < 48 }
        ensures { result ≡ slice_index self.now.coupling a }
    {
        self.coupling[a]
    }

    // What the value gains where variable a of the point c is turned over.
    pub(crate) fn slope(&self, a: usize, c: u64) -> u8
        requires { a < 48 }
        ensures value { value_at self.now (bit_xor c (2 ^ a)) ≡ (value_at self.now c + result) % 8 }
        ensures bound { result ≤ 10 }
    {
        (self.linear(a) + 4 * dot(self.coupling[a], c)) as u8
    }

    // Makes the form independent of variable a, by setting that variable to 0.
    pub(crate) fn clear(&mut self, a: usize)
        requires { a < 48 }
        ensures off { (c : ℕ) → digit c a ≡ 0 → value_at self.new c ≡ value_at self.old c }
        ensures free { (c : ℕ) → value_at self.new (bit_xor c (2 ^ a)) ≡ value_at self.new c }
    {
        let here = 1 << a;
        let row = self.coupling[a];
        self.odd ^= self.odd & here;
        self.neg ^= self.neg & here;
        xor_rows(&mut self.coupling, row, here);
        self.coupling[a] = 0;
    }

    // Puts the parity of the mask in the place of variable a.
    pub(crate) fn substitute(&mut self, a: usize, mask: u64)
        requires place { a < 48 }
        requires low { mask < 2 ^ 48 }
        requires free { digit mask a ≡ 0 }
        ensures values { (c : ℕ) → digit c a ≡ parity mask c → value_at self.new c ≡ value_at self.old c }
        ensures free { (c : ℕ) → value_at self.new (bit_xor c (2 ^ a)) ≡ value_at self.new c }
    {
        let quarters = (self.linear(a) / 2) as u8;
        let row = self.coupling[a];
        let rest = row ^ (row & (1 << a));
        self.clear(a);
        self.add_parity(quarters, mask);
        self.add_product(mask, rest);
    }

    // Puts the sum of b and the parity of the mask in the place of variable a.
    pub(crate) fn fix(&mut self, a: usize, mask: u64, b: bool)
        requires place { a < 48 }
        requires low { mask < 2 ^ 48 }
        requires free { digit mask a ≡ 0 }
        ensures { (c : ℕ) → value_at self.new c
            ≡ value_at self.old (bit_xor c (bit_xor (digit c a) (bit_xor (parity mask c) (numeral b)) * 2 ^ a)) }
    {
        if b {
            self.flip(a);
        }
        self.substitute(a, mask);
    }

    // Adds a constant.
    pub(crate) fn add_phase(&mut self, k: u8)
        requires { k < 8 }
        ensures { (c : ℕ) → value_at self.new c ≡ (value_at self.old c + k) % 8 }
    {
        self.phase = (self.phase + k) % 8;
    }
}
