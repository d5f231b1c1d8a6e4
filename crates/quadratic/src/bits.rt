ghost use Rattle.std.specs.Prelude.{◌≡◌, ℕ, suc, ◌+◌, ◌*◌, ◌%◌, ◌^◌, ◌<◌, ◌≤◌, length, bit_xor, count_ones, slice_index, MatchOption};
ghost use Rattle.std.specs.Iterator.{at_most};
ghost use Rattle.quadratic.specs.Numbering.{place, spread};
ghost use Rattle.quadratic.specs.Bits.{bit as digit, dot as parity, Lowest, Highest, RowsXor};

// Strings and masks are plain words, and places plain indices: a type for a word of 48 bits, or for a place below 48, would be opened again
// at each word operation, shift and array.

// Bit i of x.
pub(crate) fn bit(x: u64, i: usize) -> u64
    requires { i < 64 }
    ensures value { result ≡ digit x i }
    ensures small { result < 2 }
{
    (x >> i) & 1
}

// The parity of the bits that x and y share.
pub(crate) fn dot(x: u64, y: u64) -> u64
    ensures value { result ≡ parity x y }
    ensures small { result < 2 }
{
    ((x & y).count_ones() & 1) as u64
}

// The places of the set bits of a word below bit 48, the lowest first, or from the other end the highest first.
#[derive(Drop)]
pub struct SetBits {
    left: u64,
    ghost inside: { left < 2 ^ 48 },
}

pub fn set_bits(x: u64) -> SetBits
    ensures { result.left ≡ x % 2 ^ 48 }
{
    SetBits {
        left: x & ((1 << 48) - 1),
    }
}

impl Iterator for SetBits {
    type Item = usize;

    ghost next_gives = { λ s p t. MatchOption p (s.left ≡ 0) (λ p. Lowest s.left p t.left) };

    ghost remaining = { λ s. at_most (count_ones s.left) };

    fn next(&mut self) -> Option<usize> {
        if self.left == 0 {
            return None;
        }
        let p = lowest(self.left);
        self.left &= self.left - 1;
        Some(p)
    }
}

impl DoubleEndedIterator for SetBits {
    ghost next_back_gives = { λ s p t. MatchOption p (s.left ≡ 0) (λ p. Highest s.left p t.left) };

    fn next_back(&mut self) -> Option<usize> {
        if self.left == 0 {
            return None;
        }
        let p = highest(self.left);
        self.left = turned(self.left, p);
        Some(p)
    }
}

// The place of the lowest set bit of x.
pub(crate) fn lowest(x: u64) -> usize
    requires { 0 < x }
    ensures on { digit x result ≡ 1 }
    ensures least { (q : ℕ) → q < result → digit x q ≡ 0 }
{
    x.trailing_zeros() as usize
}

// The place of the highest set bit of x.
pub(crate) fn highest(x: u64) -> usize
    requires { 0 < x }
    ensures on { digit x result ≡ 1 }
    ensures most { x < 2 ^ suc result }
    ensures place { result < 64 }
{
    x.ilog2() as usize
}

// x with bit a turned over.
pub(crate) fn turned(x: u64, a: usize) -> u64
    requires { a < 64 }
    ensures { result ≡ bit_xor x (2 ^ a) }
{
    x ^ (1 << a)
}

// Adds the mask to each row that stands in `rows`.
pub(crate) fn xor_rows(table: &mut [u64; 48], rows: u64, mask: u64)
    requires { rows < 2 ^ 48 }
    ensures { RowsXor table.old table.new rows mask }
{
    for p in set_bits(rows) {
        table[p] ^= mask;
    }
}

// Adds one table to another, row by row. By `enumerate`: after a `zip` the goal names the final table by no name that a proof can use.
pub(crate) fn xor_tables(table: &mut [u64; 48], other: &[u64; 48])
    ensures { (k : ℕ) → slice_index table.new k ≡ bit_xor (slice_index table.old k) (slice_index other.now k) }
{
    for (a, row) in table.iter_mut().enumerate() {
        *row ^= other[a];
    }
}

// The rows that have an odd parity with w.
pub(crate) fn odd_rows(table: &[u64; 48], w: u64) -> u64
    ensures below { result < 2 ^ 48 }
    ensures bits { (p : ℕ) → p < 48 → digit result p ≡ parity w (slice_index table.now p) }
{
    let mut odd = 0;
    for (p, row) in table.iter().enumerate() {
        odd ^= dot(w, *row) << p;
    }
    odd
}

// The position of the a-th set bit from the top, counted from 1, among the lowest 48.
pub(crate) fn nth(mask: u64, a: u64) -> Option<usize>
    ensures { result ≡ place 48 mask a }
{
    let passed = a.checked_sub(1)?;
    set_bits(mask).rev().nth(passed as usize)
}

// The bits of c, the lowest first, put where the mask has a bit, the highest first.
pub(crate) fn deposit(mask: u64, c: u64) -> u64
    ensures { result ≡ spread 48 mask c }
{
    let mut sum = 0;
    let mut left = c;
    for p in set_bits(mask).rev() {
        sum += (left % 2) << p;
        left /= 2;
    }
    sum
}
