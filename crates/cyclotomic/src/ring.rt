ghost use Rattle.std.specs.Prelude.{◌≡◌, ℕ, ◌<◌, Some, T};
ghost use Rattle.cyclotomic.specs.Columns.{glyphs};
ghost use Rattle.cyclotomic.specs.Ring.{Ops, RingLaws};

use std::fmt;

// A commutative ring with an element omega whose fourth power is -1. The ghost members say which ring: its carrier, which value of it
// a record stands for, its operations, and that they keep the laws.
pub trait Ring: Copy {
    ghost carrier: { Type 0 };

    ghost ops: { Ops carrier };

    ghost laws: { RingLaws ops };

    ghost value: { Self → carrier };

    fn zero() -> Self
        ensures { value result ≡ ops.nil };

    fn one() -> Self
        ensures { value result ≡ ops.one };

    fn omega() -> Self
        ensures { value result ≡ ops.w };

    fn plus(self, other: Self) -> Self
        ensures { value result ≡ ops.plus (value self) (value other) };

    fn negative(self) -> Self
        ensures { value result ≡ ops.neg (value self) };

    fn times(self, other: Self) -> Self
        ensures { value result ≡ ops.times (value self) (value other) };

    // Whether two records stand for the same value. It has no body here, `self == other`: a law would have to say that `==` tells values
    // apart, and for words its proof lacks their bound.
    fn equal(self, other: Self) -> bool
        ensures sound { T result → value self ≡ value other }
        ensures complete { value self ≡ value other → T result };
}

// A ring that is printed in hexadecimal digits, of a fixed number.
pub trait Column: Ring {
    ghost DIGITS: { ℕ };

    ghost digit_of: { Self → ℕ → ℕ };

    // The number of digits.
    const DIGITS: usize;

    // The digit at a place, counted from 0 at the left; 0 past the end.
    fn digit(self, place: usize) -> u8
        ensures value { result ≡ digit_of self place }
        ensures small { result < 16 };
}

// Such a ring whose values print themselves.
pub trait Printed: Column + fmt::Display {
    // A value is printed as its digits.
    ghost printed: { (x : Self) → Self.output x ≡ Some (glyphs (Self.digit_of x) 0 Self.DIGITS) };
}
