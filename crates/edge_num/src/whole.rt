// Whole numbers of known sizes.
ghost use Rattle.std.specs.Prelude.{◌≡◌, ◌*◌, ◌+◌, ◌≤◌, pos, ◌+ℤ◌, ◌-ℤ◌, ◌*ℤ◌, neg_ℤ, ℤ, unsigned_abs, int_lt, int_le};
ghost use Rattle.std.specs.Ordering.{int_eq};
ghost use Rattle.edge_num.specs.Roots.{root};

use crate::limits::{MOST_ROOT, MOST_SIZE, MOST_TERM};
use crate::root::isqrt;
use std::marker::Model;

/// A product of numbers whose sizes are at most `A` and `B`.
pub fn times<const A: u64, const B: u64>(a: i128, b: i128) -> i128
    requires first { unsigned_abs a ≤ A }
    requires second { unsigned_abs b ≤ B }
    requires fits { A * B ≤ MOST_SIZE }
    ensures value { result ≡ a *ℤ b }
    ensures size { unsigned_abs result ≤ A * B }
{
    a * b
}

/// A number of 128 bits, which contracts see as a whole number without a range.
///
/// Each call tells the size of its result from the sizes of its arguments, so that a formula over them is proved to fit
/// as it is written.
#[derive(Clone, Copy, Debug, PartialEq, Eq)]
pub struct Whole {
    value: i128,
}

impl Model for Whole {
    ghost Value = { ℤ };

    ghost view = { λ w. w.value };

    ghost inverse = { λ n. record { value = n } };
}

impl Whole {
    pub fn new(value: i128) -> Whole
        ensures { result ≡ value }
    {
        Whole { value }
    }

    pub fn value(self) -> i128
        ensures { result ≡ self }
    {
        self.value
    }

    /// A product of numbers whose sizes are at most `A` and `B`.
    pub fn times<const A: u64, const B: u64>(self, other: Whole) -> Whole
        requires first { unsigned_abs self ≤ A }
        requires second { unsigned_abs other ≤ B }
        requires fits { A * B ≤ MOST_SIZE }
        ensures value { result ≡ self *ℤ other }
        ensures size { unsigned_abs result ≤ A * B }
    {
        Whole {
            value: times::<A, B>(self.value, other.value),
        }
    }

    pub fn plus(self, other: Whole) -> Whole
        requires first { unsigned_abs self ≤ MOST_TERM }
        requires second { unsigned_abs other ≤ MOST_TERM }
        ensures value { result ≡ self +ℤ other }
        ensures size { unsigned_abs result ≤ unsigned_abs self + unsigned_abs other }
    {
        Whole {
            value: self.value + other.value,
        }
    }

    pub fn minus(self, other: Whole) -> Whole
        requires first { unsigned_abs self ≤ MOST_TERM }
        requires second { unsigned_abs other ≤ MOST_TERM }
        ensures value { result ≡ self -ℤ other }
        ensures size { unsigned_abs result ≤ unsigned_abs self + unsigned_abs other }
    {
        Whole {
            value: self.value - other.value,
        }
    }

    pub fn negated(self) -> Whole
        requires { unsigned_abs self ≤ MOST_TERM }
        ensures value { result ≡ neg_ℤ self }
        ensures size { unsigned_abs result ≡ unsigned_abs self }
    {
        Whole { value: -self.value }
    }

    pub fn is_zero(self) -> bool
        ensures { result ≡ int_eq self (pos 0) }
    {
        self.value == 0
    }

    pub fn is_negative(self) -> bool
        ensures { result ≡ int_lt self (pos 0) }
    {
        self.value < 0
    }

    pub fn at_most(self, other: Whole) -> bool
        ensures { result ≡ int_le self other }
    {
        self.value <= other.value
    }

    pub fn below(self, other: Whole) -> bool
        ensures { result ≡ int_lt self other }
    {
        self.value < other.value
    }

    /// The whole square root of the number's size.
    pub fn root(self) -> Whole
        ensures value { result ≡ pos (root (unsigned_abs self)) }
        ensures size { unsigned_abs result ≤ MOST_ROOT }
    {
        Whole {
            value: isqrt(self.value.unsigned_abs()) as i128,
        }
    }
}
