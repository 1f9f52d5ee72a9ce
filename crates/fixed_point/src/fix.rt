ghost use Rattle.std.specs.Prelude.{◌≡◌, ◌≤◌, ℤ, Ok, unsigned_abs};
ghost use Rattle.desk_io.specs.Causes.{HasCause};
ghost use Rattle.desk_io.specs.Bytes.{Writes};
ghost use Rattle.fixed_point.specs.Decimal.{fix_of};
ghost use Rattle.fixed_point.specs.Text.{number_text};

use crate::limits::{MOST_DECIMALS, MOST_MILLIONTHS};
use crate::writing::write_number;
use desk_io::{Failed, Pen, Sink};
use std::marker::Model;

/// A decimal number with at most six decimals and a size of at most 1,000,000. Contracts see its millionths.
///
/// `read_fix` makes one; there is no other way.
#[derive(Clone, Copy, Debug, PartialEq, Eq)]
pub struct Fix {
    millionths: i64,
}

impl Model for Fix {
    ghost use Rattle.std.specs.Prelude.{◌≤◌, ℤ, unsigned_abs};
    ghost use Rattle.fixed_point.specs.declared.limits.TheConstants.{MOST_MILLIONTHS};

    ghost Value = { ℤ };

    ghost view = { λ f. f.millionths };

    ghost invariant = { λ f. unsigned_abs f.millionths ≤ MOST_MILLIONTHS };

    ghost inverse = { λ n. record { millionths = n } };
}

impl Fix {
    /// The number of so many millionths.
    pub(crate) fn from_millionths(millionths: i64) -> Fix
        requires { unsigned_abs millionths ≤ MOST_MILLIONTHS }
        ensures { result ≡ millionths }
    {
        Fix { millionths }
    }

    /// The value in millionths.
    pub fn millionths(&self) -> i64
        ensures value { result ≡ self.now }
        ensures size { unsigned_abs result ≤ MOST_MILLIONTHS }
    {
        self.millionths
    }

    /// Writes the shortest decimal text of the number, as `-1.5`.
    pub fn write<S: Sink>(&self, pen: &mut Pen, sink: &mut S) -> Result<(), Failed>
        ensures bytes { Writes (S.written sink.old) (S.written sink.new) pen.old pen.new result
            (number_text MOST_DECIMALS self.now) }
        ensures cause { HasCause (S.faults sink.old) (S.faults sink.new) result }
    {
        write_number(MOST_DECIMALS, self.millionths, pen, sink)
    }
}

/// What `Fix::write` writes is read by `read_fix` as the same number.
pub fn written_is_read_back()
    ensures { (z : ℤ) → unsigned_abs z ≤ MOST_MILLIONTHS
        → fix_of (number_text MOST_DECIMALS z) ≡ Ok z }
{}
