ghost use Rattle.std.specs.Prelude.{◌≡◌, ◌≤◌, ◌/◌, unsigned_abs};
ghost use Rattle.desk_io.specs.Causes.{HasCause};
ghost use Rattle.desk_io.specs.Bytes.{Writes};
ghost use Rattle.fixed_point.specs.Text.{number_text};
ghost use Rattle.fixed_point.specs.Ticks.{ticks_of};

use crate::fix::Fix;
use crate::limits::{MOST_MILLIONTHS, TICK_DECIMALS, TICK_MILLIONTHS};
use crate::writing::write_number;
use desk_io::{Failed, Pen, Sink};
use edge_num::round_div;

/// A position in the plane, in ticks of a ten-thousandth of a millimetre; y grows upwards.
#[derive(Clone, Copy, Debug, PartialEq, Eq)]
pub struct Spot {
    pub x: i64,
    pub y: i64,
}

/// A number of millimetres, rounded to ticks.
pub fn ticks(number: Fix) -> i64
    ensures value { result ≡ ticks_of number }
    ensures size { unsigned_abs result ≤ MOST_MILLIONTHS / TICK_MILLIONTHS }
{
    round_div(number.millionths() as i128, TICK_MILLIONTHS as i128) as i64
}

/// Writes a number of ticks as millimetres, spelled as `Fix::write` spells.
pub fn write_ticks<S: Sink>(ticks: i64, pen: &mut Pen, sink: &mut S) -> Result<(), Failed>
    ensures bytes { Writes (S.written sink.old) (S.written sink.new) pen.old pen.new result
        (number_text TICK_DECIMALS ticks) }
    ensures cause { HasCause (S.faults sink.old) (S.faults sink.new) result }
{
    write_number(TICK_DECIMALS, ticks, pen, sink)
}
