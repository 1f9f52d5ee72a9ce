ghost use Rattle.std.specs.Prelude.{◌≡◌, ◌≤◌, ◌<◌, ◌^◌, List, ℕ};
ghost use Rattle.desk_io.specs.Causes.{HasCause};
ghost use Rattle.desk_io.specs.Bytes.{Writes};
ghost use Rattle.fixed_point.specs.Text.{decimals_text, point_text, size_text, number_text};

use crate::limits::MOST_DECIMALS;
use crate::power::power_of_ten;
use desk_io::{Failed, Pen, Sink};
use itoa::Buffer;

/// Writes a number of units, of which one is the last of so many decimals.
pub fn write_number<S: Sink>(
    places: u32,
    units: i64,
    pen: &mut Pen,
    sink: &mut S,
) -> Result<(), Failed>
    requires { places ≤ MOST_DECIMALS }
    ensures bytes { Writes (S.written sink.old) (S.written sink.new) pen.old pen.new result
        (number_text places units) }
    ensures cause { HasCause (S.faults sink.old) (S.faults sink.new) result }
{
    let size = units.unsigned_abs();
    if units >= 0 {
        return write_size(places, size, pen, sink);
    }
    pen.push(sink, b"-")?;
    write_size(places, size, pen, sink)
}

/// Writes a number of units without a sign.
fn write_size<S: Sink>(places: u32, units: u64, pen: &mut Pen, sink: &mut S) -> Result<(), Failed>
    requires { places ≤ MOST_DECIMALS }
    ensures bytes { Writes (S.written sink.old) (S.written sink.new) pen.old pen.new result
        (size_text places units) }
    ensures cause { HasCause (S.faults sink.old) (S.faults sink.new) result }
{
    let one = power_of_ten(places);
    let mut buffer = Buffer::new();
    pen.push(sink, buffer.format(units / one).as_bytes())?;
    write_decimals(places, units % one, pen, sink)
}

/// Writes a point and decimals, where anything is left for them.
fn write_decimals<S: Sink>(
    places: u32,
    units: u64,
    pen: &mut Pen,
    sink: &mut S,
) -> Result<(), Failed>
    requires places { places ≤ MOST_DECIMALS }
    requires below_one { units < 10 ^ places }
    ensures bytes { Writes (S.written sink.old) (S.written sink.new) pen.old pen.new result
        (point_text (decimals_text places units)) }
    ensures cause { HasCause (S.faults sink.old) (S.faults sink.new) result }
{
    if units == 0 {
        return Ok(());
    }
    pen.push(sink, b".")?;
    write_digits(places, units, pen, sink)
}

/// Writes decimals as long as anything is left for them.
fn write_digits<S: Sink>(places: u32, units: u64, pen: &mut Pen, sink: &mut S) -> Result<(), Failed>
    requires places { places ≤ MOST_DECIMALS }
    requires below_one { units < 10 ^ places }
    ensures bytes { Writes (S.written sink.old) (S.written sink.new) pen.old pen.new result
        (decimals_text places units) }
    ensures cause { HasCause (S.faults sink.old) (S.faults sink.new) result }
{
    let mut place = places;
    let mut left = units;
    while left > 0 {
        place -= 1;
        let unit = power_of_ten(place);
        pen.push(sink, &[b'0' + (left / unit) as u8])?;
        left %= unit;
    }
    Ok(())
}
