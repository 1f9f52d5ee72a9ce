ghost use Rattle.std.specs.Prelude.{◌≡◌, ◌+◌, ◌-◌, ◌*◌, ◌≤◌, ◌<◌, ◌^◌, ℕ, ℤ, pos, length, min, IsTrue, IfSome, Ok, Err};
ghost use Rattle.std.specs.List.{list_all};
ghost use Rattle.fixed_point.specs.Decimal.{is_number, is_negative, unsigned_of, point_in, whole_at, decimals_at, value_from, millionths, signed, fix_of_parts, fix_of};
ghost use Rattle.desk_io.specs.Characters.{is_digit};

use crate::fault::NumberFault;
use crate::fix::Fix;
use crate::limits::{MOST_DECIMALS, MOST_MILLIONTHS};
use crate::power::power_of_ten;

/// Where reading a long text stops counting: ten times the greatest size in millionths.
const CAP: u64 = 10 * MOST_MILLIONTHS;

fn is_digit(b: u8) -> bool
    ensures { result ≡ is_digit b }
{
    b'0' <= b && b <= b'9'
}

fn all_digits(text: &[u8]) -> bool
    ensures { result ≡ list_all is_digit text.now }
{
    text.iter().all(|b| is_digit(*b))
}

/// The number that digits spell behind a number, or the cap where it passes that.
#[tactic(auto, using(crate::proofs::Capped::capped), unfolding(crate::specs::Decimal::value_from))]
fn value_up_to_cap(start: u64, digits: &[u8]) -> u64
    requires digits { IsTrue (list_all is_digit digits.now) }
    requires start { start ≤ CAP }
    ensures { result ≡ min (value_from start digits.now) CAP }
{
    let mut value = start;
    let mut rest = digits;
    while let [b, after @ ..] = rest {
        value = (10 * value + (*b - b'0') as u64).min(CAP);
        rest = after;
    }
    value
}

/// The text behind a sign, and whether that is a minus.
fn split_sign(text: &[u8]) -> (bool, &[u8])
    ensures negative { result.0 ≡ is_negative text.now }
    ensures rest { result.1.now ≡ unsigned_of text.now }
{
    match text {
        [b'-', rest @ ..] => (true, rest),
        [b'+', rest @ ..] => (false, rest),
        _ => (false, text),
    }
}

fn point_in(text: &[u8]) -> Option<usize>
    ensures within { IfSome result (λ i. i < length text.now) }
    ensures place { result ≡ point_in text.now }
{
    text.iter().position(|b| *b == b'.')
}

/// The text up to a point, and the text behind it.
fn split_point(text: &[u8]) -> (&[u8], &[u8])
    ensures whole { result.0.now ≡ whole_at (point_in text.now) text.now }
    ensures decimals { result.1.now ≡ decimals_at (point_in text.now) text.now }
{
    match point_in(text) {
        Some(i) => (&text[..i], &text[i + 1..]),
        None => (text, &[]),
    }
}

/// The size of a number in millionths, or more than the greatest.
#[tactic(auto, using(crate::proofs::Capped::capped))]
fn size_of_parts(whole: &[u8], decimals: &[u8]) -> u64
    requires whole { IsTrue (list_all is_digit whole.now) }
    requires decimals { IsTrue (list_all is_digit decimals.now) }
    requires short { length decimals.now ≤ MOST_DECIMALS }
    ensures { result ≡ min (value_from (value_from 0 whole.now) decimals.now) CAP
        * 10 ^ (MOST_DECIMALS - length decimals.now) }
{
    let value = value_up_to_cap(value_up_to_cap(0, whole), decimals);
    value * power_of_ten(MOST_DECIMALS - decimals.len() as u32)
}

fn is_number(whole: &[u8], decimals: &[u8]) -> bool
    ensures { result ≡ is_number whole.now decimals.now }
{
    all_digits(whole) && all_digits(decimals) && !(whole.is_empty() && decimals.is_empty())
}

fn signed(negative: bool, size: u64) -> Fix
    requires { size ≤ MOST_MILLIONTHS }
    ensures { result ≡ signed negative size }
{
    if negative {
        Fix::from_millionths(-(size as i64))
    } else {
        Fix::from_millionths(size as i64)
    }
}

/// The number that the two sides of a point spell.
fn fix_of_parts(negative: bool, whole: &[u8], decimals: &[u8]) -> Result<Fix, NumberFault>
    ensures { result ≡ fix_of_parts negative whole.now decimals.now }
{
    if !is_number(whole, decimals) {
        return Err(NumberFault::NotNumber);
    }
    if decimals.len() > MOST_DECIMALS as usize {
        return Err(NumberFault::TooLong);
    }
    let size = size_of_parts(whole, decimals);
    if size > MOST_MILLIONTHS {
        return Err(NumberFault::TooFar);
    }
    Ok(signed(negative, size))
}

/// The number that a text spells: a sign or none, and decimal digits with a point or none among or beside them.
///
/// The form is judged first, then the count of decimals, then the size; each has a fault of its own.
pub fn read_fix(text: &[u8]) -> Result<Fix, NumberFault>
    ensures { result ≡ fix_of text.now }
{
    let (negative, body) = split_sign(text);
    let (whole, decimals) = split_point(body);
    fix_of_parts(negative, whole, decimals)
}
