ghost use Rattle.std.specs.Prelude.{◌≡◌, ◌<◌, ◌≤◌, ◌^◌, ℕ, List, Option, Some, None, MatchOption, IfSome, is_some};
ghost use Rattle.poly_text.specs.Text.{letter};
ghost use Rattle.desk_io.specs.Characters.{is_digit};
ghost use Rattle.poly_text.specs.Reading.{number_from, begins_number, number_at, behind, exponent_at, joint_at, NoName, OnlyName};

use poly_model::{MOST_DEGREE, MOST_NUMBER, VarName};

fn is_digit(b: u8) -> bool
    ensures { result ≡ is_digit b }
{
    b'0' <= b && b <= b'9'
}

fn begins_number(text: &[u8]) -> bool
    ensures { result ≡ begins_number text.now }
{
    match text {
        [] => false,
        [b] => is_digit(*b),
        [b, c, ..] => is_digit(*b) && !(*b == b'0' && is_digit(*c)),
    }
}

/// The text behind a byte, if it stands first.
fn behind(byte: u8, text: &[u8]) -> Option<&[u8]>
    ensures { MatchOption result (behind byte text.now ≡ None) (λ rest. behind byte text.now
        ≡ Some rest.now) }
{
    match text {
        [b, rest @ ..] if *b == byte => Some(rest),
        _ => None,
    }
}

/// Below this value, a digit more leaves a number within 64 bits.
const SHORT: u64 = 1_000_000_000_000_000_000;

/// The number that stands first without a leading zero, as far as it is below `SHORT` before its last digit, and the text
/// behind those digits.
fn read_start(text: &[u8]) -> Option<(u64, &[u8])>
    ensures begins { begins_number text.now ≡ is_some result }
    ensures part { IfSome result (λ read. number_from 0 text.now
        ≡ number_from read.0 read.1.now) }
    ensures whole { IfSome result (λ read. read.0 < SHORT → number_from 0 text.now
        ≡ (read.0, read.1.now)) }
{
    if !begins_number(text) {
        return None;
    }
    let (first, behind) = text.split_first()?;
    let mut value = (*first - b'0') as u64;
    let mut rest = behind;
    while let Some((b, after)) = rest.split_first() {
        if value >= SHORT || !is_digit(*b) {
            break;
        }
        value = 10 * value + (*b - b'0') as u64;
        rest = after;
    }
    Some((value, rest))
}

/// The decimal number that stands first, without a leading zero and at most `most`, and the text behind it.
pub fn read_number(most: u128, text: &[u8]) -> Option<(u128, &[u8])>
    requires { most < 2 ^ 127 }
    ensures within { IfSome result (λ read. read.0 ≤ most) }
    ensures read { MatchOption result (number_at most text.now
        ≡ None) (λ read. number_at most text.now ≡ Some (read.0, read.1.now)) }
{
    let (start, behind) = read_start(text)?;
    let mut value = start as u128;
    let mut rest = behind;
    while let Some((b, after)) = rest.split_first() {
        if !is_digit(*b) {
            break;
        }
        value = value.saturating_mul(10).saturating_add((*b - b'0') as u128);
        rest = after;
    }
    if value > most {
        return None;
    }
    Some((value, rest))
}

/// The number of a variable or of an exponent that stands first, at most `most`, and the text behind it.
fn read_short(most: u8, text: &[u8]) -> Option<(u8, &[u8])>
    ensures within { IfSome result (λ read. read.0 ≤ most) }
    ensures read { MatchOption result (number_at most text.now
        ≡ None) (λ read. number_at most text.now ≡ Some (read.0, read.1.now)) }
{
    let (value, rest) = read_start(text)?;
    if value > most as u64 {
        return None;
    }
    Some((value as u8, rest))
}

/// The byte of a variable's kind.
pub fn letter(name: VarName) -> u8
    ensures { result ≡ letter name }
{
    match name {
        VarName::U(_) => b'u',
        VarName::X(_) => b'x',
    }
}

/// The name of the variable that stands first, and the text behind it.
fn read_name(text: &[u8]) -> Option<(VarName, &[u8])>
    ensures { MatchOption result (NoName (Some text.now)) (λ read. OnlyName read.0 read.1.now
        (Some text.now)) }
{
    let (letter, digits) = text.split_first()?;
    if *letter != b'u' && *letter != b'x' {
        return None;
    }
    let (n, rest) = read_short(MOST_NUMBER, digits)?;
    let name = if *letter == b'u' {
        VarName::U(n)
    } else {
        VarName::X(n)
    };
    Some((name, rest))
}

/// The name of the variable that stands first behind its joint, and the text behind it.
pub fn read_next_name(joined: bool, text: &[u8]) -> Option<(VarName, &[u8])>
    ensures { MatchOption result (NoName (joint_at joined text.now))
        (λ read. OnlyName read.0 read.1.now (joint_at joined text.now)) }
{
    let body = if joined { behind(b'*', text)? } else { text };
    read_name(body)
}

/// The exponent that stands first, 1 where none is written, and the text behind it.
pub fn read_exponent(text: &[u8]) -> Option<(u8, &[u8])>
    ensures { MatchOption result (exponent_at text.now ≡ None) (λ read. exponent_at text.now
        ≡ Some (read.0, read.1.now)) }
{
    let [b'^', digits @ ..] = text else {
        return Some((1, text));
    };
    let (e, rest) = read_short(MOST_DEGREE, digits)?;
    if e > 1 { Some((e, rest)) } else { None }
}
