ghost use Rattle.std.specs.Prelude.{◌≡◌, ◌<◌, ◌≤◌, ◌-◌, ◌↔◌, ℕ, List, IsTrue, Some, None, MatchOption, length, get_or, nat_lt, pos};
ghost use Rattle.std.specs.List.{list_any};
ghost use Rattle.poly_model.specs.Content.{signed_by};
ghost use Rattle.poly_model.specs.Standard.{entry_of};
ghost use Rattle.poly_text.specs.Text.{is_left_out};
ghost use Rattle.poly_text.specs.Reading.{Lacks, factors_at, term_at, sign_at, entry_at};

use crate::pieces::{read_exponent, read_next_name, read_number};
use poly_model::{MOST_SIZE, MOST_VARIABLES, Term, VarName, Vars};

fn has_variables(exps: &[u8; MOST_VARIABLES]) -> bool
    ensures { result ≡ list_any (λ e. nat_lt 0 e) exps.now }
{
    exps.iter().any(|e| 0 < *e)
}

/// A size is left out of the text: it is 1, and a variable follows.
pub fn is_left_out(size: u128, exps: &[u8; MOST_VARIABLES]) -> bool
    ensures { result ≡ is_left_out size exps.now }
{
    size == 1 && has_variables(exps)
}

fn is_same(name: VarName, other: VarName) -> bool
    ensures { IsTrue result ↔ (name ≡ other) }
{
    name == other
}

/// The first place of a variable from a place on. The n-th variable of a kind has n - 1 of its kind before it.
fn place_from(from: usize, name: VarName, vars: &Vars) -> Option<usize>
    ensures { MatchOption result (Lacks from (length vars.now) name vars.now) (λ place. (from
        ≤ place) × (place < length vars.now) × (get_or vars.now place name ≡ name)
        × Lacks from place name vars.now) }
{
    let before = (name.number() as usize).saturating_sub(1);
    for i in from.max(before)..vars.len() {
        if is_same(vars.at(i), name) {
            return Some(i);
        }
    }
    None
}

/// The exponents of all variables as the text begins, and the text behind their factors.
fn read_factors<'a>(vars: &Vars, joined: bool, text: &'a [u8]) -> ([u8; MOST_VARIABLES], &'a [u8])
    ensures { (result.0, result.1.now)
        ≡ factors_at (MOST_VARIABLES - length vars.now) joined vars.now text.now }
{
    prove!(vars.len() <= MOST_VARIABLES);
    let mut exps = [0; MOST_VARIABLES];
    let mut rest = text;
    let mut next = read_next_name(joined, text);
    let mut i = 0;
    while let Some((name, behind)) = next {
        let Some(place) = place_from(i, name, vars) else {
            return (exps, rest);
        };
        i = place + 1;
        let Some((e, after)) = read_exponent(behind) else {
            continue;
        };
        exps[place] = e;
        rest = after;
        next = read_next_name(true, after);
    }
    (exps, rest)
}

fn signed(negative: bool, size: u128) -> i128
    requires { size ≤ MOST_SIZE }
    ensures { result ≡ signed_by negative (pos size) }
{
    if negative {
        -(size as i128)
    } else {
        size as i128
    }
}

/// The term that stands first, behind its sign, and the text behind it.
fn read_term<'a>(vars: &Vars, negative: bool, text: &'a [u8]) -> Option<(Term, &'a [u8])>
    ensures { MatchOption result (term_at vars.now negative text.now
        ≡ None) (λ read. term_at vars.now negative text.now ≡ Some (entry_of read.0, read.1.now)) }
{
    let (written, size, behind) = match read_number(MOST_SIZE, text) {
        Some((size, behind)) => (true, size, behind),
        None => (false, 1, text),
    };
    let (exps, rest) = read_factors(vars, written, behind);
    if size == 0 || written == is_left_out(size, &exps) {
        return None;
    }
    let coef = signed(negative, size);
    Some((Term { coef, exps }, rest))
}

/// The sign of a term, true for a negative one, and the text behind it.
fn read_sign(first: bool, text: &[u8]) -> Option<(bool, &[u8])>
    ensures { MatchOption result (sign_at first text.now ≡ None) (λ read. sign_at first text.now
        ≡ Some (read.0, read.1.now)) }
{
    if first {
        return match text {
            [b'-', rest @ ..] => Some((true, rest)),
            _ => Some((false, text)),
        };
    }
    match text {
        [b' ', b'-', b' ', rest @ ..] => Some((true, rest)),
        [b' ', b'+', b' ', rest @ ..] => Some((false, rest)),
        _ => None,
    }
}

/// The term that stands first, with its sign, and the text behind it.
pub fn read_entry<'a>(first: bool, vars: &Vars, text: &'a [u8]) -> Option<(Term, &'a [u8])>
    ensures { MatchOption result (entry_at first vars.now text.now
        ≡ None) (λ read. entry_at first vars.now text.now ≡ Some (entry_of read.0, read.1.now)) }
{
    let (negative, rest) = read_sign(first, text)?;
    read_term(vars, negative, rest)
}
