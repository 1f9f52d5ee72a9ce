// Figures of whole numbers, read from files.
ghost use Rattle.std.specs.Prelude.{◌≡◌, ◌+◌, ◌≤◌, ◌<◌, ◌^◌, [], length, IfOk, unsigned_abs};
ghost use Rattle.fixed_point.specs.Decimal.{fix_of};
ghost use Rattle.gcl_reader.specs.declared.limits.TheConstants.{MOST_BYTES, MOST_COORDINATE};
ghost use Rattle.gcl_reader.specs.Ahead.{ahead, token_of};
ghost use Rattle.gcl_reader.specs.Figure.{AreSmall, IsSmall, coordinate_at, end_at, figure_of, name_at, part_at, place_at, places_at, whole_in};
ghost use Rattle.gcl_reader.specs.Grammar.{Gives};

use crate::argument::refused;
use crate::lexer::{Lexeme, Lexer};
use crate::limits::{MOST_BYTES, MOST_COORDINATE, UNIT};
use crate::name::Name;
use crate::refusal::{GclFault, Kind, Refusal};
use fixed_point::read_fix;
use std::alloc::Global;

/// The next token of a figure.
#[tactic(auto, unfolding(crate::specs::Figure::part_at))]
fn part_at<'a>(lexer: &mut Lexer<'a>) -> Result<Lexeme<'a>, GclFault>
    ensures { Gives (λ t. (token_of t, ahead lexer.new)) result (part_at (ahead lexer.old)) }
{
    match lexer.next() {
        Ok(token) => Ok(token),
        Err(end) => Err(GclFault::Refused(end.span().refusal(Kind::BadFigure))),
    }
}

/// No token is left.
#[tactic(auto, unfolding(crate::specs::Figure::end_at))]
fn end_at(lexer: &mut Lexer<'_>) -> Result<(), GclFault>
    ensures { Gives (λ _. []) result (end_at (ahead lexer.old)) }
{
    match lexer.next() {
        Ok(token) => Err(GclFault::Refused(refused(Kind::BadFigure, token))),
        Err(_) => Ok(()),
    }
}

/// A number whose value is whole.
fn whole_in(token: Lexeme<'_>) -> Result<i64, Refusal>
    ensures value { result ≡ whole_in (token_of token.entry) (fix_of token.entry.text.now) }
    ensures size { IfOk result (λ n. unsigned_abs n ≤ MOST_COORDINATE) }
{
    let Ok(number) = read_fix(token.text) else {
        return Err(refused(Kind::BadFigure, token));
    };
    let millionths = number.millionths();
    if millionths % UNIT as i64 != 0 {
        return Err(refused(Kind::BadFigure, token));
    }
    Ok(millionths / UNIT as i64)
}

#[tactic(auto, unfolding(crate::specs::Figure::coordinate_at))]
fn coordinate_at(lexer: &mut Lexer<'_>) -> Result<i64, GclFault>
    ensures value { Gives (λ n. (n, ahead lexer.new)) result (coordinate_at (ahead lexer.old)) }
    ensures size { IfOk result (λ n. unsigned_abs n ≤ MOST_COORDINATE) }
{
    let token = part_at(lexer)?;
    match whole_in(token) {
        Ok(number) => Ok(number),
        Err(refusal) => Err(GclFault::Refused(refusal)),
    }
}

/// The next token, which is the name.
#[tactic(auto, unfolding(crate::specs::Figure::name_at))]
fn name_at(name: &Name, lexer: &mut Lexer<'_>) -> Result<(), GclFault>
    ensures { Gives (λ _. ahead lexer.new) result (name_at name.now (ahead lexer.old)) }
{
    let token = part_at(lexer)?;
    if token.text == name.bytes() {
        Ok(())
    } else {
        Err(GclFault::Refused(refused(Kind::BadFigure, token)))
    }
}

/// The place of the point of a name.
#[tactic(auto, unfolding(crate::specs::Figure::place_at))]
fn place_at(name: &Name, lexer: &mut Lexer<'_>) -> Result<(i64, i64), GclFault>
    ensures value { Gives (λ p. (p, ahead lexer.new)) result
        (place_at name.now (ahead lexer.old)) }
    ensures size { IfOk result (λ p. IsSmall MOST_COORDINATE p) }
{
    name_at(name, lexer)?;
    let first = coordinate_at(lexer)?;
    let second = coordinate_at(lexer)?;
    Ok((first, second))
}

/// The places of the points of these names, and then the end.
fn places_at(
    alloc: Global,
    names: &[Name],
    lexer: &mut Lexer<'_>,
) -> Result<Vec<(i64, i64)>, GclFault>
    ensures value { Gives (λ v. v.items) result (places_at names.now (ahead lexer.old)) }
    ensures size { IfOk result (λ v. AreSmall v.items) }
{
    let mut places = Vec::new(alloc);
    let mut rest = names;
    while let Some((name, after)) = rest.split_first() {
        let place = place_at(name, lexer)?;
        places.push(place)?;
        rest = after;
    }
    end_at(lexer)?;
    Ok(places)
}

/// Reads a figure of points with these names from a file of at most `MOST_BYTES` bytes, or refuses it at its first wrong token:
/// for each point its name and two whole numbers, in the separators and comments of the language.
pub fn read_figure(alloc: Global, names: &[Name], bytes: &[u8]) -> Result<Vec<(i64, i64)>, GclFault>
    requires { length bytes.now ≤ MOST_BYTES }
    ensures value { Gives (λ v. v.items) result (figure_of names.now bytes.now) }
    ensures size { IfOk result (λ v. AreSmall v.items) }
{
    let mut lexer = Lexer::new(bytes);
    places_at(alloc, names, &mut lexer)
}
