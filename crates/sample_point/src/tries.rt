// Points that are tried on the system of a leaf.
ghost use Rattle.std.specs.Prelude.{◌≡◌, ◌≢◌, ◌≤◌, ◌<◌, ◌+◌, ◌/◌, ◌+ℤ◌, ◌*ℤ◌, neg_ℤ, pos, option_map, unsigned_abs, find, IfOk, IfSome, IsTrue, ◌==◌};
ghost use Rattle.std.specs.List.{list_all};
ghost use Rattle.std.specs.Option.{option_copied};
ghost use Rattle.poly_model.specs.Content.{gcd, quotient_of, signed_by};
ghost use Rattle.poly_model.specs.Reduction.{class_of};
ghost use Rattle.poly_model.specs.Standard.{is_bounded};
ghost use Rattle.poly_model.specs.declared.limits.TheConstants.{MOST_VARIABLES};
ghost use Rattle.sample_point.specs.Sampling.{free_number, with_value, with_free, all_scaled, rescaled, over_divisor, with_ratio, with_equation, with_next, with_all, no_values, point_of, first_point};
ghost use Rattle.sample_point.specs.Seen.{partial_of};

use crate::evaluation::product_in;
use crate::parts::{class_number, coefficient_value, degree_at, rest_value};
use crate::tests_of_points::succeeds;
use crate::values::Values;
use edge_num::gcd;
use poly_model::OwnedPoly;
use proof_steps::{Piece, Problem};
use std::alloc::{AllocError, Global};

/// How many points are tried.
pub const MOST_TRIES: u32 = 32;

/// What the j-th try chooses for the i-th variable where it has no equation.
fn free_number(j: u32, i: u8) -> i128
    requires j { j ≤ MOST_TRIES }
    requires i { i ≤ MOST_VARIABLES }
    ensures value { result ≡ free_number j i }
    ensures size { IsTrue (is_bounded result) }
{
    let i = u32::from(i);
    (1 + (i * i + 3 * i * j) % 29) as i128
}

/// One more value.
fn with_value(value: i128, values: Values) -> Result<Values, AllocError>
    requires { IsTrue (is_bounded value) }
    ensures { IfOk result (λ v. partial_of v ≡ with_value value (partial_of values)) }
{
    let Values { mut numbers, scale } = values;
    numbers.push(value)?;
    Ok(Values { numbers, scale })
}

/// A variable that is chosen.
fn with_free(j: u32, i: u8, values: Values) -> Result<Option<Values>, AllocError>
    requires j { j ≤ MOST_TRIES }
    requires i { i ≤ MOST_VARIABLES }
    ensures value { IfOk result (λ r. option_map partial_of r ≡ with_free j i (partial_of values)) }
{
    match product_in(free_number(j, i), values.scale) {
        Some(number) => Ok(Some(with_value(number, values)?)),
        None => Ok(None),
    }
}

/// Numbers times another, where none passes the greatest size.
fn all_scaled(alloc: Global, d: i128, numbers: &[i128]) -> Result<Option<Vec<i128>>, AllocError>
    requires d { IsTrue (is_bounded d) }
    requires numbers { IsTrue (list_all is_bounded numbers.now) }
    ensures value { IfOk result (λ r. option_map (λ v. v.items) r ≡ all_scaled d numbers.now) }
    ensures size { IfOk result (λ r. IfSome r (λ v. IsTrue (list_all is_bounded v.items))) }
{
    let mut scaled = Vec::new(alloc);
    let mut rest = numbers;
    while let [v, after @ ..] = rest {
        let Some(w) = product_in(d, *v) else {
            return Ok(None);
        };
        scaled.push(w)?;
        rest = after;
    }
    Ok(Some(scaled))
}

/// All values so far, scaled.
fn rescaled(alloc: Global, d: i128, values: &Values) -> Result<Option<Values>, AllocError>
    requires { IsTrue (is_bounded d) }
    ensures { IfOk result (λ r. option_map partial_of r ≡ rescaled d (partial_of values.now)) }
{
    let Some(numbers) = all_scaled(alloc, d, &values.numbers)? else {
        return Ok(None);
    };
    let Some(scale) = product_in(d, values.scale) else {
        return Ok(None);
    };
    Ok(Some(Values { numbers, scale }))
}

fn size_of(n: i128) -> u128
    ensures { result ≡ unsigned_abs n }
{
    n.unsigned_abs()
}

/// The greatest common divisor of the sizes.
fn common_divisor(d: i128, n: i128) -> u128
    ensures value { result ≡ gcd (unsigned_abs d) (unsigned_abs n) }
    ensures some { d ≢ pos 0 → 0 < result }
{
    let size = size_of(d);
    let other = size_of(n);
    gcd(size, other)
}

/// The size of a number, divided.
fn scaling(d: i128, divisor: u128) -> i128
    requires divisor { 0 < divisor }
    requires d { IsTrue (is_bounded d) }
    ensures value { result ≡ pos (unsigned_abs d / divisor) }
    ensures size { IsTrue (is_bounded result) }
{
    (size_of(d) / divisor) as i128
}

/// A number, divided, with its sign turned where so.
fn divided(n: i128, turned: bool, divisor: u128) -> i128
    requires divisor { 0 < divisor }
    requires n { IsTrue (is_bounded n) }
    ensures value { result ≡ signed_by turned (quotient_of n divisor) }
    ensures size { IsTrue (is_bounded result) }
{
    let size = (n.unsigned_abs() / divisor) as i128;
    if (n < 0) == turned { size } else { -size }
}

/// A variable that is n/d, with a divisor of both.
fn over_divisor(
    alloc: Global,
    n: i128,
    d: i128,
    divisor: u128,
    values: &Values,
) -> Result<Option<Values>, AllocError>
    requires divisor { 0 < divisor }
    requires n { IsTrue (is_bounded n) }
    requires d { IsTrue (is_bounded d) }
    ensures { IfOk result (λ r. option_map partial_of r
        ≡ over_divisor n d divisor (partial_of values.now)) }
{
    match rescaled(alloc, scaling(d, divisor), values)? {
        Some(scaled) => Ok(Some(with_value(divided(n, d < 0, divisor), scaled)?)),
        None => Ok(None),
    }
}

/// A variable that is n/d.
fn with_ratio(
    alloc: Global,
    n: i128,
    d: i128,
    values: &Values,
) -> Result<Option<Values>, AllocError>
    requires n { IsTrue (is_bounded n) }
    requires d { IsTrue (is_bounded d) }
    ensures { IfOk result (λ r. option_map partial_of r
        ≡ with_ratio n d (partial_of values.now)) }
{
    if d == 0 {
        return Ok(None);
    }
    over_divisor(alloc, n, d, common_divisor(d, n), values)
}

/// A variable with an equation.
fn with_equation(
    alloc: Global,
    f: &OwnedPoly,
    i: u8,
    values: &Values,
) -> Result<Option<Values>, AllocError>
    requires class { class_of f.now ≡ i }
    requires some { 0 < i }
    requires i { i ≤ MOST_VARIABLES }
    ensures value { IfOk result (λ r. option_map partial_of r
        ≡ with_equation f.now (partial_of values.now)) }
{
    let place = i - 1;
    if degree_at(f, place) != 1 {
        return Ok(None);
    }
    let Some(initial) = coefficient_value(f, place, 1, &values.numbers) else {
        return Ok(None);
    };
    let Some(tail) = rest_value(f, place, 1, &values.numbers) else {
        return Ok(None);
    };
    with_ratio(alloc, -tail, initial, values)
}

/// The equation of a class.
fn of_class(equations: &[OwnedPoly], i: u8) -> Option<&OwnedPoly>
    ensures { option_copied result ≡ find (λ f. class_of f == i) equations.now }
{
    equations.iter().find(|f| class_number(f) == i)
}

/// The i-th variable.
fn with_next(
    alloc: Global,
    equations: &[OwnedPoly],
    j: u32,
    i: u8,
    values: Values,
) -> Result<Option<Values>, AllocError>
    requires j { j ≤ MOST_TRIES }
    requires some { 0 < i }
    requires i { i ≤ MOST_VARIABLES }
    ensures value { IfOk result (λ r. option_map partial_of r
        ≡ with_next equations.now j i (partial_of values)) }
{
    match of_class(equations, i) {
        None => with_free(j, i, values),
        Some(f) => with_equation(alloc, f, i, &values),
    }
}

/// So many variables from the i-th on, behind those before it.
#[tactic(auto, unfolding(crate::specs::Sampling::with_all))]
fn with_all(
    alloc: Global,
    equations: &[OwnedPoly],
    j: u32,
    i: u8,
    left: u8,
    values: Values,
) -> Result<Option<Values>, AllocError>
    requires j { j ≤ MOST_TRIES }
    requires some { 0 < i }
    requires left { i + left ≤ MOST_VARIABLES + 1 }
    ensures { IfOk result (λ r. option_map partial_of r
        ≡ with_all equations.now j i left (partial_of values)) }
{
    if left == 0 {
        return Ok(Some(values));
    }
    let Some(next) = with_next(alloc, equations, j, i, values)? else {
        return Ok(None);
    };
    with_all(alloc, equations, j, i + 1, left - 1, next)
}

/// Before the first variable.
fn no_values(alloc: Global) -> Values
    ensures { partial_of result ≡ no_values }
{
    Values {
        numbers: Vec::new(alloc),
        scale: 1,
    }
}

/// The point of a try, where it succeeds.
fn point_of(
    alloc: Global,
    problem: &Problem,
    leaf: &Piece,
    j: u32,
) -> Result<Option<Values>, AllocError>
    requires { j ≤ MOST_TRIES }
    ensures { IfOk result (λ r. option_map (λ v. v.numbers.items) r
        ≡ point_of problem.now leaf.now j) }
{
    let count = problem.vars.len() as u8;
    let Some(values) = with_all(alloc, leaf.eqs.as_slice(), j, 1, count, no_values(alloc))? else {
        return Ok(None);
    };
    if succeeds(problem, leaf.nes.as_slice(), &values.numbers) {
        Ok(Some(values))
    } else {
        Ok(None)
    }
}

/// The point of the first of so many tries, from the j-th on, that succeeds.
#[tactic(auto, unfolding(crate::specs::Sampling::first_point))]
pub fn first_point(
    alloc: Global,
    problem: &Problem,
    leaf: &Piece,
    j: u32,
    left: u32,
) -> Result<Option<Values>, AllocError>
    requires { j + left ≤ MOST_TRIES + 1 }
    ensures { IfOk result (λ r. option_map (λ v. v.numbers.items) r
        ≡ first_point problem.now leaf.now j left) }
{
    if left == 0 {
        return Ok(None);
    }
    match point_of(alloc, problem, leaf, j)? {
        Some(values) => Ok(Some(values)),
        None => first_point(alloc, problem, leaf, j + 1, left - 1),
    }
}
