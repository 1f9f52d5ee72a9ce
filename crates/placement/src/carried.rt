// What the claim of a prove tells of a figure of whole numbers.
ghost use Rattle.std.specs.Prelude.{◌≡◌, IfOk, IsTrue};
ghost use Rattle.std.specs.List.{list_all};
ghost use Rattle.poly_model.specs.Standard.{is_bounded};
ghost use Rattle.gcl_reader.specs.Figure.{AreSmall};
ghost use Rattle.gcl_names.specs.Sound.{IsSound};
ghost use Rattle.placement.specs.Carrying.{carried_of, told_at, told_of};
ghost use Rattle.placement.specs.Images.{image_of};

use crate::image::{Image, image_of};
use gcl_names::Program;
use poly_model::OwnedPoly;
use proof_steps::Problem;
use sample_point::{all_other, all_valued, all_zero};
use std::alloc::{AllocError, Global};
use verdicts::Verdict;

/// What the claim of a prove tells of a figure: the first that applies.
#[derive(Clone, Copy, Debug, PartialEq, Eq)]
pub enum Carried {
    /// The verdict claims nothing.
    NoClaim,
    /// The first two free points are at one place.
    Flat,
    /// Some value would pass the greatest size.
    Past,
    /// The figure does not meet the commands before the prove.
    NoFigure,
    /// It meets them, and the claim does not speak of it, since a polynomial of its conditions is 0 there.
    SideCondition,
    /// It meets them, and the claim speaks of it.
    Holds,
}

/// What a claim tells of the figure that comes to stand at a point.
fn told_at(hyps: &[OwnedPoly], conditions: &[OwnedPoly], point: &[i128]) -> Carried
    requires { IsTrue (list_all is_bounded point.now) }
    ensures { result ≡ told_at hyps.now conditions.now point.now }
{
    if !(all_valued(point, hyps) && all_valued(point, conditions)) {
        return Carried::Past;
    }
    if !all_zero(point, hyps) {
        return Carried::NoFigure;
    }
    if all_other(point, conditions) {
        Carried::Holds
    } else {
        Carried::SideCondition
    }
}

/// What a claim under these conditions tells of a figure.
fn claimed(
    alloc: Global,
    program: &Program,
    prove: u32,
    figure: &[(i64, i64)],
    problem: &Problem,
    conditions: &[OwnedPoly],
) -> Result<Carried, AllocError>
    requires sound { IsSound program.now }
    requires small { AreSmall figure.now }
    ensures { IfOk result (λ c. c ≡ told_of problem.now.hyps conditions.now
        (image_of program.now.acts prove figure.now)) }
{
    match image_of(alloc, program, prove, figure)? {
        Image::Flat => Ok(Carried::Flat),
        Image::Point(point) => Ok(told_at(problem.hyps.as_slice(), conditions, point.as_slice())),
    }
}

/// What the verdict of a prove, counted from 0, on its problem tells of a figure of whole numbers.
///
/// The statement itself is not evaluated: what follows where the answer is `Holds` is said by `carried_is_met`.
pub fn carry(
    alloc: Global,
    program: &Program,
    prove: u32,
    figure: &[(i64, i64)],
    problem: &Problem,
    verdict: &Verdict,
) -> Result<Carried, AllocError>
    requires sound { IsSound program.now }
    requires small { AreSmall figure.now }
    ensures { IfOk result (λ c. c
        ≡ carried_of program.now.acts prove figure.now problem.now verdict.now) }
{
    match verdict {
        Verdict::Proved => claimed(alloc, program, prove, figure, problem, &[]),
        Verdict::Under(conditions) => {
            claimed(
                alloc,
                program,
                prove,
                figure,
                problem,
                conditions.as_slice(),
            )
        }
        Verdict::NotProved { .. } | Verdict::Degenerate(_) | Verdict::Left { .. } => {
            Ok(Carried::NoClaim)
        }
    }
}
