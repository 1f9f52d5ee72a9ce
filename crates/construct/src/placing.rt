// The positions of a program's points.
ghost use Rattle.std.specs.Prelude.{◌≡◌, ◌≤◌, nat_le, unsigned_abs};
ghost use Rattle.gcl_reader.specs.Grammar.{Gives};
ghost use Rattle.gcl_names.specs.Sound.{IsSound};
ghost use Rattle.fixed_point.specs.declared.limits.TheConstants.{MOST_TICKS};
ghost use Rattle.circle_cut.specs.Places.{rounded};
ghost use Rattle.circle_cut.specs.Sizes.{IsExact};
ghost use Rattle.construct.specs.Made.{Uses, IsFit};
ghost use Rattle.construct.specs.Placing.{put_spot, put_semi_free, put_two, put, put_made, after_act, spots_of};
ghost use Rattle.construct.specs.Spots.{positions_of};

use crate::construction::Construction;
use crate::made::{Made, made_by};
use crate::spots::Spots;
use circle_cut::{Exact, coordinates};
use edge_num::Whole;
use fixed_point::{MOST_TICKS, Spot};
use gcl_names::{Act, Program};
use gcl_reader::{GclFault, Kind};
use std::alloc::Global;

fn is_near(n: Whole) -> bool
    ensures { result ≡ nat_le (unsigned_abs n) MOST_TICKS }
{
    n.value().unsigned_abs() <= MOST_TICKS as u128
}

// The spot of two coordinates that are near.
fn spot_of(x: Whole, y: Whole) -> Spot
    requires { (unsigned_abs x ≤ MOST_TICKS) × (unsigned_abs y ≤ MOST_TICKS) }
    ensures { result ≡ record { x = x; y = y } }
{
    Spot {
        x: x.value() as i64,
        y: y.value() as i64,
    }
}

// One more point, which must be near.
#[tactic(auto, unfolding(crate::specs::Placing::put_spot))]
fn put_spot(act: &Act, x: Whole, y: Whole, f: &mut Construction) -> Result<(), GclFault>
    ensures { Gives (λ _. f.new) result (put_spot act.now (record { x = x; y = y }) f.old) }
{
    if !is_near(x) || !is_near(y) {
        return Err(GclFault::Refused(act.span().refusal(Kind::OutOfRange)));
    }
    f.add_point(spot_of(x, y))?;
    Ok(())
}

// One more point, which must be near, and is semi-free.
#[tactic(auto, unfolding(crate::specs::Placing::put_spot, crate::specs::Placing::put_semi_free))]
fn put_semi_free(act: &Act, x: Whole, y: Whole, f: &mut Construction) -> Result<(), GclFault>
    ensures { Gives (λ _. f.new) result (put_semi_free act.now (record { x = x; y = y }) f.old) }
{
    if !is_near(x) || !is_near(y) {
        return Err(GclFault::Refused(act.span().refusal(Kind::OutOfRange)));
    }
    f.add_semi_free(spot_of(x, y))?;
    Ok(())
}

fn put_place(act: &Act, e: &Exact, f: &mut Construction) -> Result<(), GclFault>
    requires { IsExact e.now }
    ensures { Gives (λ _. f.new) result (put_spot act.now (rounded e.now) f.old) }
{
    let place = coordinates(e);
    put_spot(act, place.x, place.y, f)
}

fn put_semi_free_place(act: &Act, e: &Exact, f: &mut Construction) -> Result<(), GclFault>
    requires { IsExact e.now }
    ensures { Gives (λ _. f.new) result (put_semi_free act.now (rounded e.now) f.old) }
{
    let place = coordinates(e);
    put_semi_free(act, place.x, place.y, f)
}

#[tactic(auto, unfolding(crate::specs::Placing::put_two))]
fn put_two(act: &Act, s: &Spot, t: &Spot, f: &mut Construction) -> Result<(), GclFault>
    ensures { Gives (λ _. f.new) result (put_two act.now s.now t.now f.old) }
{
    put_spot(act, Whole::new(s.x as i128), Whole::new(s.y as i128), f)?;
    put_spot(act, Whole::new(t.x as i128), Whole::new(t.y as i128), f)
}

// What is made, put to the rest.
#[tactic(auto, unfolding(crate::specs::Placing::put))]
fn put(act: &Act, made: Made, f: &mut Construction) -> Result<(), GclFault>
    requires { IsFit made }
    ensures { Gives (λ _. f.new) result (put act.now made f.old) }
{
    match made {
        Made::Nothing => Ok(()),
        Made::Point(e) => put_place(act, &e, f),
        Made::SemiFree(e) => put_semi_free_place(act, &e, f),
        Made::Points(s, t) => put_two(act, &s, &t, f),
        Made::Line(l) => {
            f.add_line(l)?;
            Ok(())
        }
        Made::Circle(k) => {
            f.add_circle(k)?;
            Ok(())
        }
    }
}

// What an act makes, put to the rest.
#[tactic(auto, unfolding(crate::specs::Placing::put_made))]
fn place_act(act: &Act, f: &mut Construction) -> Result<(), GclFault>
    requires { Uses f.old act.now.deed }
    ensures { Gives (λ _. f.new) result (after_act act.now f.old) }
{
    match made_by(&act.deed, f) {
        Ok(made) => put(act, made, f),
        Err(kind) => Err(GclFault::Refused(act.span().refusal(kind))),
    }
}

/// The positions of a program's points, and its lines and circles.
///
/// It is refused at the word of the first command that cannot be placed: `NoMeet` where two lines, or a circle and what
/// is to cut it, do not meet; `SamePoints` where a line is to go between two points that are one; `OutOfRange` where a
/// new point passes `MOST_TICKS`.
pub fn place(alloc: Global, program: &Program) -> Result<Spots, GclFault>
    requires { IsSound program.now }
    ensures { Gives positions_of result (spots_of program.now.acts) }
{
    let mut f = Construction::new(alloc);
    let acts = program.acts.as_slice();
    for act in acts {
        place_act(act, &mut f)?;
    }
    Ok(f.into_spots())
}
