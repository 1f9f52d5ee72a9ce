// Where a name stands beside its spot.
ghost use Rattle.std.specs.Prelude.{◌≡◌, ◌≤◌, ◌*◌, unsigned_abs};
ghost use Rattle.circle_cut.specs.Sizes.{IsNear};
ghost use Rattle.svg_out.specs.Sides.{anchor_of, moved, offset_of};

use fixed_point::{MOST_TICKS, Spot};
use gcl_reader::Side;

/// The end of a name that stands at its place, as the attribute `text-anchor` has it.
pub fn anchor_of(side: Side) -> &'static [u8]
    ensures { result.now ≡ anchor_of side }
{
    match side {
        Side::Centre | Side::T | Side::B => b"middle",
        Side::L | Side::Lt | Side::Lb => b"end",
        Side::R | Side::Rt | Side::Rb => b"start",
    }
}

// A spot that is so far from another.
fn moved(a: &Spot, x: i64, y: i64) -> Spot
    requires near { IsNear a.now }
    requires x { unsigned_abs x ≤ 40000 }
    requires y { unsigned_abs y ≤ 40000 }
    ensures value { result ≡ moved a.now (record { x = x; y = y }) }
    ensures size { unsigned_abs result.y ≤ 2 * MOST_TICKS }
{
    Spot {
        x: a.x + x,
        y: a.y + y,
    }
}

/// The place of a name at a side of a spot.
pub fn name_place(a: &Spot, side: Side) -> Spot
    requires near { IsNear a.now }
    ensures value { result ≡ moved a.now (offset_of side) }
    ensures size { unsigned_abs result.y ≤ 2 * MOST_TICKS }
{
    match side {
        Side::Centre => moved(a, 0, -14_000),
        Side::L => moved(a, -10_000, -14_000),
        Side::R => moved(a, 10_000, -14_000),
        Side::T => moved(a, 0, 10_000),
        Side::B => moved(a, 0, -40_000),
        Side::Lt => moved(a, -10_000, 10_000),
        Side::Lb => moved(a, -10_000, -40_000),
        Side::Rt => moved(a, 10_000, 10_000),
        Side::Rb => moved(a, 10_000, -40_000),
    }
}
