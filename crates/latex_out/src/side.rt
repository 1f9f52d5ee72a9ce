// Where a name stands beside its spot.
ghost use Rattle.std.specs.Prelude.{◌≡◌, ◌≤◌, unsigned_abs};
ghost use Rattle.circle_cut.specs.Sizes.{IsNear};
ghost use Rattle.latex_out.specs.Sides.{corner_of, moved, offset_of};

use fixed_point::Spot;
use gcl_reader::Side;

/// The corner of a name that stands at its place, as an option of `\makebox`.
pub fn corner_of(side: Side) -> &'static [u8]
    ensures { result.now ≡ corner_of side }
{
    match side {
        Side::Centre => b"",
        Side::L => b"[r]",
        Side::R => b"[l]",
        Side::T => b"[b]",
        Side::B => b"[t]",
        Side::Lt => b"[rb]",
        Side::Lb => b"[rt]",
        Side::Rt => b"[lb]",
        Side::Rb => b"[lt]",
    }
}

// A spot that is so far from another.
fn moved(a: &Spot, x: i64, y: i64) -> Spot
    requires near { IsNear a.now }
    requires x { unsigned_abs x ≤ 10000 }
    requires y { unsigned_abs y ≤ 10000 }
    ensures { result ≡ moved a.now (record { x = x; y = y }) }
{
    Spot {
        x: a.x + x,
        y: a.y + y,
    }
}

/// The place of a name at a side of a spot.
pub fn name_place(a: &Spot, side: Side) -> Spot
    requires near { IsNear a.now }
    ensures { result ≡ moved a.now (offset_of side) }
{
    match side {
        Side::Centre => moved(a, 0, 0),
        Side::L => moved(a, -10_000, 0),
        Side::R => moved(a, 10_000, 0),
        Side::T => moved(a, 0, 10_000),
        Side::B => moved(a, 0, -10_000),
        Side::Lt => moved(a, -10_000, 10_000),
        Side::Lb => moved(a, -10_000, -10_000),
        Side::Rt => moved(a, 10_000, 10_000),
        Side::Rb => moved(a, 10_000, -10_000),
    }
}
