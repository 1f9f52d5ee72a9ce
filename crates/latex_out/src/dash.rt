// The parts of a dashed segment.
ghost use Rattle.std.specs.Prelude.{◌≡◌, ◌≤◌, ◌<◌, ◌*◌, ◌+◌};
ghost use Rattle.circle_cut.specs.Sizes.{IsNear};
ghost use Rattle.latex_out.specs.Dashes.{length_of, gaps_in, division};

use circle_cut::{MOST_SPAN, Vector, over, round};
use edge_num::Whole;
use fixed_point::{MOST_TICKS, Spot};

/// A dash and a gap of a long segment are about so many ticks, 2 mm.
pub(crate) const PERIOD: u128 = 20_000;

/// The most gaps of a segment.
pub(crate) const MOST_GAPS: u32 = 199;

// The most parts of a segment.
pub(crate) const MOST_PARTS: u64 = 399;

#[tactic(auto, unfolding(crate::specs::Dashes::length_of))]
fn length_of(a: &Spot, b: &Spot) -> u128
    requires near { IsNear a.now × IsNear b.now }
    ensures { result ≡ length_of a.now b.now }
{
    Vector::way(a, b)
        .sq::<MOST_SPAN>()
        .root()
        .value()
        .unsigned_abs()
}

/// How many gaps a dashed segment has.
pub fn gaps_in(a: &Spot, b: &Spot) -> u32
    requires near { IsNear a.now × IsNear b.now }
    ensures value { result ≡ gaps_in (length_of a.now b.now) }
    ensures most { result ≤ MOST_GAPS }
{
    (length_of(a, b) / PERIOD).min(MOST_GAPS as u128) as u32
}

/// The spot after `j` of `m` equal parts of the way from one spot to another.
#[tactic(auto, unfolding(crate::specs::Dashes::division))]
pub fn division(j: u32, m: u32, a: &Spot, b: &Spot) -> Spot
    requires near { IsNear a.now × IsNear b.now }
    requires some { 0 < m }
    requires most { m ≤ MOST_PARTS }
    requires within { j ≤ m }
    ensures { result ≡ division j m a.now b.now }
{
    let parts = Whole::new(m as i128);
    let from = Vector::position(a).scaled::<MOST_PARTS, MOST_TICKS>(parts);
    let along = Vector::way(a, b).scaled::<MOST_PARTS, MOST_SPAN>(Whole::new(j as i128));
    round(&over(parts, &from.plus(&along)))
}
