// Whole square roots.
ghost use Rattle.std.specs.Prelude.{◌≡◌, ◌≤◌};
ghost use Rattle.edge_num.specs.Roots.{root, RootIsTheOne};

use crate::limits::MOST_ROOT;

/// The greatest whole number whose square is at most `n`.
#[tactic(auto, using(crate::proofs::Roots::is_root))]
pub fn isqrt(n: u128) -> u128
    ensures value { result ≡ root n }
    ensures size { result ≤ MOST_ROOT }
{
    n.isqrt()
}

/// For every number, `root` is the greatest one whose square is at most it, and nothing else is.
///
/// It computes nothing: its contract is the law, over numbers of any size.
pub fn root_is_the_one()
    ensures { RootIsTheOne }
{}
