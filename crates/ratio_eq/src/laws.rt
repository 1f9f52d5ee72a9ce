ghost use Rattle.ratio_eq.specs.Laws.{ConclusionsMean, BoundedIsUsual};

use poly_model::Domain;

/// The conclusion of an equality of two terms is zero at a point exactly where the places with the values there meet the
/// equality: where the fractions are equal, or a square by which a term divides is zero.
pub fn conclusions_mean_their_ratios<D: Domain>(_domain: &D)
    ensures { ConclusionsMean D.operations }
{}

/// Where no limit is met, the conclusion is the usual one, and is within the limits.
pub fn bounded_conclusions_are_the_usual_ones()
    ensures { BoundedIsUsual }
{}
