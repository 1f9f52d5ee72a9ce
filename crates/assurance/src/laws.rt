ghost use Rattle.assurance.specs.Assured.{TalliesTell, TreesCover, VerdictsHold, TreesKeepVariables};

use poly_model::Domain;

/// The leaves of a valid tree cover its root: a point is a zero of all hypotheses exactly if it satisfies the equations
/// of some listed leaf under its conditions.
pub fn trees_cover<D: Domain>(_domain: &D)
    ensures { TreesCover D.operations }
{}

/// The verdict of a valid tree holds: where it is proved, or proved under conditions, the conclusions are zero at each
/// zero of the hypotheses at which no condition is zero.
pub fn verdicts_hold<D: Domain>(_domain: &D)
    ensures { VerdictsHold D.operations }
{}

/// Where only the first `n` variables occur in a problem, only they occur in its valid trees and their verdicts.
pub fn trees_keep_to_their_variables()
    ensures { TreesKeepVariables }
{}

/// The tally of the pieces of a valid tree tells the verdict of the tree.
pub fn tallies_tell_verdicts()
    ensures { TalliesTell }
{}
