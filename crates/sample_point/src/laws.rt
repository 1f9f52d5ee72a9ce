ghost use Rattle.sample_point.specs.Generic.{ConditionsAreKnown, ConditionsHold};
ghost use Rattle.sample_point.specs.Holding.{FoundsShow, ProvedIsNotRefuted, ValuesAreRight};

use poly_model::Domain;

/// The conditions of a verdict are among those of the generic leaf, where that is listed.
pub fn conditions_are_of_the_generic_leaf<D: Domain>(_domain: &D)
    ensures known { ConditionsAreKnown }
    ensures hold { ConditionsHold D.operations }
{}

/// What is found of a valid tree is shown by its point, over the whole numbers.
pub fn found_points_show()
    ensures values { ValuesAreRight }
    ensures shown { FoundsShow }
    ensures proved { ProvedIsNotRefuted }
{}
