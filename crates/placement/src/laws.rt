// What placement keeps, over every domain.
ghost use Rattle.placement.specs.Carrying.{CarriedIsMet};
ghost use Rattle.placement.specs.Laws.{FlatCannotBePlaced, OneFreePointIsMoved, PlacementKeepsCommands, PlacementKeepsConstructions, PlacementKeepsStatements};

use poly_model::Domain;

/// A figure meets each command exactly if it does when it is placed.
pub fn placement_keeps_commands<D: Domain>(_domain: &D)
    ensures { PlacementKeepsCommands D.operations }
{}

/// It meets all that it constructs exactly if it does when it is placed.
pub fn placement_keeps_constructions<D: Domain>(_domain: &D)
    ensures { PlacementKeepsConstructions D.operations }
{}

/// It meets a statement exactly if it does when it is placed.
pub fn placement_keeps_statements<D: Domain>(_domain: &D)
    ensures { PlacementKeepsStatements D.operations }
{}

/// With one free point the places are only moved.
pub fn one_free_point_is_moved<D: Domain>(_domain: &D)
    ensures { OneFreePointIsMoved D.operations }
{}

/// Of whole numbers exactly the flat figures cannot be placed.
pub fn flat_figures_cannot_be_placed()
    ensures { FlatCannotBePlaced }
{}

/// Where a claim that is so tells of a figure that it holds, the figure meets the commands before the prove, and its statement.
pub fn carried_is_met()
    ensures { CarriedIsMet }
{}
