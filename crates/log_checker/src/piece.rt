// Where the lines of a piece stand.
ghost use Rattle.std.specs.Prelude.{◌≡◌, true, map};
ghost use Rattle.poly_model.specs.Reduction.{class_of};
ghost use Rattle.proof_steps.specs.Rules.{is_triangular};

use crate::ending::Ending;
use poly_model::{OwnedPoly, Reason, Row};
use proof_steps::Node;

/// The equations and conditions of a leaf, which are listed as far as these numbers.
#[derive(Debug, Drop)]
pub struct Lists {
    pub eqs: Row<OwnedPoly>,
    pub nes: Row<OwnedPoly>,
    pub eqs_listed: usize,
    pub nes_listed: usize,
}

/// A triangular system: the classes of its equations, the conclusions as far as they are reduced, of which the first ones
/// are done, and the fuel that is left.
#[derive(Debug, Drop)]
pub struct System {
    pub lists: Lists,
    pub classes: Vec<u8>,
    pub cons: Row<OwnedPoly>,
    pub done: usize,
    pub fuel: u32,
    pub ghost triangular: { is_triangular lists.eqs lists.nes ≡ true },
    pub ghost classed: { classes.items ≡ map class_of lists.eqs },
}

/// Where the lines of a piece stand: at a node behind some steps, at a system, at a leaf where the work stops, behind a
/// split, or at the end of a leaf.
#[derive(Debug, Drop)]
pub enum Inside {
    At(Node),
    Solving(System),
    Stopped(Lists, Reason),
    Parted {
        plus: Node,
        minus: Node,
        gain: OwnedPoly,
    },
    Ended(Ending),
}
