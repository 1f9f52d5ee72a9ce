// What the text of the equations is written from.
ghost use Rattle.std.specs.Prelude.{IsTrue};
ghost use Rattle.std.specs.List.{list_all};
ghost use Rattle.algebraize.specs.Formed.{is_own};

use algebraize::Problem;
use poly_model::Row;

/// The problems of a file's proves, in their order. Each has polynomials over its own variables alone.
#[derive(Drop)]
pub struct Asked {
    pub problems: Row<Problem>,
    ghost own: { IsTrue (list_all is_own problems) },
}
