// What the text of a picture is written from.
ghost use Rattle.std.specs.Prelude.{length};
ghost use Rattle.picture.specs.OneProof.{drawn-prop};
ghost use Rattle.picture.specs.Shapes.{IsDrawable};

use fixed_point::Row;
use gcl_reader::Name;
use picture::Picture;

/// A picture that can be drawn, with the names of its points.
#[derive(Drop)]
pub struct Drawn {
    pub picture: Picture,
    pub names: Row<Name>,
    ghost drawable: { IsDrawable (length names) picture } by { drawn-prop (length names) picture },
}
