// A picture that is being drawn.
ghost use Rattle.std.specs.Prelude.{◌≡◌, All, OnOk};
ghost use Rattle.picture.specs.Drawing.{blank, with_shape};
ghost use Rattle.picture.specs.Shapes.{IsNearby, IsNamed, IsWritten};

use crate::shape::{Ink, Shape};
use fixed_point::Row;
use std::alloc::{AllocError, Global};
use std::marker::Model;

/// The colour of what follows, and the shapes so far, over the names of so many points.
///
/// Contracts see the number of names and the sketch. All shapes can be written.
#[derive(Debug, Drop)]
pub struct Canvas {
    names: usize,
    ink: Ink,
    shapes: Vec<(Ink, Shape)>,
}

impl Model for Canvas {
    ghost use Rattle.std.specs.Prelude.{ℕ, All};
    ghost use Rattle.picture.specs.Drawing.{Sketch};
    ghost use Rattle.picture.specs.Shapes.{IsWritten};

    ghost Value = { ℕ × Sketch };

    ghost view = { λ p. (p.names, record { ink = p.ink; shapes = p.shapes.items }) };

    ghost invariant = { λ p. All (IsWritten p.names) p.shapes.items };
}

impl Canvas {
    /// A canvas without a shape, whose colour is black.
    pub fn new(alloc: Global, names: usize) -> Canvas
        ensures { result ≡ (names, blank) }
    {
        Canvas {
            names,
            ink: Ink { r: 0, g: 0, b: 0 },
            shapes: Vec::new(alloc),
        }
    }

    /// Takes a colour for what follows.
    pub fn set_ink(&mut self, ink: Ink)
        ensures { self.new ≡ (self.old.0, record self.old.1 { ink = ink }) }
    {
        self.ink = ink;
    }

    /// One more shape, in the colour of the moment.
    #[tactic(auto, using(crate::proofs::Sketches::one_more))]
    pub fn add(&mut self, shape: Shape) -> Result<(), AllocError>
        requires near { IsNearby shape }
        requires named { IsNamed self.old.0 shape }
        ensures { OnOk result (self.new ≡ (self.old.0, with_shape shape self.old.1)) }
    {
        self.shapes.push((self.ink, shape))?;
        Ok(())
    }

    /// The shapes, to be kept.
    pub fn into_shapes(self) -> Row<(Ink, Shape)>
        ensures value { result ≡ self.1.shapes }
        ensures written { All (IsWritten self.0) result }
    {
        Row::from_vec(self.shapes)
    }
}
