//! Pictures: coloured shapes over an area, and the lines of text that writers put together from pieces.
#![tactic(auto)]

mod canvas;
mod drawing;
mod piece;
mod shape;

pub use drawing::draw;
pub use piece::{Measure, Piece, write_pieces};
pub use shape::{Ink, Picture, Shape};
