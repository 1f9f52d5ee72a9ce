//! Figures that are not placed as the claims say, carried to where they are.
#![tactic(auto)]

mod carried;
mod frame;
mod image;
mod laws;

pub use carried::{Carried, carry};
pub use image::{Image, MOST_IMAGE, image_of};
pub use laws::{
    carried_is_met, flat_figures_cannot_be_placed, one_free_point_is_moved,
    placement_keeps_commands, placement_keeps_constructions, placement_keeps_statements,
};
