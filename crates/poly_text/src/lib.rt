//! The text of polynomials, both ways: each polynomial has one spelling, and what is printed is read again.
#![tactic(auto)]

mod fault;
mod laws;
mod pieces;
mod printing;
mod reading;
mod room;
mod terms;

pub use fault::PolyFault;
pub use laws::{texts_are_plain, texts_are_unique};
pub use pieces::read_number;
pub use printing::{print_poly, write_variable};
pub use reading::read_poly;
