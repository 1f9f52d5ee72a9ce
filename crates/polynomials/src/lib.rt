//! Exact arithmetic of polynomials in a store, within limits.
#![tactic(auto)]

mod change;
mod contents;
mod copies;
mod degrees;
mod exponents;
mod groups;
mod halves;
mod key;
mod laws;
mod parts;
mod poly;
mod powers;
mod product;
mod reads;
mod rows;
mod sums;

pub use contents::prim;
pub use copies::{copy_in, copy_out};
pub use degrees::{degrees_fit, mul};
pub use key::{Key, pack};
pub use laws::{keys_are_in_order, keys_of_products_are_sums};
pub use parts::{coefficient, copy, initial, shift, tail};
pub use poly::Poly;
pub use powers::{low, strip};
pub use reads::{class, degree, greatest, same};
pub use sums::{add, sub};
