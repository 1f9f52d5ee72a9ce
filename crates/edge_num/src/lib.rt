//! Exact whole-number results: sums and products in bounds, rounded quotients, common divisors, square roots.
#![tactic(auto)]

mod bounded;
mod divisor;
mod limits;
mod quotient;
mod root;
mod whole;

pub use bounded::{add_in, mul_in};
pub use divisor::gcd;
pub use limits::{MOST_DIVIDEND, MOST_DIVISOR, MOST_ROOT, MOST_SIZE, MOST_TERM};
pub use quotient::{nearest_is_the_one, round_div};
pub use root::{isqrt, root_is_the_one};
pub use whole::{Whole, times};
