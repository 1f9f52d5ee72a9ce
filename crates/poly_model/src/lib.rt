//! Polynomials with whole coefficients, their lists of terms within fixed limits, and their values in domains.
#![tactic(auto)]

mod domain;
mod laws;
mod limits;
mod owned;
mod row;
mod term;
mod vars;

pub use domain::{Domain, Gaussian, Integers};
pub use laws::{
    bounded_results_are_the_usual_ones, bounded_results_are_within_the_limits, divisions_are_exact,
    evaluation_is_a_homomorphism, one_list_for_each_map, operations_are_the_usual_ones,
    operations_keep_to_their_variables, parts_make_the_polynomial, primitive_parts_are_primitive,
    primitive_parts_keep_zeros, reductions_keep_zeros,
};
pub use limits::{
    ARITH_UNITS, EXPAND_UNITS, LEAF_UNITS, Limit, MOST_CONCLUSIONS, MOST_CONDITIONS, MOST_DEGREE,
    MOST_EQUATIONS, MOST_FUEL, MOST_HYPOTHESES, MOST_LETTERS, MOST_LOG_BYTES, MOST_NUMBER,
    MOST_SIZE, MOST_TERMS, MOST_VARIABLES, POLY_UNITS, ROW_UNITS, Reason, STEP_UNITS,
};
pub use owned::OwnedPoly;
pub use row::Row;
pub use term::{Term, are_low, are_standard, compare_monomials, eight_exponents, exponents_sum};
pub use vars::{VarName, Vars};
