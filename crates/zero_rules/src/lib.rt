//! What the rules of elimination keep of the zeros of a node, over every domain.
#![tactic(auto)]

mod laws;

pub use laws::{
    clash_has_no_zeros, close_has_no_zeros, drop_keeps_zeros, red_keeps_zeros, rules_keep_zeros,
    split_keeps_zeros, steps_keep_zeros, tail_keeps_zeros,
};
