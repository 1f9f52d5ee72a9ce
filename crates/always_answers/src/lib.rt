//! Bodies of a call of the command line that always answer the same, refused by name: each law says that no call that keeps its
//! promise answers so where it is asked to show the empty file.
#![tactic(auto)]

mod laws;

pub use laws::{
    always_read_fault, always_refused, always_rejected, always_too_large, always_unproved,
    always_usage, always_write_fault,
};
