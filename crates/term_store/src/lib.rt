//! Lists of terms in one memory, each by its slot: what code over a store may rely on, and a store that grows.
#![tactic(auto)]

mod calls;
mod seats;
mod space;
mod store;
mod vec_store;

pub use store::{Slot, StoreFault, TermStore};
pub use vec_store::VecStore;
