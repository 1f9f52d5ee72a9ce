//! Lists of terms in one pool of a fixed size. After it is opened, no call takes memory.
#![tactic(auto)]

mod calls;
mod moving;
mod region;
mod run;
mod seats;

pub use region::TermRegion;
