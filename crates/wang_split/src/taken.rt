use proof_steps::{Reason, Step};

/// What a rule that is tried makes of the node that is worked on.
#[derive(Debug, Drop)]
pub enum Taken {
    Stepped(Step),
    Stopped(Reason),
}
