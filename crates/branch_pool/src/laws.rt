//! The steps of passes keep the rule of a lane's deque.
ghost use Rattle.branch_pool.specs.Steps.{PushKeeps, TakeKeeps, SplitKeeps, JoinKeeps};

/// Each kind of step keeps the rule. A pop and a steal take the first item alike.
pub fn steps_keep_the_rule<I>()
    ensures push { PushKeeps I }
    ensures take { TakeKeeps I }
    ensures split { SplitKeeps I }
    ensures join { JoinKeeps I }
{}
