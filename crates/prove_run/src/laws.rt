ghost use Rattle.prove_run.specs.Rooms.{RoomsSuffice};
ghost use Rattle.prove_run.specs.Whole.{AcceptedIsWhole, LogsAreAccepted, LogsAreWhole};

/// The log of problems that a figure states is accepted, can be written, and has at most 256 MiB.
pub fn logs_of_problems_are_accepted()
    ensures accepted { LogsAreAccepted }
    ensures whole { LogsAreWhole }
{}

/// Each accepted log of such problems, whoever made it, can be written, and its text has at most 256 MiB.
pub fn accepted_logs_are_whole()
    ensures { AcceptedIsWhole }
{}

/// While a node is worked on, the region that it stands in answers no step of the work that it is full.
pub fn rooms_suffice()
    ensures { RoomsSuffice }
{}
