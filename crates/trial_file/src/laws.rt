ghost use Rattle.std.specs.Prelude.{◌≡◌, codes};
ghost use Rattle.trial_file.specs.Accepted.{TrialsAreAccepted};
ghost use Rattle.trial_file.specs.Draws.{next};
ghost use Rattle.trial_file.specs.Trial.{trial_text};

/// The file of each number is accepted: it has a program, and each of its proves has a problem.
pub fn trial_files_are_accepted()
    ensures { TrialsAreAccepted }
{}

/// The definitions give the first file as it was worked by hand, from these four draws.
pub fn first_trial_is_as_worked()
    ensures first { next 0 ≡ 12345 }
    ensures second { next 12345 ≡ 1406932606 }
    ensures third { next 1406932606 ≡ 654583775 }
    ensures fourth { next 654583775 ≡ 1449466924 }
    ensures file { trial_text 0 ≡ codes
        "point A0 0 0\npoint A1 60 0\npoint A2 20 50\nmidpoint A3 A0 A1\nprove { collinear A0 A1 A3 }\n" }
{}
