// How a run ends.
ghost use Rattle.std.specs.Prelude.{◌≡◌};
ghost use Rattle.std.specs.Process.{exit_status};
ghost use Rattle.command_line.specs.ExitCodes.{number_of};

use std::process::ExitCode;

/// How a run ended. The number of a variant is the program's exit status, from 0.
#[derive(Clone, Copy, Debug, PartialEq, Eq)]
pub enum Status {
    /// The text was written whole.
    Done,
    /// The text was written whole, and some statement was not proved.
    Unproved,
    /// A log is not one that the checker accepts.
    Rejected,
    /// The words are no form of the command line.
    Usage,
    /// A stage of the command refuses the file.
    Refused,
    /// A file could not be read.
    ReadFault,
    /// A put failed, and nothing was put after it.
    WriteFault,
    /// A file has more bytes than its limit.
    TooLarge,
    /// Memory ran out before the first put.
    OutOfMemory,
}

/// The exit code of a program that ends with the status.
pub fn exit_code(status: Status) -> ExitCode
    ensures { exit_status result ≡ number_of status }
{
    ExitCode::from(status as u8)
}
