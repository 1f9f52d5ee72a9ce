// The call of the forms that check a log.
ghost use Rattle.std.specs.Prelude.{◌≡◌, ◌≤◌, ◌⊎◌, Some};
ghost use Rattle.std.specs.Option.{option_copied};
ghost use Rattle.desk_io.specs.Causes.{Rose};
ghost use Rattle.command_line.specs.Contract.{IsRun, IsCheckRun, IsQuiet, LacksOne, lent, views};
ghost use Rattle.command_line.specs.Headline.{Headline};
ghost use Rattle.command_line.specs.Run.{Answers};
ghost use Rattle.command_line.specs.Table.{IsAnswerOf, CheckOf, names_of};

use crate::checking::{fetch_log, put_found};
use crate::comparing::compare;
use crate::laws::a_yes_is_assured;
use crate::status::Status;
use desk_io::{Desk, Sink};
use poly_model::Domain;
use std::alloc::Global;

// Reads the log and checks it, and reads the file where one is named, before anything is said of either. The call below
// says what follows.
fn check_answered<D: Domain, K: Desk, S: Sink, N: Sink>(
    alloc: Global,
    domain: &D,
    log: &str,
    file: Option<&str>,
    desk: &mut K,
    out: &mut S,
    notes: &mut N,
) -> Status
    ensures answered { Answers (K.held desk.old) (Rose (K.faults desk.old) (K.faults desk.new))
        (names_of (Some (CheckOf log.now (option_copied file.entry))))
        (IsAnswerOf (Some (CheckOf log.now (option_copied file.entry))))
        (S.written out.old) (S.written out.new) (N.written notes.old) (N.written notes.new) result }
    ensures read_fault { result ≡ Status.ReadFault → Rose (K.faults desk.old) (K.faults desk.new)
        ⊎ LacksOne (K.held desk.old)
        (names_of (Some (CheckOf log.now (option_copied file.entry)))) }
    ensures write_fault { result ≡ Status.WriteFault
        → Rose (S.faults out.old) (S.faults out.new)
        ⊎ Rose (N.faults notes.old) (N.faults notes.new) }
    ensures untouched { IsQuiet result → out.new ≡ out.old }
    ensures unsaid { result ≡ Status.OutOfMemory → notes.new ≡ notes.old }
    ensures same { K.held desk.new ≡ K.held desk.old }
    ensures later { (K.faults desk.old ≤ K.faults desk.new) × (S.faults out.old ≤ S.faults out.new)
        × (N.faults notes.old ≤ N.faults notes.new) }
    ensures checked { IsCheckRun (option_copied file.entry) result }
{
    match fetch_log(alloc, domain, log, desk, notes) {
        Ok(found) => match file {
            Some(name) => compare(alloc, &found, name, desk, out, notes),
            None => put_found(alloc, &found, out, notes),
        },
        Err(status) => status,
    }
}

/// `check LOG` and `check LOG FILE`: writes the verdicts of a log that is accepted, and, where a file is named, has its
/// problems.
///
/// The log is read to its end, and then the file, before anything is said of either.
pub fn check_run<D: Domain, K: Desk, S: Sink, N: Sink>(
    alloc: Global,
    domain: &D,
    log: &str,
    file: Option<&str>,
    desk: &mut K,
    out: &mut S,
    notes: &mut N,
) -> Status
    ensures run { IsRun (views K.held K.faults S.written S.faults N.written N.faults)
        (lent desk.old out.old notes.old) (lent desk.new out.new notes.new)
        (Some (CheckOf log.now (option_copied file.entry))) result }
    ensures checked { IsCheckRun (option_copied file.entry) result }
    ensures headline { Headline D.operations (Some (CheckOf log.now (option_copied file.entry)))
        (K.held desk.old) (S.written out.old) (S.written out.new) result }
{
    a_yes_is_assured(domain);
    check_answered::<D, K, S, N>(alloc, domain, log, file, desk, out, notes)
}
