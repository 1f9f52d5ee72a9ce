// What is found of a log whose problems are to be those of a file, and the answer to it.
ghost use Rattle.std.specs.Prelude.{◌≡◌, ◌≤◌, ◌⊎◌, [], ◌∷◌, length};
ghost use Rattle.desk_io.specs.Causes.{Rose};
ghost use Rattle.desk_io.specs.Files.{Lacks};
ghost use Rattle.gcl_names.specs.Sound.{IsSound};
ghost use Rattle.gcl_reader.specs.declared.limits.TheConstants.{MOST_BYTES};
ghost use Rattle.algebraize.specs.Problem.{problems_of};
ghost use Rattle.command_line.specs.Checking.{stated_in};
ghost use Rattle.command_line.specs.Contract.{IsQuiet};
ghost use Rattle.command_line.specs.Found.{HoldsOwn, Compares, IsAnswerBehind, IsAnswerFor};
ghost use Rattle.command_line.specs.Run.{Answers, GivesOne};
ghost use Rattle.command_line.specs.Statuses.{IsReadingFault, IsComparingStatus};
ghost use Rattle.command_line.specs.Table.{OfSources, source};

use crate::checking::{Found, put_found};
use crate::stage::{fetch, refuse, say};
use crate::status::Status;
use algebraize::problems;
use desk_io::{Desk, Sink};
use gcl_names::{Program, resolve};
use gcl_reader::{GclFault, MOST_BYTES, read};
use log_checker::check_against;
use std::alloc::Global;

/// Whether the log has the problems of a program, if it is accepted.
pub fn has_problems(alloc: Global, found: &Found, program: &Program) -> Result<bool, GclFault>
    requires { IsSound program.now }
    ensures { Compares found.now result (problems_of program.now.acts) }
{
    match found {
        Found::Accepted(checked) => check_against(alloc, checked, program),
        // The program is still to be one whose problems can be stated.
        Found::Malformed(_) | Found::Rejected(_, _) => {
            problems(alloc, program)?;
            Ok(true)
        }
    }
}

// Whether it has the problems of a file.
#[tactic(auto, unfolding(crate::specs::Checking::stated_in))]
fn has_problems_of(alloc: Global, found: &Found, bytes: &[u8]) -> Result<bool, GclFault>
    requires { length bytes.now ≤ MOST_BYTES }
    ensures { Compares found.now result (stated_in bytes.now) }
{
    let file = read(alloc, bytes)?;
    let program = resolve(alloc, &file)?;
    has_problems(alloc, found, &program)
}

// Answers what is found of a log that is to have the problems of a file's bytes.
fn put_compared<S: Sink, N: Sink>(
    alloc: Global,
    found: &Found,
    bytes: &[u8],
    out: &mut S,
    notes: &mut N,
) -> Status
    requires own { HoldsOwn found.now }
    requires file { length bytes.now ≤ MOST_BYTES }
    ensures ends { GivesOne (IsAnswerFor (stated_in bytes.now) bytes.now found.now)
        (S.written out.old) (S.written out.new) (N.written notes.old) (N.written notes.new) result }
    ensures write_fault { result ≡ Status.WriteFault
        → Rose (S.faults out.old) (S.faults out.new)
        ⊎ Rose (N.faults notes.old) (N.faults notes.new) }
    ensures status { IsComparingStatus result }
    ensures untouched { IsQuiet result → out.new ≡ out.old }
    ensures unsaid { result ≡ Status.OutOfMemory → notes.new ≡ notes.old }
    ensures later { (S.faults out.old ≤ S.faults out.new)
        × (N.faults notes.old ≤ N.faults notes.new) }
{
    match has_problems_of(alloc, found, bytes) {
        Ok(true) => put_found(alloc, found, out, notes),
        Ok(false) => say(b"rejected: other problems\n", Status::Rejected, notes),
        Err(GclFault::Refused(refusal)) => refuse(alloc, bytes, refusal, notes),
        Err(GclFault::OutOfMemory) => Status::OutOfMemory,
    }
}

/// Reads the file whose problems a log is to have, and answers what is found of the log.
pub fn compare<K: Desk, S: Sink, N: Sink>(
    alloc: Global,
    found: &Found,
    name: &str,
    desk: &mut K,
    out: &mut S,
    notes: &mut N,
) -> Status
    requires { HoldsOwn found.now }
    ensures answered { Answers (K.held desk.old) (Rose (K.faults desk.old) (K.faults desk.new))
        (name.now ∷ []) (OfSources (source name.now MOST_BYTES ∷ []) (IsAnswerBehind found.now))
        (S.written out.old) (S.written out.new) (N.written notes.old) (N.written notes.new) result }
    ensures read_fault { result ≡ Status.ReadFault
        → Rose (K.faults desk.old) (K.faults desk.new) ⊎ Lacks (K.held desk.old) name.now }
    ensures write_fault { result ≡ Status.WriteFault
        → Rose (S.faults out.old) (S.faults out.new)
        ⊎ Rose (N.faults notes.old) (N.faults notes.new) }
    ensures status { IsReadingFault result ⊎ IsComparingStatus result }
    ensures untouched { IsQuiet result → out.new ≡ out.old }
    ensures unsaid { result ≡ Status.OutOfMemory → notes.new ≡ notes.old }
    ensures same { K.held desk.new ≡ K.held desk.old }
    ensures later { (K.faults desk.old ≤ K.faults desk.new) × (S.faults out.old ≤ S.faults out.new)
        × (N.faults notes.old ≤ N.faults notes.new) }
{
    match fetch(alloc, name, MOST_BYTES, desk, notes) {
        Ok(bytes) => put_compared(alloc, found, &bytes, out, notes),
        Err(status) => status,
    }
}
