// What is found of a log, and the answer to it.
ghost use Rattle.std.specs.Prelude.{◌≡◌, ◌≤◌, ◌⊎◌, List, ℕ, [], ◌∷◌, IfOk, IfErr, OnOk, IsErrOf, Option};
ghost use Rattle.desk_io.specs.Bytes.{Puts, Writes};
ghost use Rattle.desk_io.specs.Causes.{HasCause, Rose};
ghost use Rattle.desk_io.specs.Files.{Lacks};
ghost use Rattle.poly_model.specs.declared.limits.TheConstants.{MOST_LOG_BYTES};
ghost use Rattle.command_line.specs.Answer.{only_notes, text_answer};
ghost use Rattle.command_line.specs.Checking.{rejected_line, assured_text};
ghost use Rattle.command_line.specs.Contract.{IsQuiet};
ghost use Rattle.command_line.specs.Found.{WasFound, HoldsOwn, AreOver, answer_of};
ghost use Rattle.command_line.specs.Readings.{first_of};
ghost use Rattle.command_line.specs.Run.{Answers, Ends};
ghost use Rattle.command_line.specs.Statuses.{IsReadingFault, IsCheckingStatus};
ghost use Rattle.command_line.specs.Table.{OfFileAlone};
ghost use Rattle.command_line.specs.VerdictLines.{verdicts_text};

use crate::note::rejection_of;
use crate::stage::say;
use crate::status::Status;
use crate::verdict_lines::write_verdict_line;
use desk_io::{Desk, Failed, Pen, Sink};
use log_checker::{CheckFault, Checked, check_log};
use poly_model::Domain;
use proof_log::{LineWord, word_text};
use proof_steps::Problem;
use std::alloc::Global;
use verdicts::Verdict;

/// What is found of a log that was read to its end. Lines are counted from 1.
#[derive(Drop)]
pub enum Found {
    Accepted(Checked),
    /// The lines before this one fit; it is not in the grammar, or is missing.
    Malformed(u32),
    /// The lines before this one fit; it begins with the word, and does not.
    Rejected(u32, LineWord),
}

/// Reads a log once, to its end, and checks it, or says why it is not read: at an `Err` the run is over, whatever was to follow.
pub fn fetch_log<D: Domain, K: Desk, N: Sink>(
    alloc: Global,
    domain: &D,
    name: &str,
    desk: &mut K,
    notes: &mut N,
) -> Result<Found, Status>
    ensures found { IfOk result (WasFound (K.held desk.old) name.now) }
    ensures own { IfOk result HoldsOwn }
    ensures untouched { OnOk result (notes.new ≡ notes.old) }
    ensures over { IfErr result (λ status. (out : Option (List ℕ))
        → Answers (K.held desk.old) (Rose (K.faults desk.old) (K.faults desk.new)) (name.now ∷ [])
        (λ readings a. OfFileAlone MOST_LOG_BYTES (first_of readings) a)
        out out (N.written notes.old) (N.written notes.new) status) }
    ensures fault { IfErr result IsReadingFault }
    ensures unsaid { IsErrOf result Status.OutOfMemory → notes.new ≡ notes.old }
    ensures read_fault { IsErrOf result Status.ReadFault
        → Rose (K.faults desk.old) (K.faults desk.new) ⊎ Lacks (K.held desk.old) name.now }
    ensures write_fault { IsErrOf result Status.WriteFault
        → Rose (N.faults notes.old) (N.faults notes.new) }
    ensures same { K.held desk.new ≡ K.held desk.old }
    ensures later { (K.faults desk.old ≤ K.faults desk.new)
        × (N.faults notes.old ≤ N.faults notes.new) }
{
    match check_log(alloc, domain, desk, name) {
        Ok(checked) => Ok(Found::Accepted(checked)),
        Err(CheckFault::Malformed(line)) => Ok(Found::Malformed(line)),
        Err(CheckFault::Rejected(line, word)) => Ok(Found::Rejected(line, word)),
        Err(CheckFault::ReadFault) => Err(say(b"read fault\n", Status::ReadFault, notes)),
        Err(CheckFault::TooLarge) => Err(say(b"too large\n", Status::TooLarge, notes)),
        Err(CheckFault::OutOfMemory) => Err(Status::OutOfMemory),
    }
}

/// Says at which line the log is at fault.
pub fn say_rejected<N: Sink>(alloc: Global, line: u32, word: &[u8], notes: &mut N) -> Status
    ensures ends { (out : Option (List ℕ))
        → Ends (only_notes Status.Rejected (rejected_line line word.now))
        out out (N.written notes.old) (N.written notes.new) result }
    ensures status { (result ≡ Status.Rejected) ⊎ (result ≡ Status.WriteFault)
        ⊎ (result ≡ Status.OutOfMemory) }
    ensures write_fault { result ≡ Status.WriteFault
        → Rose (N.faults notes.old) (N.faults notes.new) }
    ensures unsaid { result ≡ Status.OutOfMemory → notes.new ≡ notes.old }
    ensures later { N.faults notes.old ≤ N.faults notes.new }
{
    match rejection_of(alloc, line, word) {
        Ok(note) => say(&note, Status::Rejected, notes),
        Err(_) => Status::OutOfMemory,
    }
}

// Writes a line for each problem and its verdict.
fn write_verdicts<S: Sink>(
    problems: &[Problem],
    verdicts: &[Verdict],
    pen: &mut Pen,
    out: &mut S,
) -> Result<(), Failed>
    requires { AreOver problems.now verdicts.now }
    ensures bytes { Writes (S.written out.old) (S.written out.new) pen.old pen.new result
        (verdicts_text problems.now verdicts.now) }
    ensures cause { HasCause (S.faults out.old) (S.faults out.new) result }
{
    let mut number = 1;
    let mut left = problems;
    let mut told = verdicts;
    while let Some((problem, others)) = left.split_first() {
        let Some((verdict, more)) = told.split_first() else {
            return Ok(());
        };
        write_verdict_line(number, &problem.vars, verdict, pen, out)?;
        number += 1;
        left = others;
        told = more;
    }
    Ok(())
}

// Writes the lines of the verdicts, and that they are assured. It takes no memory.
fn write_assured<S: Sink>(checked: &Checked, pen: &mut Pen, out: &mut S) -> Result<(), Failed>
    requires { AreOver checked.now.problems checked.now.verdicts }
    ensures bytes { Writes (S.written out.old) (S.written out.new) pen.old pen.new result
        (assured_text checked.now.problems checked.now.verdicts) }
    ensures cause { HasCause (S.faults out.old) (S.faults out.new) result }
{
    write_verdicts(
        checked.problems.as_slice(),
        checked.verdicts.as_slice(),
        pen,
        out,
    )?;
    pen.push(out, b"assured\n")
}

// Puts them whole, with a pen that has gathered nothing.
fn put_verdicts<S: Sink>(checked: &Checked, mut pen: Pen, out: &mut S) -> Result<(), Failed>
    requires pen { pen ≡ [] }
    requires own { AreOver checked.now.problems checked.now.verdicts }
    ensures bytes { Puts (S.written out.old) (S.written out.new) result
        (assured_text checked.now.problems checked.now.verdicts) }
    ensures cause { HasCause (S.faults out.old) (S.faults out.new) result }
{
    match write_assured(checked, &mut pen, out) {
        Ok(()) => pen.close(out),
        Err(failed) => {
            pen.give_up();
            Err(failed)
        }
    }
}

// Puts the verdicts of an accepted log, which is all that the run says.
fn put_assured<S: Sink>(alloc: Global, checked: &Checked, out: &mut S) -> Status
    requires { AreOver checked.now.problems checked.now.verdicts }
    ensures ends { (notes : Option (List ℕ))
        → Ends (text_answer (assured_text checked.now.problems checked.now.verdicts))
        (S.written out.old) (S.written out.new) notes notes result }
    ensures status { (result ≡ Status.Done) ⊎ (result ≡ Status.WriteFault)
        ⊎ (result ≡ Status.OutOfMemory) }
    ensures write_fault { result ≡ Status.WriteFault → Rose (S.faults out.old) (S.faults out.new) }
    ensures untouched { result ≡ Status.OutOfMemory → out.new ≡ out.old }
    ensures later { S.faults out.old ≤ S.faults out.new }
{
    let Ok(pen) = Pen::open(alloc) else {
        return Status::OutOfMemory;
    };
    match put_verdicts(checked, pen, out) {
        Ok(()) => Status::Done,
        Err(_) => Status::WriteFault,
    }
}

/// Answers what is found of a log.
pub fn put_found<S: Sink, N: Sink>(
    alloc: Global,
    found: &Found,
    out: &mut S,
    notes: &mut N,
) -> Status
    requires { HoldsOwn found.now }
    ensures ends { Ends (answer_of found.now)
        (S.written out.old) (S.written out.new) (N.written notes.old) (N.written notes.new) result }
    ensures write_fault { result ≡ Status.WriteFault
        → Rose (S.faults out.old) (S.faults out.new)
        ⊎ Rose (N.faults notes.old) (N.faults notes.new) }
    ensures status { IsCheckingStatus result }
    ensures untouched { IsQuiet result → out.new ≡ out.old }
    ensures unsaid { result ≡ Status.OutOfMemory → notes.new ≡ notes.old }
    ensures later { (S.faults out.old ≤ S.faults out.new)
        × (N.faults notes.old ≤ N.faults notes.new) }
{
    match found {
        Found::Accepted(checked) => put_assured(alloc, checked, out),
        Found::Malformed(line) => say_rejected(alloc, *line, b"malformed", notes),
        Found::Rejected(line, word) => say_rejected(alloc, *line, word_text(*word), notes),
    }
}
