// What a log, a file and a figure say together, once all three are read.
ghost use Rattle.std.specs.Prelude.{◌≡◌, ◌≤◌, ◌⊎◌, ◌↔◌, List, ℕ, Option, IfOk, IsTrue, length};
ghost use Rattle.desk_io.specs.Causes.{Rose};
ghost use Rattle.gcl_reader.specs.Figure.{AreSmall, figure_of};
ghost use Rattle.gcl_reader.specs.declared.limits.TheConstants.{MOST_BYTES};
ghost use Rattle.gcl_names.specs.Sound.{IsSound};
ghost use Rattle.gcl_names.specs.declared.limits.TheConstants.{MOST_PROVES};
ghost use Rattle.algebraize.specs.Equations.{Equations};
ghost use Rattle.command_line.specs.Carrying.{posed_in};
ghost use Rattle.command_line.specs.CarryStages.{AreFew, IsCarriedFound, IsDrawnFor, IsPosed, IsToldFor, posed};
ghost use Rattle.command_line.specs.Contract.{IsQuiet};
ghost use Rattle.command_line.specs.Found.{Has};
ghost use Rattle.command_line.specs.Run.{Ends, GivesOne};
ghost use Rattle.command_line.specs.Statuses.{IsComparingStatus};
ghost use Rattle.command_line.specs.Answer.{text_answer};
ghost use Rattle.command_line.specs.Carrying.{carried_text};

use crate::carried_lines::{carry_all, put_lines};
use crate::checking::{Found, say_rejected};
use crate::comparing::has_problems;
use crate::stage::{refuse, say};
use crate::status::Status;
use desk_io::Sink;
use gcl_names::{Program, resolve};
use gcl_reader::{GclFault, read, read_figure};
use log_checker::Checked;
use proof_log::word_text;
use std::alloc::Global;

// The program of a file, and whether a log has the problems of its proves, if it is accepted.
#[tactic(auto, unfolding(crate::specs::Carrying::posed_in))]
fn read_posed(alloc: Global, found: &Found, bytes: &[u8]) -> Result<(Program, bool), GclFault>
    requires { length bytes.now ≤ MOST_BYTES }
    ensures posed { IsPosed found.now result (posed_in bytes.now) }
    ensures sound { IfOk result (λ r. IsSound r.0) }
    ensures few { IfOk result (λ r. IsTrue r.1 → AreFew found.now) }
{
    let file = read(alloc, bytes)?;
    let program = resolve(alloc, &file)?;
    let has = has_problems(alloc, found, &program)?;
    Ok((program, has))
}

// Puts what the verdicts of an accepted log tell of a figure, which is all that the run says.
fn put_accepted<S: Sink>(
    alloc: Global,
    checked: &Checked,
    program: &Program,
    places: &[(i64, i64)],
    out: &mut S,
) -> Status
    requires sound { IsSound program.now }
    requires small { AreSmall places.now }
    requires few { length checked.now.problems ≤ MOST_PROVES }
    ensures ends { (notes : Option (List ℕ))
        → Ends (text_answer (carried_text program.now.acts places.now
        checked.now.problems checked.now.verdicts))
        (S.written out.old) (S.written out.new) notes notes result }
    ensures status { (result ≡ Status.Done) ⊎ (result ≡ Status.WriteFault)
        ⊎ (result ≡ Status.OutOfMemory) }
    ensures write_fault { result ≡ Status.WriteFault → Rose (S.faults out.old) (S.faults out.new) }
    ensures untouched { result ≡ Status.OutOfMemory → out.new ≡ out.old }
    ensures later { S.faults out.old ≤ S.faults out.new }
{
    let problems = checked.problems.as_slice();
    let Ok(all) = carry_all(
        alloc,
        program,
        places,
        problems,
        checked.verdicts.as_slice(),
    ) else {
        return Status::OutOfMemory;
    };
    put_lines(alloc, &all, out)
}

// Answers what is found of a log, whether it has the problems of the program, and a figure of its points.
fn put_told<S: Sink, N: Sink>(
    alloc: Global,
    found: &Found,
    program: &Program,
    has: bool,
    places: &[(i64, i64)],
    out: &mut S,
    notes: &mut N,
) -> Status
    requires sound { IsSound program.now }
    requires small { AreSmall places.now }
    requires few { IsTrue has → AreFew found.now }
    ensures ends { (stated : List Equations) → (IsTrue has ↔ Has stated found.now)
        → GivesOne (IsToldFor (posed program.now stated) places.now found.now)
        (S.written out.old) (S.written out.new) (N.written notes.old) (N.written notes.new) result }
    ensures write_fault { result ≡ Status.WriteFault
        → Rose (S.faults out.old) (S.faults out.new)
        ⊎ Rose (N.faults notes.old) (N.faults notes.new) }
    ensures status { IsComparingStatus result }
    ensures untouched { IsQuiet result → out.new ≡ out.old }
    ensures unsaid { (result ≡ Status.Done) ⊎ (result ≡ Status.OutOfMemory)
        → notes.new ≡ notes.old }
    ensures later { (S.faults out.old ≤ S.faults out.new)
        × (N.faults notes.old ≤ N.faults notes.new) }
{
    if !has {
        return say(b"rejected: other problems\n", Status::Rejected, notes);
    }
    match found {
        Found::Accepted(checked) => put_accepted(alloc, checked, program, places, out),
        Found::Malformed(line) => say_rejected(alloc, *line, b"malformed", notes),
        Found::Rejected(line, word) => say_rejected(alloc, *line, word_text(*word), notes),
    }
}

// The same, of the bytes of a figure.
fn put_drawn<S: Sink, N: Sink>(
    alloc: Global,
    found: &Found,
    program: &Program,
    has: bool,
    figure: &[u8],
    out: &mut S,
    notes: &mut N,
) -> Status
    requires sound { IsSound program.now }
    requires few { IsTrue has → AreFew found.now }
    requires fits { length figure.now ≤ MOST_BYTES }
    ensures ends { (stated : List Equations) → (IsTrue has ↔ Has stated found.now)
        → GivesOne (IsDrawnFor (posed program.now stated)
        (figure_of program.now.points figure.now) figure.now found.now)
        (S.written out.old) (S.written out.new) (N.written notes.old) (N.written notes.new) result }
    ensures write_fault { result ≡ Status.WriteFault
        → Rose (S.faults out.old) (S.faults out.new)
        ⊎ Rose (N.faults notes.old) (N.faults notes.new) }
    ensures status { IsComparingStatus result }
    ensures untouched { IsQuiet result → out.new ≡ out.old }
    ensures unsaid { (result ≡ Status.Done) ⊎ (result ≡ Status.OutOfMemory)
        → notes.new ≡ notes.old }
    ensures later { (S.faults out.old ≤ S.faults out.new)
        × (N.faults notes.old ≤ N.faults notes.new) }
{
    match read_figure(alloc, program.points.as_slice(), figure) {
        Ok(places) => put_told(alloc, found, program, has, &places, out, notes),
        Err(GclFault::Refused(refusal)) => refuse(alloc, figure, refusal, notes),
        Err(GclFault::OutOfMemory) => Status::OutOfMemory,
    }
}

/// Answers what is found of a log, and the bytes of a file and of a figure.
pub fn put_carried<S: Sink, N: Sink>(
    alloc: Global,
    found: &Found,
    bytes: &[u8],
    figure: &[u8],
    out: &mut S,
    notes: &mut N,
) -> Status
    requires file { length bytes.now ≤ MOST_BYTES }
    requires figure { length figure.now ≤ MOST_BYTES }
    ensures ends { GivesOne (IsCarriedFound (posed_in bytes.now) bytes.now figure.now found.now)
        (S.written out.old) (S.written out.new) (N.written notes.old) (N.written notes.new) result }
    ensures write_fault { result ≡ Status.WriteFault
        → Rose (S.faults out.old) (S.faults out.new)
        ⊎ Rose (N.faults notes.old) (N.faults notes.new) }
    ensures status { IsComparingStatus result }
    ensures untouched { IsQuiet result → out.new ≡ out.old }
    ensures unsaid { (result ≡ Status.Done) ⊎ (result ≡ Status.OutOfMemory)
        → notes.new ≡ notes.old }
    ensures later { (S.faults out.old ≤ S.faults out.new)
        × (N.faults notes.old ≤ N.faults notes.new) }
{
    match read_posed(alloc, found, bytes) {
        Ok((program, has)) => put_drawn(alloc, found, &program, has, figure, out, notes),
        Err(GclFault::Refused(refusal)) => refuse(alloc, bytes, refusal, notes),
        Err(GclFault::OutOfMemory) => Status::OutOfMemory,
    }
}
