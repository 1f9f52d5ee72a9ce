// The top call, and the call of each form.
ghost use Rattle.std.specs.Prelude.{◌≡◌, ◌≤◌, ◌⊎◌, List, ℕ, [], ◌∷◌, Option, None, Some, map};
ghost use Rattle.std.specs.String.{string_bytes};
ghost use Rattle.desk_io.specs.Causes.{Rose};
ghost use Rattle.desk_io.specs.Files.{Lacks};
ghost use Rattle.command_line.specs.Table.{IsAnswerOf, TextOf, ProveOf, CheckOf, CarryOf, TrialOf, form_of};
ghost use Rattle.command_line.specs.Command.{Command};
ghost use Rattle.command_line.specs.Contract.{IsRun, IsTextRun, IsProofRun, IsCheckRun, IsCarryRun, IsTrialRun, IsQuiet, lent, views};
ghost use Rattle.command_line.specs.Headline.{Headline};
ghost use Rattle.command_line.specs.Pipeline.{svg_of, latex_of, system_of, show_of};
ghost use Rattle.command_line.specs.Run.{Answers};
ghost use Rattle.command_line.specs.Samples.{sample_of};

use crate::carry::carry_run;
use crate::check::check_run;
use crate::invocation::{Invocation, TextForm, read_command};
use crate::laws::a_yes_is_assured;
use crate::pipeline::{LatexCommand, ShowCommand, SvgCommand, SystemCommand};
use crate::prover::{Alone, Prover, Together};
use crate::proving::put_file_proofs;
use crate::sampling::SampleCommand;
use crate::stage::{TextCommand, fetch, put_file, say};
use crate::status::Status;
use crate::trial::trial_run;
use desk_io::{Desk, Sink};
use gcl_reader::MOST_BYTES;
use poly_model::Domain;
use std::alloc::Global;
use std::sync::Wait;
use std::thread::Threads;

const USAGE: &[u8] =
    b"usage: gclc svg FILE, latex FILE, system FILE, show FILE, prove FILE [--workers N], check LOG [FILE], trial NUMBER WORKERS, sample FILE, carry LOG FILE FIGURE\n";

// Reads the file and runs the command over it. The call below says what follows.
fn file_answered<C: TextCommand, K: Desk, S: Sink, N: Sink>(
    alloc: Global,
    name: &str,
    desk: &mut K,
    out: &mut S,
    notes: &mut N,
) -> Status
    ensures answered { Answers (K.held desk.old) (Rose (K.faults desk.old) (K.faults desk.new))
        (name.now ∷ []) (IsAnswerOf (Some (TextOf C.made name.now)))
        (S.written out.old) (S.written out.new) (N.written notes.old) (N.written notes.new) result }
    ensures read_fault { result ≡ Status.ReadFault
        → Rose (K.faults desk.old) (K.faults desk.new) ⊎ Lacks (K.held desk.old) name.now }
    ensures write_fault { result ≡ Status.WriteFault
        → Rose (S.faults out.old) (S.faults out.new)
        ⊎ Rose (N.faults notes.old) (N.faults notes.new) }
    ensures untouched { IsQuiet result → out.new ≡ out.old }
    ensures unsaid { result ≡ Status.OutOfMemory → notes.new ≡ notes.old }
    ensures same { K.held desk.new ≡ K.held desk.old }
    ensures later { (K.faults desk.old ≤ K.faults desk.new) × (S.faults out.old ≤ S.faults out.new)
        × (N.faults notes.old ≤ N.faults notes.new) }
    ensures text { IsTextRun (lent desk.old out.old notes.old)
        (lent desk.new out.new notes.new) result }
{
    match fetch(alloc, name, MOST_BYTES, desk, notes) {
        Ok(bytes) => put_file::<C, S, N>(alloc, &bytes, out, notes),
        Err(status) => status,
    }
}

/// Runs a command that makes a text of one file.
pub fn file_run<C: TextCommand, K: Desk, S: Sink, N: Sink>(
    alloc: Global,
    name: &str,
    desk: &mut K,
    out: &mut S,
    notes: &mut N,
) -> Status
    ensures run { IsRun (views K.held K.faults S.written S.faults N.written N.faults)
        (lent desk.old out.old notes.old) (lent desk.new out.new notes.new)
        (Some (TextOf C.made name.now)) result }
    ensures text { IsTextRun (lent desk.old out.old notes.old)
        (lent desk.new out.new notes.new) result }
{
    file_answered::<C, K, S, N>(alloc, name, desk, out, notes)
}

/// `svg FILE`: writes the file's picture as SVG.
pub fn svg_run<K: Desk, S: Sink, N: Sink>(
    alloc: Global,
    name: &str,
    desk: &mut K,
    out: &mut S,
    notes: &mut N,
) -> Status
    ensures run { IsRun (views K.held K.faults S.written S.faults N.written N.faults)
        (lent desk.old out.old notes.old) (lent desk.new out.new notes.new)
        (Some (TextOf svg_of name.now)) result }
    ensures text { IsTextRun (lent desk.old out.old notes.old)
        (lent desk.new out.new notes.new) result }
{
    file_run::<SvgCommand, K, S, N>(alloc, name, desk, out, notes)
}

/// `latex FILE`: writes the file's picture for LaTeX.
pub fn latex_run<K: Desk, S: Sink, N: Sink>(
    alloc: Global,
    name: &str,
    desk: &mut K,
    out: &mut S,
    notes: &mut N,
) -> Status
    ensures run { IsRun (views K.held K.faults S.written S.faults N.written N.faults)
        (lent desk.old out.old notes.old) (lent desk.new out.new notes.new)
        (Some (TextOf latex_of name.now)) result }
    ensures text { IsTextRun (lent desk.old out.old notes.old)
        (lent desk.new out.new notes.new) result }
{
    file_run::<LatexCommand, K, S, N>(alloc, name, desk, out, notes)
}

/// `system FILE`: writes the equations of each prove of the file.
pub fn system_run<K: Desk, S: Sink, N: Sink>(
    alloc: Global,
    name: &str,
    desk: &mut K,
    out: &mut S,
    notes: &mut N,
) -> Status
    ensures run { IsRun (views K.held K.faults S.written S.faults N.written N.faults)
        (lent desk.old out.old notes.old) (lent desk.new out.new notes.new)
        (Some (TextOf system_of name.now)) result }
    ensures text { IsTextRun (lent desk.old out.old notes.old)
        (lent desk.new out.new notes.new) result }
{
    file_run::<SystemCommand, K, S, N>(alloc, name, desk, out, notes)
}

/// `show FILE`: writes the file in its canonical spelling.
pub fn show_run<K: Desk, S: Sink, N: Sink>(
    alloc: Global,
    name: &str,
    desk: &mut K,
    out: &mut S,
    notes: &mut N,
) -> Status
    ensures run { IsRun (views K.held K.faults S.written S.faults N.written N.faults)
        (lent desk.old out.old notes.old) (lent desk.new out.new notes.new)
        (Some (TextOf show_of name.now)) result }
    ensures text { IsTextRun (lent desk.old out.old notes.old)
        (lent desk.new out.new notes.new) result }
{
    file_run::<ShowCommand, K, S, N>(alloc, name, desk, out, notes)
}

/// `sample FILE`: proves the file's statements, by one worker, and writes the point that is found for each.
pub fn sample_run<K: Desk, S: Sink, N: Sink>(
    alloc: Global,
    name: &str,
    desk: &mut K,
    out: &mut S,
    notes: &mut N,
) -> Status
    ensures run { IsRun (views K.held K.faults S.written S.faults N.written N.faults)
        (lent desk.old out.old notes.old) (lent desk.new out.new notes.new)
        (Some (TextOf sample_of name.now)) result }
    ensures text { IsTextRun (lent desk.old out.old notes.old)
        (lent desk.new out.new notes.new) result }
{
    file_run::<SampleCommand, K, S, N>(alloc, name, desk, out, notes)
}

// Reads the file and proves its statements. The call below says what follows.
fn proofs_answered<P: Prover, K: Desk, S: Sink, N: Sink>(
    prover: &P,
    alloc: Global,
    name: &str,
    desk: &mut K,
    out: &mut S,
    notes: &mut N,
) -> Status
    requires { P.ready }
    ensures answered { Answers (K.held desk.old) (Rose (K.faults desk.old) (K.faults desk.new))
        (name.now ∷ []) (IsAnswerOf (Some (ProveOf name.now)))
        (S.written out.old) (S.written out.new) (N.written notes.old) (N.written notes.new) result }
    ensures read_fault { result ≡ Status.ReadFault
        → Rose (K.faults desk.old) (K.faults desk.new) ⊎ Lacks (K.held desk.old) name.now }
    ensures write_fault { result ≡ Status.WriteFault
        → Rose (S.faults out.old) (S.faults out.new)
        ⊎ Rose (N.faults notes.old) (N.faults notes.new) }
    ensures untouched { IsQuiet result → out.new ≡ out.old }
    ensures unsaid { result ≡ Status.OutOfMemory → notes.new ≡ notes.old }
    ensures same { K.held desk.new ≡ K.held desk.old }
    ensures later { (K.faults desk.old ≤ K.faults desk.new) × (S.faults out.old ≤ S.faults out.new)
        × (N.faults notes.old ≤ N.faults notes.new) }
    ensures proofs { IsProofRun result }
{
    match fetch(alloc, name, MOST_BYTES, desk, notes) {
        Ok(bytes) => put_file_proofs::<P, S, N>(prover, alloc, &bytes, out, notes),
        Err(status) => status,
    }
}

// Writes the log of the file's proofs, which a prover gives, and says each verdict on notes.
fn proofs_run<P: Prover, K: Desk, S: Sink, N: Sink>(
    prover: &P,
    alloc: Global,
    name: &str,
    desk: &mut K,
    out: &mut S,
    notes: &mut N,
) -> Status
    requires { P.ready }
    ensures run { IsRun (views K.held K.faults S.written S.faults N.written N.faults)
        (lent desk.old out.old notes.old) (lent desk.new out.new notes.new)
        (Some (ProveOf name.now)) result }
    ensures proofs { IsProofRun result }
{
    proofs_answered::<P, K, S, N>(prover, alloc, name, desk, out, notes)
}

/// `prove FILE`: writes the log of the file's proofs, by one worker, and says each verdict on notes.
pub fn prove_one_run<K: Desk, S: Sink, N: Sink>(
    alloc: Global,
    name: &str,
    desk: &mut K,
    out: &mut S,
    notes: &mut N,
) -> Status
    ensures run { IsRun (views K.held K.faults S.written S.faults N.written N.faults)
        (lent desk.old out.old notes.old) (lent desk.new out.new notes.new)
        (Some (ProveOf name.now)) result }
    ensures proofs { IsProofRun result }
{
    proofs_run::<Alone, K, S, N>(&Alone, alloc, name, desk, out, notes)
}

// Reads the words and runs what they ask for. The call below says what follows.
fn words_run<R: Threads + Wait + Sync, D: Domain, K: Desk, S: Sink, N: Sink>(
    rt: &R,
    alloc: Global,
    domain: &D,
    words: &[String],
    desk: &mut K,
    out: &mut S,
    notes: &mut N,
) -> Status
    ensures run { IsRun (views K.held K.faults S.written S.faults N.written N.faults)
        (lent desk.old out.old notes.old) (lent desk.new out.new notes.new)
        (form_of (map string_bytes words.now)) result }
    ensures text { (command : Command) (name : List ℕ)
        → form_of (map string_bytes words.now) ≡ Some (TextOf command name)
        → IsTextRun (lent desk.old out.old notes.old) (lent desk.new out.new notes.new) result }
    ensures proofs { (name : List ℕ) → form_of (map string_bytes words.now) ≡ Some (ProveOf name)
        → IsProofRun result }
    ensures checked { (log : List ℕ) (file : Option (List ℕ))
        → form_of (map string_bytes words.now) ≡ Some (CheckOf log file) → IsCheckRun file result }
    ensures carried { (log file figure : List ℕ)
        → form_of (map string_bytes words.now) ≡ Some (CarryOf log file figure)
        → IsCarryRun (lent desk.old out.old notes.old) (lent desk.new out.new notes.new) result }
    ensures trial { (number : ℕ) → form_of (map string_bytes words.now) ≡ Some (TrialOf number)
        → IsTrialRun (lent desk.old out.old notes.old) (lent desk.new out.new notes.new) result }
{
    match read_command(words) {
        Invocation::Text(TextForm::Svg, name) => svg_run(alloc, name, desk, out, notes),
        Invocation::Text(TextForm::Latex, name) => latex_run(alloc, name, desk, out, notes),
        Invocation::Text(TextForm::System, name) => system_run(alloc, name, desk, out, notes),
        Invocation::Text(TextForm::Show, name) => show_run(alloc, name, desk, out, notes),
        Invocation::Text(TextForm::Sample, name) => sample_run(alloc, name, desk, out, notes),
        Invocation::Prove(name) => prove_one_run(alloc, name, desk, out, notes),
        Invocation::ProveTogether(name, workers) => {
            proofs_run(&Together { rt, workers }, alloc, name, desk, out, notes)
        }
        Invocation::Check(log, file) => check_run(alloc, domain, log, file, desk, out, notes),
        Invocation::Carry(log, file, figure) => {
            carry_run(alloc, domain, log, file, figure, desk, out, notes)
        }
        Invocation::Trial(number, workers) => {
            trial_run(&Together { rt, workers }, alloc, domain, number, out)
        }
        Invocation::Wrong => say(USAGE, Status::Usage, notes),
    }
}

/// What the program does with the words after its name. What a check of a log has shown is told in the domain.
///
/// `prove FILE --workers N` and `trial NUMBER N` have workers do each proof together, also where N is 1; no other form
/// starts a thread.
pub fn gclc_run<R: Threads + Wait + Sync, D: Domain, K: Desk, S: Sink, N: Sink>(
    rt: &R,
    alloc: Global,
    domain: &D,
    words: &[String],
    desk: &mut K,
    out: &mut S,
    notes: &mut N,
) -> Status
    ensures run { IsRun (views K.held K.faults S.written S.faults N.written N.faults)
        (lent desk.old out.old notes.old) (lent desk.new out.new notes.new)
        (form_of (map string_bytes words.now)) result }
    ensures text { (command : Command) (name : List ℕ)
        → form_of (map string_bytes words.now) ≡ Some (TextOf command name)
        → IsTextRun (lent desk.old out.old notes.old) (lent desk.new out.new notes.new) result }
    ensures proofs { (name : List ℕ) → form_of (map string_bytes words.now) ≡ Some (ProveOf name)
        → IsProofRun result }
    ensures checked { (log : List ℕ) (file : Option (List ℕ))
        → form_of (map string_bytes words.now) ≡ Some (CheckOf log file) → IsCheckRun file result }
    ensures carried { (log file figure : List ℕ)
        → form_of (map string_bytes words.now) ≡ Some (CarryOf log file figure)
        → IsCarryRun (lent desk.old out.old notes.old) (lent desk.new out.new notes.new) result }
    ensures trial { (number : ℕ) → form_of (map string_bytes words.now) ≡ Some (TrialOf number)
        → IsTrialRun (lent desk.old out.old notes.old) (lent desk.new out.new notes.new) result }
    ensures headline { Headline D.operations (form_of (map string_bytes words.now))
        (K.held desk.old) (S.written out.old) (S.written out.new) result }
{
    a_yes_is_assured(domain);
    words_run::<R, D, K, S, N>(rt, alloc, domain, words, desk, out, notes)
}
