// The log of a file's proofs, and the lines that tell its verdicts.
ghost use Rattle.std.specs.Prelude.{◌≡◌, ◌≤◌, ◌⊎◌, [], length, All, IfOk};
ghost use Rattle.desk_io.specs.Bytes.{Puts};
ghost use Rattle.desk_io.specs.Causes.{HasCause, Rose};
ghost use Rattle.gcl_reader.specs.Grammar.{Gives};
ghost use Rattle.proof_log.specs.Headings.{heading_of};
ghost use Rattle.proof_log.specs.Own.{IsOwn};
ghost use Rattle.prove_run.specs.Logs.{newest};
ghost use Rattle.prove_run.specs.Whole.{IsWhole};
ghost use Rattle.command_line.specs.Answer.{answer_from};
ghost use Rattle.command_line.specs.Contract.{IsQuiet};
ghost use Rattle.command_line.specs.Proving.{proofs_of, proved, proves, status_of, log_text};
ghost use Rattle.command_line.specs.Run.{Ends};
ghost use Rattle.command_line.specs.Statuses.{IsProvingStatus};

use crate::prover::Prover;
use crate::stage::{refuse, say_each};
use crate::status::Status;
use crate::verdict_lines::all_verdict_lines;
use desk_io::{Failed, Pen, Sink};
use gcl_names::resolve;
use gcl_reader::{GclFault, MOST_BYTES, read};
use proof_log::{Log, Proof, write_log};
use std::alloc::Global;
use verdicts::Verdict;

/// The log of a file.
#[tactic(auto, unfolding(crate::specs::Proving::proofs_of))]
pub fn prove_file<P: Prover>(prover: &P, alloc: Global, bytes: &[u8]) -> Result<Log, GclFault>
    requires ready { P.ready }
    requires fits { length bytes.now ≤ MOST_BYTES }
    ensures value { Gives (λ log. log.proofs) result (proofs_of bytes.now) }
    ensures heading { IfOk result (λ log. heading_of log ≡ newest) }
    ensures whole { IfOk result (λ log. IsWhole newest log.proofs) }
{
    let file = read(alloc, bytes)?;
    let program = resolve(alloc, &file)?;
    prover.prove(alloc, &program)
}

// Whether the verdict proves its statement.
fn proves(verdict: &Verdict) -> bool
    ensures { result ≡ proves verdict.now }
{
    matches!(verdict, Verdict::Proved | Verdict::Under(_))
}

// How a run ends that has put the log.
fn status_of(proofs: &[Proof]) -> Status
    ensures { result ≡ status_of proofs.now }
{
    let mut rest = proofs;
    while let Some((proof, others)) = rest.split_first() {
        if !proves(&proof.verdict) {
            return Status::Unproved;
        }
        rest = others;
    }
    Status::Done
}

/// Puts the log whole, with a pen that has gathered nothing.
pub fn put_log<S: Sink>(log: &Log, mut pen: Pen, out: &mut S) -> Result<(), Failed>
    requires pen { pen ≡ [] }
    requires heading { heading_of log.now ≡ newest }
    requires own { All IsOwn log.now.proofs }
    ensures bytes { Puts (S.written out.old) (S.written out.new) result (log_text log.now.proofs) }
    ensures cause { HasCause (S.faults out.old) (S.faults out.new) result }
{
    match write_log(log, &mut pen, out) {
        Ok(()) => pen.close(out),
        Err(failed) => {
            pen.give_up();
            Err(failed)
        }
    }
}

// Puts the log, and behind it the lines of its verdicts.
fn put_proofs<S: Sink, N: Sink>(alloc: Global, log: &Log, out: &mut S, notes: &mut N) -> Status
    requires heading { heading_of log.now ≡ newest }
    requires whole { IsWhole newest log.now.proofs }
    ensures ends { Ends (proved log.now.proofs)
        (S.written out.old) (S.written out.new) (N.written notes.old) (N.written notes.new) result }
    ensures status { (result ≡ Status.Done) ⊎ (result ≡ Status.Unproved)
        ⊎ (result ≡ Status.WriteFault) ⊎ (result ≡ Status.OutOfMemory) }
    ensures write_fault { result ≡ Status.WriteFault
        → Rose (S.faults out.old) (S.faults out.new)
        ⊎ Rose (N.faults notes.old) (N.faults notes.new) }
    ensures untouched { result ≡ Status.OutOfMemory
        → (out.new ≡ out.old) × (notes.new ≡ notes.old) }
    ensures later { (S.faults out.old ≤ S.faults out.new)
        × (N.faults notes.old ≤ N.faults notes.new) }
{
    let Ok(lines) = all_verdict_lines(alloc, log.proofs.as_slice()) else {
        return Status::OutOfMemory;
    };
    let Ok(pen) = Pen::open(alloc) else {
        return Status::OutOfMemory;
    };
    let status = status_of(log.proofs.as_slice());
    match put_log(log, pen, out) {
        Ok(()) => say_each(&lines, status, notes),
        Err(_) => Status::WriteFault,
    }
}

/// Proves the statements of a file.
pub fn put_file_proofs<P: Prover, S: Sink, N: Sink>(
    prover: &P,
    alloc: Global,
    bytes: &[u8],
    out: &mut S,
    notes: &mut N,
) -> Status
    requires ready { P.ready }
    requires fits { length bytes.now ≤ MOST_BYTES }
    ensures ends { Ends (answer_from proved bytes.now (proofs_of bytes.now))
        (S.written out.old) (S.written out.new) (N.written notes.old) (N.written notes.new) result }
    ensures write_fault { result ≡ Status.WriteFault
        → Rose (S.faults out.old) (S.faults out.new)
        ⊎ Rose (N.faults notes.old) (N.faults notes.new) }
    ensures status { IsProvingStatus result }
    ensures untouched { IsQuiet result → out.new ≡ out.old }
    ensures unsaid { result ≡ Status.OutOfMemory → notes.new ≡ notes.old }
    ensures later { (S.faults out.old ≤ S.faults out.new)
        × (N.faults notes.old ≤ N.faults notes.new) }
{
    match prove_file(prover, alloc, bytes) {
        Ok(log) => put_proofs::<S, N>(alloc, &log, out, notes),
        Err(GclFault::Refused(refusal)) => refuse(alloc, bytes, refusal, notes),
        Err(GclFault::OutOfMemory) => Status::OutOfMemory,
    }
}
