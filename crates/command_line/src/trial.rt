// What comes of the file of a number: its log, made by a prover and checked, and a summary of that.
ghost use Rattle.std.specs.Prelude.{◌≡◌, ◌≤◌, ◌<◌, ◌+◌, ◌^◌, ◌⊎◌, ◌++◌, List, ℕ, Option, IfOk, OnOk, All, codes, decimal};
ghost use Rattle.desk_io.specs.Causes.{Rose};
ghost use Rattle.gcl_reader.specs.Grammar.{Gives};
ghost use Rattle.proof_log.specs.Accepted.{IsAccepted};
ghost use Rattle.proof_log.specs.Own.{IsOwn};
ghost use Rattle.proof_log.specs.Headings.{heading_of};
ghost use Rattle.prove_run.specs.Logs.{newest};
ghost use Rattle.prove_run.specs.Whole.{IsWhole};
ghost use Rattle.trial_file.specs.Trial.{trial_text};
ghost use Rattle.command_line.specs.Answer.{answer_from, text_answer};
ghost use Rattle.command_line.specs.Proving.{log_text};
ghost use Rattle.command_line.specs.Run.{Ends};
ghost use Rattle.command_line.specs.Trials.{is_other, is_proved, is_under, one_if, summary_text, trial_of, verdicts_of};

use crate::draft::Draft;
use crate::prover::Prover;
use crate::proving::put_log;
use crate::status::Status;
use desk_io::{Pen, Sink};
use gcl_names::resolve;
use gcl_reader::{GclFault, read};
use itoa::Buffer;
use log_checker::check_text;
use poly_model::Domain;
use proof_log::{Log, Proof};
use std::alloc::{AllocError, Global};
use trial_file::{trial_file, trial_files_are_accepted};
use verdicts::Verdict;

/// What a trial came to: how many commands and proves the file has, how many verdicts are proved, under conditions and
/// other, and how many bytes the log has.
#[derive(Clone, Copy, Debug, PartialEq, Eq)]
pub struct Summary {
    pub number: u32,
    pub commands: usize,
    pub proves: u32,
    pub proved: usize,
    pub under: usize,
    pub other: usize,
    pub bytes: usize,
}

/// How many verdicts are proved, how many under conditions, and how many are others.
#[derive(Clone, Copy)]
struct Tally {
    proved: usize,
    under: usize,
    other: usize,
}

// Counts one more verdict.
#[tactic(auto, unfolding(crate::specs::Trials::is_proved, crate::specs::Trials::is_under, crate::specs::Trials::is_other))]
fn counted(tally: Tally, verdict: &Verdict) -> Tally
    requires { tally.proved + tally.under + tally.other + 1 < 2 ^ 64 }
    ensures proved { result.proved ≡ tally.proved + one_if (is_proved verdict.now) }
    ensures under { result.under ≡ tally.under + one_if (is_under verdict.now) }
    ensures other { result.other ≡ tally.other + one_if (is_other verdict.now) }
{
    match verdict {
        Verdict::Proved => Tally {
            proved: tally.proved + 1,
            ..tally
        },
        Verdict::Under(_) => Tally {
            under: tally.under + 1,
            ..tally
        },
        Verdict::NotProved { .. } | Verdict::Degenerate(_) | Verdict::Left { .. } => Tally {
            other: tally.other + 1,
            ..tally
        },
    }
}

// Counts the verdicts of these proofs.
fn tally_of(proofs: &[Proof]) -> Tally
    ensures proved { result.proved ≡ verdicts_of is_proved proofs.now }
    ensures under { result.under ≡ verdicts_of is_under proofs.now }
    ensures other { result.other ≡ verdicts_of is_other proofs.now }
{
    let mut tally = Tally {
        proved: 0,
        under: 0,
        other: 0,
    };
    let mut rest = proofs;
    while let Some((proof, others)) = rest.split_first() {
        tally = counted(tally, &proof.verdict);
        rest = others;
    }
    tally
}

// The text of a log, in memory.
fn log_bytes(alloc: Global, log: &Log) -> Result<Vec<u8>, AllocError>
    requires heading { heading_of log.now ≡ newest }
    requires own { All IsOwn log.now.proofs }
    ensures { IfOk result (λ bytes. bytes.items ≡ log_text log.now.proofs) }
{
    let pen = Pen::open(alloc)?;
    let mut draft = Draft::new(alloc);
    match put_log(log, pen, &mut draft) {
        Ok(()) => Ok(draft.into_bytes()),
        Err(_) => Err(AllocError),
    }
}

// Checks the text of a log that a prover made. It is accepted, so what fails is for want of memory alone.
fn confirm<D: Domain>(alloc: Global, domain: &D, log: &Log, bytes: &[u8]) -> Result<(), AllocError>
    requires text { bytes.now ≡ log_text log.now.proofs }
    requires accepted { IsAccepted newest log.now.proofs }
    requires whole { IsWhole newest log.now.proofs }
{
    match check_text(alloc, domain, bytes) {
        Ok(_) => Ok(()),
        Err(_) => Err(AllocError),
    }
}

// Proves the file of a number, and checks the log. No file of a number is refused, which the call below uses.
#[tactic(auto, unfolding(crate::specs::Trials::trial_of))]
fn tried<P: Prover, D: Domain>(
    prover: &P,
    alloc: Global,
    domain: &D,
    number: u32,
) -> Result<Summary, GclFault>
    requires { P.ready }
    ensures { Gives summary_text result (trial_of number) }
{
    let text = trial_file(alloc, number)?;
    let file = read(alloc, &text)?;
    let program = resolve(alloc, &file)?;
    let log = prover.prove(alloc, &program)?;
    let bytes = log_bytes(alloc, &log)?;
    confirm(alloc, domain, &log, &bytes)?;
    let tally = tally_of(log.proofs.as_slice());
    Ok(Summary {
        number,
        commands: program.acts.as_slice().len(),
        proves: program.proves,
        proved: tally.proved,
        under: tally.under,
        other: tally.other,
        bytes: bytes.len(),
    })
}

// Appends a name and a number.
fn push_number(text: &mut Vec<u8>, name: &[u8], number: u64) -> Result<(), AllocError>
    ensures { OnOk result (text.new.items ≡ text.old.items ++ (name.now ++ decimal number)) }
{
    let mut buffer = Buffer::new();
    text.extend_from_slice(name)?;
    text.extend_from_slice(buffer.format(number).as_bytes())
}

// How a summary is told.
fn told(alloc: Global, summary: &Summary) -> Result<Vec<u8>, AllocError>
    ensures { IfOk result (λ text. text.items ≡ summary_text summary.now) }
{
    let mut text = Vec::new(alloc);
    push_number(&mut text, b"trial ", u64::from(summary.number))?;
    push_number(&mut text, b": commands ", summary.commands as u64)?;
    push_number(&mut text, b", proves ", u64::from(summary.proves))?;
    push_number(&mut text, b", proved ", summary.proved as u64)?;
    push_number(&mut text, b", under ", summary.under as u64)?;
    push_number(&mut text, b", other ", summary.other as u64)?;
    push_number(&mut text, b", log ", summary.bytes as u64)?;
    text.extend_from_slice(b" bytes\nassured\n")?;
    Ok(text)
}

// Puts a summary, which is all that the run says.
fn put_summary<S: Sink>(alloc: Global, summary: &Summary, out: &mut S) -> Status
    ensures ends { (notes : Option (List ℕ)) → Ends (text_answer (summary_text summary.now))
        (S.written out.old) (S.written out.new) notes notes result }
    ensures status { (result ≡ Status.Done) ⊎ (result ≡ Status.WriteFault)
        ⊎ (result ≡ Status.OutOfMemory) }
    ensures write_fault { result ≡ Status.WriteFault → Rose (S.faults out.old) (S.faults out.new) }
    ensures untouched { result ≡ Status.OutOfMemory → out.new ≡ out.old }
    ensures later { S.faults out.old ≤ S.faults out.new }
{
    let Ok(text) = told(alloc, summary) else {
        return Status::OutOfMemory;
    };
    match out.put(&text) {
        Ok(()) => Status::Done,
        Err(_) => Status::WriteFault,
    }
}

/// `trial NUMBER WORKERS`: tells what comes of the file of a number, whose log the prover makes and the checker checks.
///
/// The file is accepted and its log is too, so the run is done where memory is at hand and the text can be put.
pub fn trial_run<P: Prover, D: Domain, S: Sink>(
    prover: &P,
    alloc: Global,
    domain: &D,
    number: u32,
    out: &mut S,
) -> Status
    requires { P.ready }
    ensures ends { (notes : Option (List ℕ))
        → Ends (answer_from text_answer (trial_text number) (trial_of number))
        (S.written out.old) (S.written out.new) notes notes result }
    ensures status { (result ≡ Status.Done) ⊎ (result ≡ Status.WriteFault)
        ⊎ (result ≡ Status.OutOfMemory) }
    ensures write_fault { result ≡ Status.WriteFault → Rose (S.faults out.old) (S.faults out.new) }
    ensures untouched { result ≡ Status.OutOfMemory → out.new ≡ out.old }
    ensures later { S.faults out.old ≤ S.faults out.new }
{
    trial_files_are_accepted();
    match tried(prover, alloc, domain, number) {
        Ok(summary) => put_summary(alloc, &summary, out),
        Err(GclFault::OutOfMemory) => Status::OutOfMemory,
        Err(GclFault::Refused(_)) => unreachable!(),
    }
}
