// The lines that tell the verdicts of a log.
ghost use Rattle.std.specs.Prelude.{◌≡◌, ◌++◌, [], Some, length, All, IfOk, codes, decimal};
ghost use Rattle.std.specs.List.{flat_map};
ghost use Rattle.desk_io.specs.Bytes.{Puts, Writes};
ghost use Rattle.desk_io.specs.Causes.{HasCause};
ghost use Rattle.proof_log.specs.Own.{IsOwn, VerdictIsOver};
ghost use Rattle.command_line.specs.VerdictLines.{verdict_line, verdicts_text, problems_in, verdicts_in};

use crate::draft::Draft;
use desk_io::{Failed, Pen, Sink};
use itoa::Buffer;
use poly_model::Vars;
use proof_log::{Proof, write_verdict};
use std::alloc::{AllocError, Global};
use verdicts::Verdict;

/// Writes what a line begins with, `prove K: `.
pub fn write_heading<S: Sink>(k: usize, pen: &mut Pen, sink: &mut S) -> Result<(), Failed>
    ensures bytes { Writes (S.written sink.old) (S.written sink.new) pen.old pen.new result
        (codes "prove " ++ decimal k ++ codes ": ") }
    ensures cause { HasCause (S.faults sink.old) (S.faults sink.new) result }
{
    let mut number = Buffer::new();
    pen.push(sink, b"prove ")?;
    pen.push(sink, number.format(k).as_bytes())?;
    pen.push(sink, b": ")
}

/// Writes the line of a verdict, `prove K: V`. It takes no memory.
pub fn write_verdict_line<S: Sink>(
    k: usize,
    vars: &Vars,
    verdict: &Verdict,
    pen: &mut Pen,
    sink: &mut S,
) -> Result<(), Failed>
    requires { VerdictIsOver (length vars.now) verdict.now }
    ensures bytes { Writes (S.written sink.old) (S.written sink.new) pen.old pen.new result
        (verdict_line k vars.now verdict.now) }
    ensures cause { HasCause (S.faults sink.old) (S.faults sink.new) result }
{
    write_heading(k, pen, sink)?;
    write_verdict(verdict, vars, pen, sink)?;
    pen.push(sink, b"\n")
}

// Writes the line of a proof's verdict whole, with a pen that has gathered nothing.
fn write_whole(k: usize, proof: &Proof, mut pen: Pen, draft: &mut Draft) -> Result<(), Failed>
    requires pen { pen ≡ [] }
    requires own { IsOwn proof.now }
    ensures { Puts (Some draft.old.0) (Some draft.new.0) result
        (verdict_line k proof.now.problem.vars proof.now.verdict) }
{
    match write_verdict_line(k, &proof.problem.vars, &proof.verdict, &mut pen, draft) {
        Ok(()) => pen.close(draft),
        Err(failed) => {
            pen.give_up();
            Err(failed)
        }
    }
}

// The line of a proof's verdict, in memory.
fn verdict_line(alloc: Global, k: usize, proof: &Proof) -> Result<Vec<u8>, AllocError>
    requires { IsOwn proof.now }
    ensures { IfOk result (λ line. line.items
        ≡ verdict_line k proof.now.problem.vars proof.now.verdict) }
{
    let pen = Pen::open(alloc)?;
    let mut draft = Draft::new(alloc);
    match write_whole(k, proof, pen, &mut draft) {
        Ok(()) => Ok(draft.into_bytes()),
        Err(_) => Err(AllocError),
    }
}

/// The lines of the verdicts of all proofs, in memory.
pub fn all_verdict_lines(alloc: Global, proofs: &[Proof]) -> Result<Vec<Vec<u8>>, AllocError>
    requires { All IsOwn proofs.now }
    ensures { IfOk result (λ lines. flat_map (λ line. line.items) lines.items
        ≡ verdicts_text (problems_in proofs.now) (verdicts_in proofs.now)) }
{
    let mut lines = Vec::new(alloc);
    let mut rest = proofs;
    while let Some((proof, others)) = rest.split_first() {
        let line = verdict_line(alloc, lines.len() + 1, proof)?;
        lines.push(line)?;
        rest = others;
    }
    Ok(lines)
}
