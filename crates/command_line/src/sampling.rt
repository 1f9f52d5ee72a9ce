// `sample`: the points that are found on the generic branches of a file's proofs.
ghost use Rattle.std.specs.Prelude.{◌≡◌, ◌≤◌, ◌++◌, ℤ, All, IfOk, codes, decimal, length};
ghost use Rattle.desk_io.specs.Bytes.{Writes};
ghost use Rattle.desk_io.specs.Causes.{HasCause};
ghost use Rattle.gcl_reader.specs.Grammar.{Gives};
ghost use Rattle.gcl_reader.specs.declared.limits.TheConstants.{MOST_BYTES};
ghost use Rattle.prove_run.specs.Whole.{HasCounts};
ghost use Rattle.command_line.specs.Samples.{all_found, found_text, sample_line, sample_of, samples_from, samples_seen, value_text, values_text};

use crate::prover::Alone;
use crate::proving::prove_file;
use crate::stage::TextCommand;
use crate::verdict_lines::write_heading;
use desk_io::{Failed, Pen, Sink};
use gcl_reader::GclFault;
use itoa::Buffer;
use poly_model::Row;
use proof_log::Proof;
use sample_point::{Found, find};
use std::alloc::{AllocError, Global};

/// What is found of the proofs of a file, in their order.
#[derive(Drop)]
pub struct Samples {
    pub found: Row<Found>,
}

fn find_all(alloc: Global, proofs: &[Proof]) -> Result<Vec<Found>, AllocError>
    requires { All HasCounts proofs.now }
    ensures { IfOk result (λ v. v.items ≡ all_found proofs.now) }
{
    let mut all = Vec::new(alloc);
    let mut rest = proofs;
    while let Some((proof, others)) = rest.split_first() {
        let found = find(alloc, proof)?;
        all.push(found)?;
        rest = others;
    }
    Ok(all)
}

fn write_value<S: Sink>(value: i128, pen: &mut Pen, sink: &mut S) -> Result<(), Failed>
    ensures bytes { Writes (S.written sink.old) (S.written sink.new) pen.old pen.new result
        (value_text value) }
    ensures cause { HasCause (S.faults sink.old) (S.faults sink.new) result }
{
    let mut number = Buffer::new();
    pen.push(sink, b" ")?;
    pen.push(sink, number.format(value).as_bytes())
}

fn write_values<S: Sink>(point: &[i128], pen: &mut Pen, sink: &mut S) -> Result<(), Failed>
    ensures bytes { Writes (S.written sink.old) (S.written sink.new) pen.old pen.new result
        (values_text point.now) }
    ensures cause { HasCause (S.faults sink.old) (S.faults sink.new) result }
{
    let mut rest = point;
    while let Some((value, others)) = rest.split_first() {
        write_value(*value, pen, sink)?;
        rest = others;
    }
    Ok(())
}

fn write_sample<S: Sink>(point: &[i128], pen: &mut Pen, sink: &mut S) -> Result<(), Failed>
    ensures bytes { Writes (S.written sink.old) (S.written sink.new) pen.old pen.new result
        (codes "sample" ++ values_text point.now) }
    ensures cause { HasCause (S.faults sink.old) (S.faults sink.new) result }
{
    pen.push(sink, b"sample")?;
    write_values(point, pen, sink)
}

fn write_refuted<S: Sink>(k: u8, point: &[i128], pen: &mut Pen, sink: &mut S) -> Result<(), Failed>
    ensures bytes { Writes (S.written sink.old) (S.written sink.new) pen.old pen.new result
        (codes "refuted " ++ decimal k ++ values_text point.now) }
    ensures cause { HasCause (S.faults sink.old) (S.faults sink.new) result }
{
    let mut number = Buffer::new();
    pen.push(sink, b"refuted ")?;
    pen.push(sink, number.format(k).as_bytes())?;
    write_values(point, pen, sink)
}

fn write_found<S: Sink>(found: &Found, pen: &mut Pen, sink: &mut S) -> Result<(), Failed>
    ensures bytes { Writes (S.written sink.old) (S.written sink.new) pen.old pen.new result
        (found_text found.now) }
    ensures cause { HasCause (S.faults sink.old) (S.faults sink.new) result }
{
    match found {
        Found::Sample(point) => write_sample(point.as_slice(), pen, sink),
        Found::Refuted { k, point } => write_refuted(*k, point.as_slice(), pen, sink),
        Found::Nothing => pen.push(sink, b"nothing"),
    }
}

fn write_line<S: Sink>(k: usize, found: &Found, pen: &mut Pen, sink: &mut S) -> Result<(), Failed>
    ensures bytes { Writes (S.written sink.old) (S.written sink.new) pen.old pen.new result
        (sample_line k found.now) }
    ensures cause { HasCause (S.faults sink.old) (S.faults sink.new) result }
{
    write_heading(k, pen, sink)?;
    write_found(found, pen, sink)?;
    pen.push(sink, b"\n")
}

fn write_samples<S: Sink>(all: &[Found], pen: &mut Pen, sink: &mut S) -> Result<(), Failed>
    ensures bytes { Writes (S.written sink.old) (S.written sink.new) pen.old pen.new result
        (samples_from 1 all.now) }
    ensures cause { HasCause (S.faults sink.old) (S.faults sink.new) result }
{
    let mut number = 1;
    let mut rest = all;
    while let Some((found, others)) = rest.split_first() {
        write_line(number, found, pen, sink)?;
        number += 1;
        rest = others;
    }
    Ok(())
}

/// `sample`: proves the statements of the file with one thread, and tells the point that is found on the generic branch of each
/// proof.
pub struct SampleCommand;

#[tactic(auto, unfolding(crate::specs::Samples::sample_of))]
fn samples_of(alloc: Global, bytes: &[u8]) -> Result<Samples, GclFault>
    requires { length bytes.now ≤ MOST_BYTES }
    ensures { Gives samples_seen result (sample_of bytes.now) }
{
    let log = prove_file(&Alone, alloc, bytes)?;
    let found = find_all(alloc, log.proofs.as_slice())?;
    Ok(Samples {
        found: Row::from_vec(found),
    })
}

impl TextCommand for SampleCommand {
    ghost use Rattle.command_line.specs.Samples.{sample_of, samples_seen};

    type Prepared = Samples;

    ghost made = { sample_of };

    ghost text = { samples_seen };

    fn prepare(alloc: Global, bytes: &[u8]) -> Result<Samples, GclFault> {
        samples_of(alloc, bytes)
    }

    fn write<S: Sink>(prepared: &Samples, pen: &mut Pen, sink: &mut S) -> Result<(), Failed> {
        write_samples(prepared.found.as_slice(), pen, sink)
    }
}
