// The lines that tell what the verdicts of a log say of a figure.
ghost use Rattle.std.specs.Prelude.{◌≡◌, ◌≤◌, ◌++◌, ◌⊎◌, List, ℕ, Option, [], length, IfOk, codes, decimal};
ghost use Rattle.desk_io.specs.Bytes.{Puts, Writes};
ghost use Rattle.desk_io.specs.Causes.{HasCause, Rose};
ghost use Rattle.gcl_reader.specs.Figure.{AreSmall};
ghost use Rattle.gcl_names.specs.Sound.{IsSound};
ghost use Rattle.gcl_names.specs.declared.limits.TheConstants.{MOST_PROVES};
ghost use Rattle.command_line.specs.Answer.{text_answer};
ghost use Rattle.command_line.specs.Carrying.{all_carried, carried_line, carried_lines, carried_word};
ghost use Rattle.command_line.specs.Run.{Ends};

use crate::status::Status;
use crate::verdict_lines::write_heading;
use desk_io::{Failed, Pen, Sink};
use gcl_names::Program;
use placement::{Carried, carry};
use proof_steps::Problem;
use std::alloc::{AllocError, Global};
use verdicts::Verdict;

/// What these verdicts tell of a figure, which are those of the proves of the program in their order.
pub fn carry_all(
    alloc: Global,
    program: &Program,
    figure: &[(i64, i64)],
    problems: &[Problem],
    verdicts: &[Verdict],
) -> Result<Vec<Carried>, AllocError>
    requires sound { IsSound program.now }
    requires small { AreSmall figure.now }
    requires few { length problems.now ≤ MOST_PROVES }
    ensures { IfOk result (λ v. v.items
        ≡ all_carried program.now.acts figure.now 0 problems.now verdicts.now) }
{
    let mut all = Vec::new(alloc);
    let mut number = 0;
    let mut left = problems;
    let mut told = verdicts;
    while let Some((problem, others)) = left.split_first() {
        let Some((verdict, more)) = told.split_first() else {
            return Ok(all);
        };
        let carried = carry(alloc, program, number, figure, problem, verdict)?;
        all.push(carried)?;
        number += 1;
        left = others;
        told = more;
    }
    Ok(all)
}

fn word_of(carried: Carried) -> &'static [u8]
    ensures { result.now ≡ carried_word carried }
{
    match carried {
        Carried::NoClaim => b"no claim",
        Carried::Flat => b"flat",
        Carried::Past => b"past",
        Carried::NoFigure => b"no figure",
        Carried::SideCondition => b"side condition",
        Carried::Holds => b"holds",
    }
}

fn write_carried_line<S: Sink>(
    k: usize,
    carried: Carried,
    pen: &mut Pen,
    sink: &mut S,
) -> Result<(), Failed>
    ensures bytes { Writes (S.written sink.old) (S.written sink.new) pen.old pen.new result
        (carried_line k carried) }
    ensures cause { HasCause (S.faults sink.old) (S.faults sink.new) result }
{
    write_heading(k, pen, sink)?;
    pen.push(sink, word_of(carried))?;
    pen.push(sink, b"\n")
}

fn write_carried_lines<S: Sink>(all: &[Carried], pen: &mut Pen, sink: &mut S) -> Result<(), Failed>
    ensures bytes { Writes (S.written sink.old) (S.written sink.new) pen.old pen.new result
        (carried_lines 1 all.now) }
    ensures cause { HasCause (S.faults sink.old) (S.faults sink.new) result }
{
    let mut number = 1;
    let mut rest = all;
    while let Some((carried, others)) = rest.split_first() {
        write_carried_line(number, *carried, pen, sink)?;
        number += 1;
        rest = others;
    }
    Ok(())
}

// Puts the lines whole, with a pen that has gathered nothing.
fn put_whole_lines<S: Sink>(all: &[Carried], mut pen: Pen, out: &mut S) -> Result<(), Failed>
    requires { pen ≡ [] }
    ensures bytes { Puts (S.written out.old) (S.written out.new) result (carried_lines 1 all.now) }
    ensures cause { HasCause (S.faults out.old) (S.faults out.new) result }
{
    match write_carried_lines(all, &mut pen, out) {
        Ok(()) => pen.close(out),
        Err(failed) => {
            pen.give_up();
            Err(failed)
        }
    }
}

/// Puts the lines, which is all that the run says.
pub fn put_lines<S: Sink>(alloc: Global, all: &[Carried], out: &mut S) -> Status
    ensures ends { (notes : Option (List ℕ)) → Ends (text_answer (carried_lines 1 all.now))
        (S.written out.old) (S.written out.new) notes notes result }
    ensures status { (result ≡ Status.Done) ⊎ (result ≡ Status.WriteFault)
        ⊎ (result ≡ Status.OutOfMemory) }
    ensures write_fault { result ≡ Status.WriteFault → Rose (S.faults out.old) (S.faults out.new) }
    ensures untouched { result ≡ Status.OutOfMemory → out.new ≡ out.old }
    ensures later { S.faults out.old ≤ S.faults out.new }
{
    let Ok(pen) = Pen::open(alloc) else {
        return Status::OutOfMemory;
    };
    match put_whole_lines(all, pen, out) {
        Ok(()) => Status::Done,
        Err(_) => Status::WriteFault,
    }
}
