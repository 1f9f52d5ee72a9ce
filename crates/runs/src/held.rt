// A statement proved by two workers in four runs, in each of which a gate holds one branch of one worker while the other goes on.
ghost use Rattle.std.specs.Prelude.{◌≡◌, IfOk};
ghost use Rattle.gcl_names.specs.Sound.{IsSound};
ghost use Rattle.proof_log.specs.Headings.{heading_of};
ghost use Rattle.prove_run.specs.Logs.{newest};
ghost use Rattle.prove_run.specs.Whole.{IsWhole};

use crate::hold::{Hold, Until};
use anyhow::{Result, bail};
use desk_io::{MemSink, Pen};
use gcl_names::{Program, resolve};
use gcl_reader::{MOST_BYTES, read};
use proof_log::{Log, write_log};
use proof_steps::Path;
use prove_run::{prove_many, prove_one};
use std::alloc::Global;
use std::sync::Wait;
use std::thread::Threads;

// The program of a file.
fn program_of(alloc: Global, bytes: &[u8]) -> Result<Program>
    ensures { IfOk result IsSound }
{
    if bytes.len() as u64 > MOST_BYTES {
        bail!("the file is too large");
    }
    let file = read(alloc, bytes)?;
    let program = resolve(alloc, &file)?;
    Ok(program)
}

// The paths of the nodes of the only proof.
fn paths_of(alloc: Global, log: &Log) -> Result<Vec<Path>> {
    let [proof] = log.proofs.as_slice() else {
        bail!("the file states not one thing");
    };
    let mut paths = Vec::new(alloc);
    for piece in proof.tree.pieces.as_slice() {
        paths.push(piece.path)?;
    }
    Ok(paths)
}

// The text of a log.
fn text_of(alloc: Global, log: &Log) -> Result<Vec<u8>>
    requires heading { heading_of log.now ≡ newest }
    requires whole { IsWhole newest log.now.proofs }
{
    let mut sink = MemSink::new(alloc, 1_000_000, Vec::new(alloc))?;
    let mut pen = Pen::open(alloc)?;
    let Ok(()) = write_log(log, &mut pen, &mut sink) else {
        pen.give_up();
        bail!("the log is too long");
    };
    let Ok(()) = pen.close(&mut sink) else {
        bail!("the log is too long");
    };
    let text = Vec::from_slice(alloc, sink.bytes())?;
    Ok(text)
}

/// In how many of the runs the log is that of one worker, the gate was lent each path of it once and no other path, by the workers
/// 1 and 2 alone, and no hold ran out: the workers share the tree, whatever the schedule. A program that works on one thread, or parts
/// the tree beforehand, comes to the end of a hold's turns, or lends the gate other paths.
pub fn count_good<R: Threads + Wait + Sync>(
    rt: &R,
    alloc: Global,
    file: &[u8],
    text: &[u8],
) -> Result<u32> {
    let program = program_of(alloc, file)?;
    let paths = paths_of(alloc, &prove_one(alloc, &program)?)?;
    let mut good: u32 = 0;
    for (worker, until) in [
        (1, Until::AnotherPassed),
        (2, Until::AnotherPassed),
        (1, Until::OthersPassed),
        (2, Until::OthersPassed),
    ] {
        let hold = Hold::new(alloc, worker, until, &paths)?;
        let log = prove_many(rt, alloc, &program, 2, &hold)?;
        if hold.went_well() && text_of(alloc, &log)?.as_slice() == text {
            good = good.saturating_add(1);
        }
    }
    Ok(good)
}
