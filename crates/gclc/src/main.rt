//! Constructions in a command language: pictures, equations, proofs, and a checker of proofs.
#![tactic(auto)]

use command_line::{Status, exit_code, gclc_run};
use desk_io::{RealDesk, RealSink};
use poly_model::Gaussian;
use std::process::ExitCode;
use std::rt::Env;
use std::{env, io};

// The words after the program's name.
fn words_given(rt: &(impl Env + AllocGlobal)) -> io::Result<Vec<String>> {
    let words = env::args(rt)?.skip(1).collect(rt.alloc())?;
    Ok(words)
}

fn main(rt: HostRuntime) -> ExitCode {
    let alloc = rt.alloc();
    let mut out = RealSink::new(rt.stdout());
    let mut notes = RealSink::new(rt.stderr());
    let words = match words_given(&rt) {
        Ok(words) => words,
        Err(error) if error.kind() == io::ErrorKind::OutOfMemory => return exit_code(
            Status::OutOfMemory,
        ),
        // Words that are no text are no form of the command line, and neither are none.
        Err(_) => Vec::new(alloc),
    };
    let mut desk = RealDesk::new(&rt);
    exit_code(gclc_run(
        &rt, alloc, &Gaussian, &words, &mut desk, &mut out, &mut notes,
    ))
}
