// Who proves the statements of a file: one thread, or several workers. Both give the same log.
ghost use Rattle.std.specs.Prelude.{◌≡◌, IfOk};
ghost use Rattle.gcl_names.specs.Sound.{IsSound};
ghost use Rattle.gcl_reader.specs.Grammar.{Gives};
ghost use Rattle.proof_log.specs.Accepted.{IsAccepted};
ghost use Rattle.proof_log.specs.Headings.{heading_of};
ghost use Rattle.prove_run.specs.Logs.{log_of_program, newest};
ghost use Rattle.prove_run.specs.Whole.{IsWhole};

use crate::workers::Workers;
use branch_pool::Open;
use gcl_names::Program;
use gcl_reader::GclFault;
use proof_log::Log;
use prove_run::{prove_many, prove_one};
use std::alloc::Global;
use std::sync::Wait;
use std::thread::Threads;

/// Gives the log of a program.
pub trait Prover {
    /// What has to hold of the prover's types: whoever starts threads shares the runtime with them.
    ghost ready: { Type 0 };

    /// The log of a sound program.
    fn prove(&self, alloc: Global, program: &Program) -> Result<Log, GclFault>
        requires ready { ready }
        requires sound { IsSound program.now }
        ensures log { Gives (λ log. log.proofs) result (log_of_program program.now.acts) }
        ensures heading { IfOk result (λ log. heading_of log ≡ newest) }
        ensures accepted { IfOk result (λ log. IsAccepted newest log.proofs) }
        ensures whole { IfOk result (λ log. IsWhole newest log.proofs) };
}

/// The thread that runs the call.
pub struct Alone;

impl Prover for Alone {
    ghost use Rattle.std.specs.Prelude.{⊤};

    ghost ready = { ⊤ };

    fn prove(&self, alloc: Global, program: &Program) -> Result<Log, GclFault> {
        prove_one(alloc, program)
    }
}

/// Workers, for which the runtime starts threads.
#[derive(Drop)]
pub struct Together<'a, R> {
    pub rt: &'a R,
    pub workers: Workers,
}

impl<R: Threads + Wait + Sync> Prover for Together<'_, R> {
    ghost use Rattle.std.specs.Thread.{IsSync};

    ghost ready = { IsSync R.row };

    fn prove(&self, alloc: Global, program: &Program) -> Result<Log, GclFault> {
        prove_many(self.rt, alloc, program, self.workers.count, &Open)
    }
}
