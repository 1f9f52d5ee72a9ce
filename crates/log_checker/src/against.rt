ghost use Rattle.std.specs.Prelude.{IsTrue, ◌↔◌, ◌≡◌};
ghost use Rattle.algebraize.specs.Problem.{problems_of};
ghost use Rattle.gcl_names.specs.Sound.{IsSound};
ghost use Rattle.log_checker.specs.Against.{Compares};

use crate::checking::Checked;
use algebraize::problems;
use gcl_names::Program;
use gcl_reader::GclFault;
use proof_steps::Problem;
use std::alloc::Global;

fn same_problems(a: &[Problem], b: &[Problem]) -> bool
    ensures { IsTrue result ↔ (a.now ≡ b.now) }
{
    let mut left = a;
    let mut right = b;
    while let Some((p, others)) = left.split_first() {
        let Some((q, more)) = right.split_first() else {
            return false;
        };
        if !p.equals(q) {
            return false;
        }
        left = others;
        right = more;
    }
    right.is_empty()
}

/// Whether the log that was checked is one of the problems of a program: it has these and no others, in their order.
pub fn check_against(alloc: Global, checked: &Checked, program: &Program) -> Result<bool, GclFault>
    requires { IsSound program.now }
    ensures { Compares checked.now.problems result (problems_of program.now.acts) }
{
    let stated = problems(alloc, program)?;
    Ok(same_problems(checked.problems.as_slice(), &stated))
}
