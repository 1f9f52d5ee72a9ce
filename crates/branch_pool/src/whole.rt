ghost use Rattle.std.specs.Prelude.{◌≡◌, ◌<◌, ◌++◌, true, length, map, IfOk, OnOk};
ghost use Rattle.poly_model.specs.declared.limits.TheConstants.{MOST_LETTERS};
ghost use Rattle.branch_core.specs.Trees.{preorder};
ghost use Rattle.branch_pool.specs.Children.{children_of};

use crate::work::{Done, Work};
use poly_model::MOST_LETTERS;
use proof_steps::Path;
use std::alloc::{AllocError, Global};

/// Whether these are all pieces of the root's tree, in preorder.
pub fn whole<W: Work>(alloc: Global, pieces: &Vec<Done<W>>) -> Result<bool, AllocError>
    ensures { IfOk result
        (λ b. b ≡ true → map (λ d. d.2) pieces.now.items ≡ preorder (W.tree W.root)) }
{
    let mut stack = Vec::new(alloc);
    stack.push(Path::root())?;
    for done in pieces {
        let Some(path) = stack.pop() else {
            return Ok(false);
        };
        if !done.is_at(&path) {
            return Ok(false);
        }
        let parted = done.forks();
        if parted && path.len() >= MOST_LETTERS {
            return Ok(false);
        }
        expect(&mut stack, path, parted)?;
    }
    Ok(stack.is_empty())
}

fn expect(stack: &mut Vec<Path>, path: Path, forks: bool) -> Result<(), AllocError>
    requires { forks ≡ true → length path < MOST_LETTERS }
    ensures { OnOk result (stack.new.items ≡ stack.old.items ++ children_of path forks) }
{
    if forks {
        stack.push(path.child(false))?;
        stack.push(path.child(true))?;
    }
    Ok(())
}

/// The pieces alone.
pub fn into_pieces<W: Work>(done: Vec<Done<W>>) -> Result<Vec<W::Piece>, AllocError>
    ensures { IfOk result (λ v. v.items ≡ map (λ d. d.2) done.items) }
{
    let mut pieces = Vec::new(*done.allocator());
    for one in done {
        pieces.push(one.into_piece())?;
    }
    Ok(pieces)
}
