ghost use Rattle.std.specs.Prelude.{◌≡◌, ◌≤◌, ◌++◌, [], IfOk, OnOk};
ghost use Rattle.branch_core.specs.Trees.{preorder};
ghost use Rattle.branch_pool.specs.Children.{piled};

use crate::board::Board;
use crate::seat::{Seat, do_branch, seats, work_at};
use crate::whole::{into_pieces, whole};
use crate::work::{Branch, Gate, Work};
use branch_core::{Book, Idle};
use std::alloc::{AllocError, Global};
use std::sync::Wait;
use std::thread;
use std::thread::Threads;

const LAST_SEAT: usize = u32::MAX as usize - 1;

/// The pieces of the root's tree, in preorder. The workers have the numbers from 1 on.
pub fn run_all<W: Work + Sync, G: Gate + Sync, R: Threads + Wait + Sync>(
    rt: &R,
    alloc: Global,
    work: &W,
    root: W::Item,
    workers: u32,
    gate: &G,
) -> Result<Vec<W::Piece>, AllocError>
    requires root { root ≡ W.root }
    requires path { W.path_of W.root ≡ [] }
    requires workers { 1 ≤ workers }
    ensures { IfOk result (λ v. v.items ≡ preorder (W.tree W.root)) }
{
    let root = Branch::root(root);
    let mut all = seats(alloc, work, workers as usize)?;
    let board = Board::new(Book::new(alloc)?);
    let _ = do_branch(rt, alloc, work, gate, &board, &mut all[0], 1, &root);
    let shared = &board;
    thread::for_each_mut(
        rt,
        all.as_mut_slice(),
        workers as usize,
        &|i, seat: &mut Seat<W>| {
            work_at(
                rt,
                alloc,
                work,
                gate,
                shared,
                seat,
                i.min(LAST_SEAT) as u32 + 1,
            )
        },
    );
    let Board { book, moved: _ } = board;
    let book = book.into_inner();
    match book.idle() {
        Idle::Stopped => Err(AllocError),
        Idle::Done => {
            let done = book.assemble()?;
            if whole(alloc, &done)? {
                into_pieces(done)
            } else {
                run_alone(rt, alloc, work, gate, &mut all[0].room, root)
            }
        }
        Idle::Work => run_alone(rt, alloc, work, gate, &mut all[0].room, root),
        Idle::Wait => run_alone(rt, alloc, work, gate, &mut all[0].room, root),
    }
}

// The same on this thread alone.
fn run_alone<W: Work, G: Gate, R: Wait>(
    rt: &R,
    alloc: Global,
    work: &W,
    gate: &G,
    room: &mut W::Room,
    root: Branch<W>,
) -> Result<Vec<W::Piece>, AllocError>
    ensures { IfOk result (λ v. v.items ≡ preorder (W.tree root)) }
{
    let mut pieces = Vec::new(alloc);
    let mut stack = Vec::new(alloc);
    stack.push(root)?;
    while let Some(branch) = stack.pop() {
        let path = branch.path(work);
        gate.pass(1, &path);
        let (done, children) = branch.expand(alloc, work, room)?;
        pieces.push(done.into_piece())?;
        pile(&mut stack, children)?;
    }
    Ok(pieces)
}

// The first to be done goes on top.
fn pile<W: Work>(
    stack: &mut Vec<Branch<W>>,
    children: Option<(Branch<W>, Branch<W>)>,
) -> Result<(), AllocError>
    ensures { OnOk result (stack.new.items ≡ stack.old.items ++ piled children) }
{
    if let Some((plus, minus)) = children {
        stack.push(minus)?;
        stack.push(plus)?;
    }
    Ok(())
}
