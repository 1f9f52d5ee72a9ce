ghost use Rattle.std.specs.Prelude.{◌≡◌, ◌<◌, [], Some, false, length, is_some, IfOk, IfSome};
ghost use Rattle.poly_model.specs.declared.limits.TheConstants.{MOST_LETTERS};
ghost use Rattle.proof_steps.specs.Paths.{same_path};
ghost use Rattle.branch_core.specs.Trees.{found};
ghost use Rattle.branch_pool.specs.Children.{Children, Paths};

use proof_steps::Path;
use std::alloc::{AllocError, Global};
use std::marker::Model;

/// Work that forms a tree. Its type fixes the root.
pub trait Work {
    type Item: Drop + Send;

    /// What a worker needs to expand items.
    type Room: Drop + Send;

    type Piece: Drop + Send;

    ghost use Rattle.std.specs.Prelude.{List, Bool};
    ghost use Rattle.branch_core.specs.Trees.{Tree};

    ghost tree: { Self.Item → Tree Self.Piece };

    ghost path_of: { Self.Item → List Bool };

    ghost root: { Self.Item };

    /// Fails for want of memory alone.
    fn make_room(&self, alloc: Global) -> Result<Self::Room, AllocError>;

    fn path(&self, item: &Self::Item) -> Path
        ensures { result ≡ path_of item.now };

    /// The first piece of the item's tree, and the two items whose trees follow it: first `+`, then `-`. Fails for want
    /// of memory alone.
    fn expand(
        &self,
        alloc: Global,
        room: &mut Self::Room,
        item: &Self::Item,
    ) -> Result<(Self::Piece, Option<(Self::Item, Self::Item)>), AllocError>
        ensures tree { IfOk result (λ r. Children tree (tree item.now) r.0 r.1) }
        ensures paths { IfOk result (λ r. Paths path_of (path_of item.now) r.1) };
}

/// Is passed once after each take, before the path is expanded.
pub trait Gate {
    fn pass(&self, worker: u32, path: &Path);
}

/// A gate that nobody waits at.
pub struct Open;

impl Gate for Open {
    fn pass(&self, worker: u32, path: &Path) {}
}

/// A branch of the root, at its path. Contracts see the item.
#[derive(Drop)]
pub struct Branch<W: Work> {
    item: W::Item,
}

impl<W: Work> Model for Branch<W> {
    ghost use Rattle.std.specs.Prelude.{◌≡◌, Some};
    ghost use Rattle.branch_core.specs.Trees.{below};

    ghost Value = { W.Item };

    ghost view = { λ b. b.item };

    ghost invariant = { λ b. below (W.tree W.root) (W.path_of b.item) ≡ Some (W.tree b.item) };
}

/// The piece of the root's tree at a path, and whether it has children.
#[derive(Drop)]
pub struct Done<W: Work> {
    path: Path,
    forks: bool,
    piece: W::Piece,
}

impl<W: Work> Model for Done<W> {
    ghost use Rattle.std.specs.Prelude.{◌≡◌, Some, List, Bool};
    ghost use Rattle.branch_core.specs.Trees.{found};

    ghost Value = { List Bool × Bool × W.Piece };

    ghost view = { λ d. (d.path, d.forks, d.piece) };

    ghost invariant = { λ d. found (W.tree W.root) d.path ≡ Some (d.piece, d.forks) };
}

impl<W: Work> Branch<W> {
    pub fn root(item: W::Item) -> Branch<W>
        requires root { item ≡ W.root }
        requires path { W.path_of W.root ≡ [] }
        ensures { result ≡ item }
    {
        Branch { item }
    }

    pub fn path(&self, work: &W) -> Path
        ensures { result ≡ W.path_of self.now }
    {
        work.path(&self.item)
    }

    pub fn expand(
        &self,
        alloc: Global,
        work: &W,
        room: &mut W::Room,
    ) -> Result<(Done<W>, Option<(Branch<W>, Branch<W>)>), AllocError>
        ensures path { IfOk result (λ r. r.0.0 ≡ W.path_of self.now) }
        ensures tree { IfOk result (λ r. Children W.tree (W.tree self.now) r.0.2 r.1) }
        ensures forks { IfOk result (λ r. r.0.1 ≡ is_some r.1) }
        ensures short { IfOk result
            (λ r. IfSome r.1 (λ _. length (W.path_of self.now) < MOST_LETTERS)) }
    {
        let path = work.path(&self.item);
        let (piece, children) = work.expand(alloc, room, &self.item)?;
        match children {
            None => Ok((Done::leaf(path, piece), None)),
            Some((plus, minus)) => Ok((
                Done {
                    path,
                    forks: true,
                    piece,
                },
                Some((Branch { item: plus }, Branch { item: minus })),
            )),
        }
    }
}

impl<W: Work> Done<W> {
    fn leaf(path: Path, piece: W::Piece) -> Done<W>
        requires { found (W.tree W.root) path ≡ Some (piece, false) }
        ensures { result ≡ (path, false, piece) }
    {
        Done {
            path,
            forks: false,
            piece,
        }
    }

    pub fn is_at(&self, path: &Path) -> bool
        ensures { result ≡ same_path self.now.0 path.now }
    {
        self.path.is(path)
    }

    /// Whether the piece has children.
    pub fn forks(&self) -> bool
        ensures { found (W.tree W.root) self.now.0 ≡ Some (self.now.2, result) }
    {
        self.forks
    }

    pub fn into_piece(self) -> W::Piece
        ensures { result ≡ self.2 }
    {
        self.piece
    }
}
