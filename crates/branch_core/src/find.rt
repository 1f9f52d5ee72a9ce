ghost use Rattle.std.specs.Prelude.{◌≡◌, false};
ghost use Rattle.std.specs.List.{position, list_any};
ghost use Rattle.branch_core.specs.Machine.{state_is, is_hold, done_by, done_of};
ghost use Rattle.branch_core.specs.Told.{holder, is_done, state_at};
ghost use Rattle.proof_steps.specs.Paths.{same_path};

use crate::answers::PathState;
use crate::event::{Event, Hold};
use proof_steps::Path;

pub fn waits_at(waiting: &[Path], path: Path) -> Option<usize>
    ensures { result ≡ position (same_path path) waiting.now }
{
    waiting.iter().position(|waits| path.is(waits))
}

pub fn held_at(held: &[Hold], path: Path, worker: u32) -> Option<usize>
    ensures { result ≡ position (is_hold path worker) held.now }
{
    held.iter()
        .position(|hold| path.is(&hold.path) && worker == hold.worker)
}

pub fn holder(held: &[Hold], path: Path) -> Option<u32>
    ensures { result ≡ holder path held.now }
{
    held.iter()
        .find(|hold| path.is(&hold.path))
        .map(|hold| hold.worker)
}

// Whether the event brought the piece of the path.
fn ends<P>(event: &Event<P>, path: Path) -> bool
    ensures { result ≡ is_done path (done_by event.now) }
{
    match event {
        Event::Take(_, _) => false,
        Event::Split(_, done, _) => path.is(done),
        Event::Leaf(_, done, _) => path.is(done),
        Event::Refuse(_, _) => false,
    }
}

fn some_ends<P>(history: &[Event<P>], path: Path) -> bool
    ensures { result ≡ list_any (λ e. is_done path (done_by e)) history.now }
{
    history.iter().any(|event| ends(event, path))
}

pub fn is_done<P>(history: &[Event<P>], path: Path) -> bool
    ensures { result ≡ is_done path (done_of history.now) }
{
    some_ends(history, path)
}

pub fn path_state<P>(waiting: &[Path], held: &[Hold], history: &[Event<P>], path: Path) -> PathState
    ensures { result ≡ state_at (state_is waiting.now held.now (done_of history.now) false) path }
{
    if waits_at(waiting, path).is_some() {
        return PathState::Waiting;
    }
    if let Some(worker) = holder(held, path) {
        return PathState::Held(worker);
    }
    if is_done(history, path) {
        return PathState::Done;
    }
    PathState::Absent
}
