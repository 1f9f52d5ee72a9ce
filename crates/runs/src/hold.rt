// A gate that notes each path that it is lent, and holds one branch of one worker. A branch here is one other than the root.
use branch_pool::Gate;
use proof_steps::Path;
use std::alloc::{AllocError, Global};
use std::sync::atomic::{AtomicU64, Ordering};

// How often a held worker looks whether its hold is over.
const TURNS: u64 = 100_000_000;

/// When the hold of a branch ends.
#[derive(Clone, Copy)]
pub enum Until {
    /// The first branch of the worker: when another worker has passed with a branch.
    AnotherPassed,
    /// The second branch of the worker: when all have passed that are not below it, the root and itself among them.
    OthersPassed,
}

/// A path of the tree, and how often the gate was lent it.
#[derive(Drop)]
struct Lent {
    path: Path,
    times: AtomicU64,
}

/// Holds a branch of a worker, in a tree of given paths.
#[derive(Drop)]
pub struct Hold {
    worker: u32,
    until: Until,
    lent: Vec<Lent>,
    strange: AtomicU64,
    passed: AtomicU64,
    mine: AtomicU64,
    others: AtomicU64,
    ran_out: AtomicU64,
}

// The path is that of a branch below another.
fn is_below(path: &Path, upper: &Path) -> bool {
    if path.len() <= upper.len() {
        return false;
    }
    for i in 0..upper.len() {
        if path.at(i) != upper.at(i) {
            return false;
        }
    }
    true
}

impl Hold {
    pub fn new(
        alloc: Global,
        worker: u32,
        until: Until,
        paths: &[Path],
    ) -> Result<Hold, AllocError> {
        let mut lent = Vec::new(alloc);
        for path in paths {
            lent.push(Lent {
                path: *path,
                times: AtomicU64::new(0),
            })?;
        }
        Ok(Hold {
            worker,
            until,
            lent,
            strange: AtomicU64::new(0),
            passed: AtomicU64::new(0),
            mine: AtomicU64::new(0),
            others: AtomicU64::new(0),
            ran_out: AtomicU64::new(0),
        })
    }

    /// Each path of the tree was lent once and no other path, by the workers 1 and 2 alone, and no hold ran out of turns.
    pub fn went_well(&self) -> bool {
        self.lent
            .iter()
            .all(|lent| lent.times.load(Ordering::SeqCst) == 1)
            && self.strange.load(Ordering::SeqCst) == 0
            && self.ran_out.load(Ordering::SeqCst) == 0
    }

    fn note(&self, worker: u32, path: &Path) {
        if worker != 1 && worker != 2 {
            self.strange.store(1, Ordering::SeqCst);
        }
        match self.lent.iter().find(|lent| lent.path.is(path)) {
            Some(lent) => {
                lent.times.fetch_add(1, Ordering::SeqCst);
            }
            None => self.strange.store(1, Ordering::SeqCst),
        }
        self.passed.fetch_add(1, Ordering::SeqCst);
    }

    // How many branches of the worker pass before the one that is held.
    fn before(&self) -> u64 {
        match self.until {
            Until::AnotherPassed => 0,
            Until::OthersPassed => 1,
        }
    }

    fn is_over(&self, beside: u64) -> bool {
        match self.until {
            Until::AnotherPassed => self.others.load(Ordering::SeqCst) > 0,
            Until::OthersPassed => self.passed.load(Ordering::SeqCst) >= beside,
        }
    }

    fn hold(&self, path: &Path) {
        let beside = self
            .lent
            .iter()
            .filter(|lent| !is_below(&lent.path, path))
            .count() as u64;
        for _ in 0..TURNS {
            if self.is_over(beside) {
                return;
            }
        }
        self.ran_out.store(1, Ordering::SeqCst);
    }
}

impl Gate for Hold {
    fn pass(&self, worker: u32, path: &Path) {
        self.note(worker, path);
        if path.len() == 0 {
            return;
        }
        if worker != self.worker {
            self.others.fetch_add(1, Ordering::SeqCst);
            return;
        }
        if self.mine.fetch_add(1, Ordering::SeqCst) == self.before() {
            self.hold(path);
        }
    }
}
