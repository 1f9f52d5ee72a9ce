ghost use Rattle.std.specs.Prelude.{◌≡◌, ◌<◌, ◌≤◌, ◌++◌, ◌∷◌, [], length, get_or};
ghost use Rattle.proof_steps.specs.Paths.{same_path, preorder_cmp};

use poly_model::MOST_LETTERS;
use std::cmp::Ordering;
use std::marker::Model;

/// The place of a node in its tree: for each split above it whether the node is below its `+` child. Contracts see the
/// list of these letters, where true is `+`.
#[derive(Clone, Copy, Debug)]
pub struct Path {
    letters: [bool; MOST_LETTERS],
    len: u8,
}

impl Model for Path {
    ghost use Rattle.std.specs.Prelude.{◌-◌, ◌++◌, Bool, false, List, take, length, replicate};
    ghost use Rattle.poly_model.specs.declared.limits.TheConstants.{MOST_LETTERS};
    ghost use Rattle.proof_steps.specs.Letters.{Holds, front_length, filled_again};

    ghost Value = { List Bool };

    ghost view = { λ path. take path.len path.letters };

    ghost invariant = { λ path. Holds path.letters path.len };

    ghost inverse = { λ word. record {
      letters = word ++ replicate (MOST_LETTERS - length word) false;
      len = length word;
    } };

    ghost inverse_ok = { λ path h i. record {
      letters = filled_again path.letters path.len h i;
      len = front_length path.letters path.len h i;
    } };
}

impl Path {
    /// The path of the root.
    pub fn root() -> Path
        ensures { result ≡ [] }
    {
        Path {
            letters: [false; MOST_LETTERS],
            len: 0,
        }
    }

    /// The path of a child.
    pub fn child(self, plus: bool) -> Path
        requires { length self < MOST_LETTERS }
        ensures { result ≡ self ++ plus ∷ [] }
    {
        let mut letters = self.letters;
        let at = self.len as usize;
        letters[at] = plus;
        Path {
            letters,
            len: self.len + 1,
        }
    }

    /// The number of letters.
    pub fn len(&self) -> usize
        ensures len { result ≡ length self.now }
        ensures within { result ≤ MOST_LETTERS }
    {
        self.len as usize
    }

    /// The letter at a place: true for `+`.
    pub fn at(&self, i: usize) -> bool
        requires { i < length self.now }
        ensures { result ≡ get_or self.now i result }
    {
        let letters = &self.letters;
        letters[i]
    }

    /// Whether both are one path.
    pub fn is(&self, other: &Path) -> bool
        ensures { result ≡ same_path self.now other.now }
    {
        self.letters() == other.letters()
    }

    /// The order in preorder: a path stands before those below it, and those below its `+` child stand before those
    /// below its `-` child.
    pub fn preorder(&self, other: &Path) -> Ordering
        ensures { result ≡ preorder_cmp self.now other.now }
    {
        let (mine, theirs) = (self.letters(), other.letters());
        for i in 0..mine.len().min(theirs.len()) {
            let found = theirs[i].cmp(&mine[i]);
            if found.is_ne() {
                return found;
            }
        }
        mine.len().cmp(&theirs.len())
    }

    fn letters(&self) -> &[bool]
        ensures { result.now ≡ self.now }
    {
        &self.letters[..self.len as usize]
    }
}
