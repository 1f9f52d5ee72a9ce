// What a program reads from and writes to.
ghost use Rattle.std.specs.Prelude.{◌≡◌, ◌≤◌, ◌⊎◌, List, ℕ, Option, length, IfOk, OnOk, OnErr};
ghost use Rattle.std.specs.Io.{ReadsAtMost};
ghost use Rattle.desk_io.specs.Causes.{Rose, HasCause};
ghost use Rattle.desk_io.specs.Files.{Files, Holds, Lacks, ReadsFile};
ghost use Rattle.desk_io.specs.Bytes.{Puts};

use thiserror::Error;

/// A call on a desk or a sink failed.
///
/// It carries no reason: the count of faults has risen, or a desk in memory has no file of the name.
#[derive(Clone, Copy, Debug, PartialEq, Eq, Error)]
#[error("the device failed")]
pub struct Failed;

/// Files under names, read piece by piece.
///
/// What contracts say of a file's bytes is for desks that tell what they hold; the files of an operating system cannot
/// be told.
pub trait Desk {
    /// The files, which a desk may leave untold, and which no call changes.
    ghost held: { Self → Option Files };

    /// How often the desk has failed. The count never falls, and stops at 2^64 - 1.
    ghost faults: { Self → ℕ };

    /// Reads bytes of a file, from an offset on, to the front of the piece, and answers how many.
    ///
    /// It answers 0 only at the file's end or where the piece is empty. After `Failed` the piece may hold any bytes.
    fn read(&mut self, name: &str, from: u64, piece: &mut [u8]) -> Result<usize, Failed>
        ensures bound { ReadsAtMost result piece.new }
        ensures bytes { (file : List ℕ) → Holds (held self.old) name.now file
            → IfOk result (λ n. ReadsFile file from n piece.new) }
        ensures absent { Lacks (held self.old) name.now → OnOk result ⊥ }
        ensures same { held self.new ≡ held self.old }
        ensures later { faults self.old ≤ faults self.new }
        ensures cause { OnErr result
            (Rose (faults self.old) (faults self.new) ⊎ Lacks (held self.old) name.now) };
}

/// Where bytes are written to, each put behind what was written before.
pub trait Sink {
    /// The bytes that were written, which a sink may leave untold.
    ghost written: { Self → Option (List ℕ) };

    /// How often the sink has failed. The count never falls, and stops at 2^64 - 1.
    ghost faults: { Self → ℕ };

    /// Writes all the bytes. After `Failed` a front of them may have been written.
    fn put(&mut self, bytes: &[u8]) -> Result<(), Failed>
        ensures bytes { Puts (written self.old) (written self.new) result bytes.now }
        ensures cause { HasCause (faults self.old) (faults self.new) result };
}
