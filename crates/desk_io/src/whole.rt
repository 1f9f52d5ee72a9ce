// Reading a file whole.
ghost use Rattle.std.specs.Prelude.{◌≡◌, ◌≤◌, ◌<◌, ◌⊎◌, List, ℕ, length, vec_len, IfOk, OnOk, OnErr, IsErrOf};
ghost use Rattle.desk_io.specs.Causes.{Rose};
ghost use Rattle.desk_io.specs.Files.{Holds, Lacks};

use crate::Desk;
use std::alloc::Global;
use thiserror::Error;

/// Why a file was not read whole.
#[derive(Clone, Copy, Debug, PartialEq, Eq, Error)]
pub enum DeskFault {
    /// A read failed: the desk's faults rose, or it has no file of the name.
    #[error("the file cannot be read")]
    ReadFault,
    /// The file has more bytes than the caller takes.
    #[error("the file is too large")]
    TooLarge,
    /// Memory ran out.
    #[error("out of memory")]
    OutOfMemory,
}

// How many bytes are asked for at a time.
const PIECE: usize = 4096;

/// The whole file under a name, where it has at most `most` bytes.
///
/// It asks for piece after piece until a read gives 0 bytes, and stops early at the first failure and at the first byte
/// past `most`.
pub fn read_whole<K: Desk>(
    alloc: Global,
    desk: &mut K,
    name: &str,
    most: u64,
) -> Result<Vec<u8>, DeskFault>
    ensures whole { (file : List ℕ) → Holds (K.held desk.old) name.now file
        → IfOk result (λ bytes. bytes.items ≡ file) }
    ensures fits { IfOk result (λ bytes. vec_len bytes ≤ most) }
    ensures absent { Lacks (K.held desk.old) name.now → OnOk result ⊥ }
    ensures read_fault { IsErrOf result DeskFault.ReadFault
        → Rose (K.faults desk.old) (K.faults desk.new) ⊎ Lacks (K.held desk.old) name.now }
    ensures too_large { (file : List ℕ) → Holds (K.held desk.old) name.now file
        → IsErrOf result DeskFault.TooLarge → most < length file }
    ensures oversize { (file : List ℕ) → Holds (K.held desk.old) name.now file → most < length file
        → IsErrOf result DeskFault.TooLarge ⊎ IsErrOf result DeskFault.ReadFault
        ⊎ IsErrOf result DeskFault.OutOfMemory }
    ensures not_absent { Lacks (K.held desk.old) name.now → IsErrOf result DeskFault.TooLarge → ⊥ }
    ensures same { K.held desk.new ≡ K.held desk.old }
    ensures later { K.faults desk.old ≤ K.faults desk.new }
{
    let mut piece = [0u8; PIECE];
    let mut bytes = Vec::new(alloc);
    loop {
        let from = bytes.len() as u64;
        let Ok(count) = desk.read(name, from, &mut piece) else {
            return Err(DeskFault::ReadFault);
        };
        if count == 0 {
            return Ok(bytes);
        }
        if count as u64 > most - from {
            return Err(DeskFault::TooLarge);
        }
        let Ok(()) = bytes.extend_from_slice(&piece[..count]) else {
            return Err(DeskFault::OutOfMemory);
        };
    }
}
