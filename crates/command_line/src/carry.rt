// The call of the form that carries a figure.
ghost use Rattle.std.specs.Prelude.{◌≡◌, ◌≤◌, ◌⊎◌, [], ◌∷◌, Some, length};
ghost use Rattle.desk_io.specs.Causes.{Rose};
ghost use Rattle.desk_io.specs.Files.{Lacks};
ghost use Rattle.gcl_reader.specs.declared.limits.TheConstants.{MOST_BYTES};
ghost use Rattle.command_line.specs.CarryStages.{IsCarriedBehind};
ghost use Rattle.command_line.specs.Contract.{IsCarryRun, IsQuiet, IsRun, LacksOne, lent, views};
ghost use Rattle.command_line.specs.Headline.{Headline};
ghost use Rattle.command_line.specs.Run.{Answers};
ghost use Rattle.command_line.specs.Statuses.{IsComparingStatus, IsReadingFault};
ghost use Rattle.command_line.specs.Table.{CarryOf, IsAnswerOf, OfSources, names_of, source};

use crate::carrying::put_carried;
use crate::checking::{Found, fetch_log};
use crate::laws::a_yes_is_assured;
use crate::stage::fetch;
use crate::status::Status;
use desk_io::{Desk, Sink};
use gcl_reader::MOST_BYTES;
use poly_model::Domain;
use std::alloc::Global;

// Reads the figure behind a log and a file, and answers all three.
fn carry_figure<K: Desk, S: Sink, N: Sink>(
    alloc: Global,
    found: &Found,
    bytes: &[u8],
    name: &str,
    desk: &mut K,
    out: &mut S,
    notes: &mut N,
) -> Status
    requires { length bytes.now ≤ MOST_BYTES }
    ensures answered { Answers (K.held desk.old) (Rose (K.faults desk.old) (K.faults desk.new))
        (name.now ∷ []) (OfSources (source name.now MOST_BYTES ∷ [])
        (λ figures a. IsCarriedBehind found.now (bytes.now ∷ figures) a))
        (S.written out.old) (S.written out.new) (N.written notes.old) (N.written notes.new) result }
    ensures read_fault { result ≡ Status.ReadFault
        → Rose (K.faults desk.old) (K.faults desk.new) ⊎ Lacks (K.held desk.old) name.now }
    ensures write_fault { result ≡ Status.WriteFault
        → Rose (S.faults out.old) (S.faults out.new)
        ⊎ Rose (N.faults notes.old) (N.faults notes.new) }
    ensures status { IsReadingFault result ⊎ IsComparingStatus result }
    ensures untouched { IsQuiet result → out.new ≡ out.old }
    ensures unsaid { (result ≡ Status.Done) ⊎ (result ≡ Status.OutOfMemory)
        → notes.new ≡ notes.old }
    ensures same { K.held desk.new ≡ K.held desk.old }
    ensures later { (K.faults desk.old ≤ K.faults desk.new) × (S.faults out.old ≤ S.faults out.new)
        × (N.faults notes.old ≤ N.faults notes.new) }
{
    match fetch(alloc, name, MOST_BYTES, desk, notes) {
        Ok(figure) => put_carried(alloc, found, bytes, &figure, out, notes),
        Err(status) => status,
    }
}

// Reads the file and the figure behind a log, and answers all three.
fn carry_file<K: Desk, S: Sink, N: Sink>(
    alloc: Global,
    found: &Found,
    file: &str,
    figure: &str,
    desk: &mut K,
    out: &mut S,
    notes: &mut N,
) -> Status
    ensures answered { Answers (K.held desk.old) (Rose (K.faults desk.old) (K.faults desk.new))
        (file.now ∷ figure.now ∷ [])
        (OfSources (source file.now MOST_BYTES ∷ source figure.now MOST_BYTES ∷ [])
        (IsCarriedBehind found.now))
        (S.written out.old) (S.written out.new) (N.written notes.old) (N.written notes.new) result }
    ensures read_fault { result ≡ Status.ReadFault
        → Rose (K.faults desk.old) (K.faults desk.new)
        ⊎ Lacks (K.held desk.old) file.now ⊎ Lacks (K.held desk.old) figure.now }
    ensures write_fault { result ≡ Status.WriteFault
        → Rose (S.faults out.old) (S.faults out.new)
        ⊎ Rose (N.faults notes.old) (N.faults notes.new) }
    ensures status { IsReadingFault result ⊎ IsComparingStatus result }
    ensures untouched { IsQuiet result → out.new ≡ out.old }
    ensures unsaid { (result ≡ Status.Done) ⊎ (result ≡ Status.OutOfMemory)
        → notes.new ≡ notes.old }
    ensures same { K.held desk.new ≡ K.held desk.old }
    ensures later { (K.faults desk.old ≤ K.faults desk.new) × (S.faults out.old ≤ S.faults out.new)
        × (N.faults notes.old ≤ N.faults notes.new) }
{
    match fetch(alloc, file, MOST_BYTES, desk, notes) {
        Ok(bytes) => carry_figure(alloc, found, &bytes, figure, desk, out, notes),
        Err(status) => status,
    }
}

// Reads the log and checks it, the file and the figure, before anything is said of any. The call below says what follows.
fn carry_answered<D: Domain, K: Desk, S: Sink, N: Sink>(
    alloc: Global,
    domain: &D,
    log: &str,
    file: &str,
    figure: &str,
    desk: &mut K,
    out: &mut S,
    notes: &mut N,
) -> Status
    ensures answered { Answers (K.held desk.old) (Rose (K.faults desk.old) (K.faults desk.new))
        (names_of (Some (CarryOf log.now file.now figure.now)))
        (IsAnswerOf (Some (CarryOf log.now file.now figure.now)))
        (S.written out.old) (S.written out.new) (N.written notes.old) (N.written notes.new) result }
    ensures read_fault { result ≡ Status.ReadFault → Rose (K.faults desk.old) (K.faults desk.new)
        ⊎ LacksOne (K.held desk.old) (names_of (Some (CarryOf log.now file.now figure.now))) }
    ensures write_fault { result ≡ Status.WriteFault
        → Rose (S.faults out.old) (S.faults out.new)
        ⊎ Rose (N.faults notes.old) (N.faults notes.new) }
    ensures status { IsReadingFault result ⊎ IsComparingStatus result }
    ensures untouched { IsQuiet result → out.new ≡ out.old }
    ensures unsaid { (result ≡ Status.Done) ⊎ (result ≡ Status.OutOfMemory)
        → notes.new ≡ notes.old }
    ensures same { K.held desk.new ≡ K.held desk.old }
    ensures later { (K.faults desk.old ≤ K.faults desk.new) × (S.faults out.old ≤ S.faults out.new)
        × (N.faults notes.old ≤ N.faults notes.new) }
{
    match fetch_log(alloc, domain, log, desk, notes) {
        Ok(found) => carry_file(alloc, &found, file, figure, desk, out, notes),
        Err(status) => status,
    }
}

/// `carry LOG FILE FIGURE`: writes for each prove of the file what its verdict in the log tells of a figure of the file's
/// points.
///
/// The log is read to its end, then the file, then the figure, before anything is said of any. Then a refusal of the file
/// stands before one of the figure, and that before what is wrong with the log.
pub fn carry_run<D: Domain, K: Desk, S: Sink, N: Sink>(
    alloc: Global,
    domain: &D,
    log: &str,
    file: &str,
    figure: &str,
    desk: &mut K,
    out: &mut S,
    notes: &mut N,
) -> Status
    ensures run { IsRun (views K.held K.faults S.written S.faults N.written N.faults)
        (lent desk.old out.old notes.old) (lent desk.new out.new notes.new)
        (Some (CarryOf log.now file.now figure.now)) result }
    ensures carried { IsCarryRun (lent desk.old out.old notes.old)
        (lent desk.new out.new notes.new) result }
    ensures headline { Headline D.operations (Some (CarryOf log.now file.now figure.now))
        (K.held desk.old) (S.written out.old) (S.written out.new) result }
{
    a_yes_is_assured(domain);
    carry_answered::<D, K, S, N>(alloc, domain, log, file, figure, desk, out, notes)
}
