// The stages that the commands share: what is said on notes, reading a file, and putting a text.
ghost use Rattle.std.specs.Prelude.{IfOk, IfErr, OnOk, IsErrOf, ◌≡◌, ◌≢◌, ◌≤◌, ◌⊎◌, List, ℕ, Option, Result, Ok, Err, [], ◌∷◌, length};
ghost use Rattle.std.specs.List.{flat_map};
ghost use Rattle.std.specs.Io.KnownBytes.{append_known};
ghost use Rattle.desk_io.specs.Bytes.{Puts, Writes};
ghost use Rattle.desk_io.specs.Causes.{HasCause, Rose};
ghost use Rattle.desk_io.specs.Files.{Lacks};
ghost use Rattle.gcl_reader.specs.Grammar.{Gives};
ghost use Rattle.gcl_reader.specs.declared.refusal.Refusal.{Refusal};
ghost use Rattle.command_line.specs.Answer.{Answer, only_notes, refused, text_answer, answer_from};
ghost use Rattle.command_line.specs.Table.{OfFileAlone};
ghost use Rattle.command_line.specs.Command.{Command};
ghost use Rattle.command_line.specs.Readings.{WasRead, first_of};
ghost use Rattle.command_line.specs.Run.{Ends, Answers};
ghost use Rattle.command_line.specs.Contract.{IsQuiet};
ghost use Rattle.command_line.specs.Statuses.{IsReadingFault, IsWritingStatus};

use crate::note::note_of;
use crate::status::Status;
use desk_io::{Desk, DeskFault, Failed, Pen, Sink, read_whole};
use gcl_reader::{GclFault, MOST_BYTES, Refusal};
use std::alloc::Global;

/// A command that makes a text of one file: first all that the text needs, with all the memory that it takes, then the
/// text itself.
pub trait TextCommand {
    /// All that the text is written from.
    type Prepared: Drop;

    /// The text that the command makes of the bytes of a file, or why it refuses them.
    ghost made: { List ℕ → Result (List ℕ) Refusal };

    /// The text that is written from what was prepared.
    ghost text: { Self.Prepared → List ℕ };

    /// Prepares the text of a file.
    fn prepare(alloc: Global, bytes: &[u8]) -> Result<Self::Prepared, GclFault>
        requires { length bytes.now ≤ MOST_BYTES }
        ensures { Gives text result (made bytes.now) };

    /// Writes the text, and takes no memory.
    fn write<S: Sink>(prepared: &Self::Prepared, pen: &mut Pen, sink: &mut S) -> Result<(), Failed>
        ensures bytes { Writes (S.written sink.old) (S.written sink.new) pen.old pen.new result
            (text prepared.now) }
        ensures cause { HasCause (S.faults sink.old) (S.faults sink.new) result };
}

/// Puts a line to notes, which is all that the run says.
pub fn say<N: Sink>(line: &[u8], status: Status, notes: &mut N) -> Status
    requires { status ≢ Status.WriteFault }
    ensures ends { (out : Option (List ℕ)) → Ends (only_notes status line.now) out out
        (N.written notes.old) (N.written notes.new) result }
    ensures status { (result ≡ status) ⊎ (result ≡ Status.WriteFault) }
    ensures write_fault { result ≡ Status.WriteFault
        → Rose (N.faults notes.old) (N.faults notes.new) }
    ensures later { N.faults notes.old ≤ N.faults notes.new }
{
    match notes.put(line) {
        Ok(()) => status,
        Err(_) => Status::WriteFault,
    }
}

// Puts each line to notes.
fn put_each<N: Sink>(lines: &[Vec<u8>], notes: &mut N) -> Result<(), Failed>
    ensures bytes { Puts (N.written notes.old) (N.written notes.new) result
        (flat_map (λ line. line.items) lines.now) }
    ensures cause { HasCause (N.faults notes.old) (N.faults notes.new) result }
{
    for line in lines {
        notes.put(line)?;
    }
    Ok(())
}

/// Says a line for each result, behind a text that was put.
pub fn say_each<N: Sink>(lines: &[Vec<u8>], status: Status, notes: &mut N) -> Status
    ensures status { (result ≡ status) ⊎ (result ≡ Status.WriteFault) }
    ensures ends { (answer : Answer) (old new : Option (List ℕ)) → answer.status ≡ status
        → answer.notes ≡ flat_map (λ line. line.items) lines.now → new ≡ append_known old answer.out
        → Ends answer old new (N.written notes.old) (N.written notes.new) result }
    ensures write_fault { result ≡ Status.WriteFault → status ≢ Status.WriteFault
        → Rose (N.faults notes.old) (N.faults notes.new) }
    ensures later { N.faults notes.old ≤ N.faults notes.new }
{
    match put_each(lines, notes) {
        Ok(()) => status,
        Err(_) => Status::WriteFault,
    }
}

/// Says why a file is refused.
pub fn refuse<N: Sink>(alloc: Global, bytes: &[u8], refusal: Refusal, notes: &mut N) -> Status
    ensures ends { (out : Option (List ℕ)) → Ends (refused bytes.now refusal) out out
        (N.written notes.old) (N.written notes.new) result }
    ensures status { (result ≡ Status.Refused) ⊎ (result ≡ Status.WriteFault)
        ⊎ (result ≡ Status.OutOfMemory) }
    ensures write_fault { result ≡ Status.WriteFault
        → Rose (N.faults notes.old) (N.faults notes.new) }
    ensures unsaid { result ≡ Status.OutOfMemory → notes.new ≡ notes.old }
    ensures later { N.faults notes.old ≤ N.faults notes.new }
{
    match note_of(alloc, bytes, refusal) {
        Ok(line) => say(&line, Status::Refused, notes),
        Err(_) => Status::OutOfMemory,
    }
}

/// Reads a file of at most `most` bytes once and whole, or says why not: at an `Err` the run is over, whatever was to follow.
pub fn fetch<K: Desk, N: Sink>(
    alloc: Global,
    name: &str,
    most: u64,
    desk: &mut K,
    notes: &mut N,
) -> Result<Vec<u8>, Status>
    ensures read { IfOk result (λ bytes. WasRead (K.held desk.old) name.now most bytes.items) }
    ensures untouched { OnOk result (notes.new ≡ notes.old) }
    ensures over { IfErr result (λ status. (out : Option (List ℕ))
        → Answers (K.held desk.old) (Rose (K.faults desk.old) (K.faults desk.new)) (name.now ∷ [])
        (λ readings a. OfFileAlone most (first_of readings) a)
        out out (N.written notes.old) (N.written notes.new) status) }
    ensures fault { IfErr result IsReadingFault }
    ensures unsaid { IsErrOf result Status.OutOfMemory → notes.new ≡ notes.old }
    ensures read_fault { IsErrOf result Status.ReadFault
        → Rose (K.faults desk.old) (K.faults desk.new) ⊎ Lacks (K.held desk.old) name.now }
    ensures write_fault { IsErrOf result Status.WriteFault
        → Rose (N.faults notes.old) (N.faults notes.new) }
    ensures same { K.held desk.new ≡ K.held desk.old }
    ensures later { (K.faults desk.old ≤ K.faults desk.new)
        × (N.faults notes.old ≤ N.faults notes.new) }
{
    match read_whole(alloc, desk, name, most) {
        Ok(bytes) => Ok(bytes),
        Err(DeskFault::ReadFault) => Err(say(b"read fault\n", Status::ReadFault, notes)),
        Err(DeskFault::TooLarge) => Err(say(b"too large\n", Status::TooLarge, notes)),
        Err(DeskFault::OutOfMemory) => Err(Status::OutOfMemory),
    }
}

// Puts a command's text whole, with a pen that has gathered nothing.
fn put_whole<C: TextCommand, S: Sink>(
    prepared: &C::Prepared,
    mut pen: Pen,
    out: &mut S,
) -> Result<(), Failed>
    requires { pen ≡ [] }
    ensures bytes { Puts (S.written out.old) (S.written out.new) result (C.text prepared.now) }
    ensures cause { HasCause (S.faults out.old) (S.faults out.new) result }
{
    match C::write(prepared, &mut pen, out) {
        Ok(()) => pen.close(out),
        Err(failed) => {
            pen.give_up();
            Err(failed)
        }
    }
}

/// Puts a command's text, which is all that the run says.
pub fn put_text<C: TextCommand, S: Sink>(
    alloc: Global,
    prepared: &C::Prepared,
    out: &mut S,
) -> Status
    ensures ends { (notes : Option (List ℕ)) → Ends (text_answer (C.text prepared.now))
        (S.written out.old) (S.written out.new) notes notes result }
    ensures status { (result ≡ Status.Done) ⊎ (result ≡ Status.WriteFault)
        ⊎ (result ≡ Status.OutOfMemory) }
    ensures write_fault { result ≡ Status.WriteFault → Rose (S.faults out.old) (S.faults out.new) }
    ensures untouched { result ≡ Status.OutOfMemory → out.new ≡ out.old }
    ensures later { S.faults out.old ≤ S.faults out.new }
{
    let Ok(pen) = Pen::open(alloc) else {
        return Status::OutOfMemory;
    };
    match put_whole::<C, S>(prepared, pen, out) {
        Ok(()) => Status::Done,
        Err(_) => Status::WriteFault,
    }
}

/// Runs a command over the bytes of a file.
pub fn put_file<C: TextCommand, S: Sink, N: Sink>(
    alloc: Global,
    bytes: &[u8],
    out: &mut S,
    notes: &mut N,
) -> Status
    requires { length bytes.now ≤ MOST_BYTES }
    ensures ends { Ends (answer_from text_answer bytes.now (C.made bytes.now))
        (S.written out.old) (S.written out.new) (N.written notes.old) (N.written notes.new) result }
    ensures write_fault { result ≡ Status.WriteFault
        → Rose (S.faults out.old) (S.faults out.new)
        ⊎ Rose (N.faults notes.old) (N.faults notes.new) }
    ensures status { IsWritingStatus result }
    ensures untouched { IsQuiet result → out.new ≡ out.old }
    ensures one_sink { (out.new ≡ out.old) ⊎ (notes.new ≡ notes.old) }
    ensures unsaid { (result ≡ Status.Done) ⊎ (result ≡ Status.OutOfMemory)
        → notes.new ≡ notes.old }
    ensures later { (S.faults out.old ≤ S.faults out.new)
        × (N.faults notes.old ≤ N.faults notes.new) }
{
    match C::prepare(alloc, bytes) {
        Ok(prepared) => put_text::<C, S>(alloc, &prepared, out),
        Err(GclFault::Refused(refusal)) => refuse(alloc, bytes, refusal, notes),
        Err(GclFault::OutOfMemory) => Status::OutOfMemory,
    }
}
