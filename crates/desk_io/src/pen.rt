// Gathering small writes.
ghost use Rattle.std.specs.Prelude.{◌≡◌, ◌≤◌, ◌+◌, ◌++◌, [], length, IfOk, is_ok, true};
ghost use Rattle.desk_io.specs.Causes.{HasCause};
ghost use Rattle.desk_io.specs.Bytes.{Puts, Writes};

use crate::{Failed, Sink};
use std::alloc::{AllocError, Global};
use std::marker::Model;

/// How many bytes a pen gathers before it puts them.
pub const PEN_ROOM: usize = 8192;

/// Gathers bytes into puts of `PEN_ROOM` bytes, to the sink that each call is lent.
///
/// Contracts see a pen as the bytes that it has gathered and not yet put. It holds no sink and takes memory only in
/// `open`. A pen is no `Drop`, so it cannot be let go unnoticed: `close` spends it by putting what is left, and `give_up`
/// spends it after a push that failed.
#[derive(Debug)]
pub struct Pen {
    gathered: Vec<u8>,
}

impl Model for Pen {
    ghost use Rattle.std.specs.Prelude.{◌≤◌, List, ℕ, vec_len, vec_capacity};
    ghost use Rattle.desk_io.specs.declared.pen.TheConstants.{PEN_ROOM};

    ghost Value = { List ℕ };

    ghost view = { λ pen. pen.gathered.items };

    ghost invariant = { λ pen.
        (vec_len pen.gathered ≤ PEN_ROOM) × (PEN_ROOM ≤ vec_capacity pen.gathered) };
}

impl Pen {
    /// A pen that has gathered nothing.
    pub fn open(alloc: Global) -> Result<Pen, AllocError>
        ensures { IfOk result (λ pen. pen ≡ []) }
    {
        let gathered = Vec::with_capacity(alloc, PEN_ROOM)?;
        Ok(Pen { gathered })
    }

    /// Gathers the bytes, and puts what is gathered each time that there is no more room.
    ///
    /// Once it has answered `Failed`, the text has a gap, and only `give_up` is of use.
    pub fn push<S: Sink>(&mut self, sink: &mut S, bytes: &[u8]) -> Result<(), Failed>
        ensures bytes { Writes (S.written sink.old) (S.written sink.new)
            self.old self.new result bytes.now }
        ensures cause { HasCause (S.faults sink.old) (S.faults sink.new) result }
        ensures gathers { length self.old + length bytes.now ≤ PEN_ROOM
            → (self.new ≡ self.old ++ bytes.now) × (sink.new ≡ sink.old) }
    {
        let mut rest = bytes;
        while rest.len() > PEN_ROOM - self.gathered.len() {
            let (front, back) = rest.split_at(PEN_ROOM - self.gathered.len());
            self.gathered.extend_from_slice(front).unwrap();
            sink.put(&self.gathered)?;
            self.gathered.clear();
            rest = back;
        }
        self.gathered.extend_from_slice(rest).unwrap();
        Ok(())
    }

    /// Puts what is left, if anything, and spends the pen, also where the put fails.
    pub fn close<S: Sink>(self, sink: &mut S) -> Result<(), Failed>
        ensures bytes { Puts (S.written sink.old) (S.written sink.new) result self }
        ensures cause { HasCause (S.faults sink.old) (S.faults sink.new) result }
        ensures nothing { self ≡ [] → (is_ok result ≡ true) × (sink.new ≡ sink.old) }
    {
        let Pen { gathered } = self;
        if gathered.is_empty() {
            return Ok(());
        }
        sink.put(&gathered)
    }

    /// Spends the pen, and what it has gathered is never put.
    pub fn give_up(self) {
        let Pen { gathered: _ } = self;
    }
}
