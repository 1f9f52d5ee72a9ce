// A desk and a sink in memory, which fail at the numbers that they are given: test doubles whose contracts are exact.
ghost use Rattle.std.specs.Prelude.{◌≡◌, ◌≤◌, ◌<◌, ◌+◌, ◌-◌, ◌^◌, ◌⊎◌, ◌↔◌, ◌||◌, ◌++◌, ◌==◌, List, [], ℕ, Option, Some, None, MatchOption, length, take, drop, min, map, true, false, IsTrue, is_none, is_err, IfOk, OnOk, OnErr};
ghost use Rattle.std.specs.List.{list_any};
ghost use Rattle.std.specs.Io.{ReadsAtMost};
ghost use Rattle.std.specs.String.{string_bytes};
ghost use Rattle.desk_io.specs.Causes.{Rose, HasCause};
ghost use Rattle.desk_io.specs.Files.{Files, Holds, Lacks, ReadsFile, file_of};
ghost use Rattle.desk_io.specs.Bytes.{Puts};

use crate::{Desk, Failed, Sink};
use std::alloc::{AllocError, Global};
use std::marker::Model;

/// A desk over a list of files, for tests and for whoever holds the files already.
///
/// It tells what it holds. Its reads fail at the numbers that it was given, the first read being number 1, and each gives at
/// most so many bytes.
#[derive(Debug, Drop)]
pub struct MemDesk {
    files: Vec<(String, Vec<u8>)>,
    most: usize,
    failing: Vec<u64>,
    reads: u64,
    faults: u64,
}

impl Model for MemDesk {
    ghost use Rattle.desk_io.specs.Memory.{DeskState};
    ghost use Rattle.std.specs.Prelude.{map, ◌<◌};
    ghost use Rattle.std.specs.String.{string_bytes};

    ghost Value = { DeskState };

    ghost view = { λ desk. record {
      files = map (λ file. (string_bytes file.0, file.1.items)) desk.files.items;
      most = desk.most;
      failing = desk.failing.items;
      reads = desk.reads;
      faults = desk.faults;
    } };

    ghost invariant = { λ desk. 0 < desk.most };
}

// The bytes under a name.
fn find_file<'a>(files: &'a [(String, Vec<u8>)], name: &str) -> Option<&'a Vec<u8>>
    ensures { MatchOption result
        (file_of (map (λ file. (string_bytes file.0, file.1.items)) files.now) name.now ≡ None)
        (λ bytes. file_of (map (λ file. (string_bytes file.0, file.1.items)) files.now) name.now
        ≡ Some bytes.now.items) }
{
    for file in files {
        if file.0.as_str() == name {
            return Some(&file.1);
        }
    }
    None
}

// Copies as much of the file, from an offset on, as there is room for, and at most so many bytes.
fn copy_from(file: &[u8], from: u64, most: usize, piece: &mut [u8]) -> usize
    ensures count { result ≡ length (take (min (length piece.old) most) (drop from file.now)) }
    ensures bytes { piece.new ≡ take (min (length piece.old) most) (drop from file.now)
        ++ drop result piece.old }
{
    if from >= file.len() as u64 {
        return 0;
    }
    let rest = &file[from as usize..];
    let count = rest.len().min(piece.len()).min(most);
    piece[..count].copy_from_slice(&rest[..count]);
    count
}

// Whether the number stands in the list.
fn stands_in(numbers: &[u64], number: u64) -> bool
    ensures { result ≡ list_any (λ n. n == number) numbers.now }
{
    numbers.contains(&number)
}

impl MemDesk {
    ghost use Rattle.desk_io.specs.Memory.{DeskState};

    /// A desk that holds these files and has answered no read. A name that stands twice has its first bytes.
    pub fn new(files: Vec<(String, Vec<u8>)>, fails: Vec<u64>) -> MemDesk
        ensures { result ≡ record {
          files = map (λ file. (string_bytes file.0, file.1.items)) files.items;
          most = 2 ^ 64 - 1;
          failing = fails.items;
          reads = 0;
          faults = 0;
        } }
    {
        MemDesk::cut(files, fails, usize::MAX)
    }

    /// The same, each of whose reads gives at most so many bytes.
    pub fn cut(files: Vec<(String, Vec<u8>)>, fails: Vec<u64>, most: usize) -> MemDesk
        requires { 0 < most }
        ensures { result ≡ record {
          files = map (λ file. (string_bytes file.0, file.1.items)) files.items;
          most = most;
          failing = fails.items;
          reads = 0;
          faults = 0;
        } }
    {
        MemDesk {
            files,
            most,
            failing: fails,
            reads: 0,
            faults: 0,
        }
    }
}

impl Desk for MemDesk {
    ghost use Rattle.std.specs.Prelude.{◌≡◌, ◌≤◌, ◌-◌, ◌⊎◌, List, ℕ, Option, Some, None, MatchOption, length, min, true, IfOk, OnOk, OnErr};
    ghost use Rattle.std.specs.Io.{ReadsAtMost};
    ghost use Rattle.desk_io.specs.Causes.{Rose};
    ghost use Rattle.desk_io.specs.Files.{Files, Holds, Lacks, ReadsFile, file_of};
    ghost use Rattle.desk_io.specs.Memory.{DeskState, ReadGives, read_bytes, after_read};

    ghost held = { λ desk. Some desk.files };

    ghost faults = { λ desk. desk.faults };

    fn read(&mut self, name: &str, from: u64, piece: &mut [u8]) -> Result<usize, Failed>
        ensures bound { ReadsAtMost result piece.new }
        ensures bytes { (file : List ℕ) → Holds (Some self.old.files) name.now file
            → IfOk result (λ n. ReadsFile file from n piece.new) }
        ensures absent { Lacks (Some self.old.files) name.now → OnOk result ⊥ }
        ensures same { self.new.files ≡ self.old.files }
        ensures later { self.old.faults ≤ self.new.faults }
        ensures cause { OnErr result
            (Rose self.old.faults self.new.faults ⊎ Lacks (Some self.old.files) name.now) }
        ensures state { self.new ≡ after_read self.old }
        ensures exact { ReadGives result piece.old piece.new
            (read_bytes self.old name.now from (length piece.old)) }
    {
        self.reads = self.reads.saturating_add(1);
        if stands_in(&self.failing, self.reads) {
            self.faults = self.faults.saturating_add(1);
            return Err(Failed);
        }
        let Some(bytes) = find_file(&self.files, name) else {
            return Err(Failed);
        };
        Ok(copy_from(bytes, from, self.most, piece))
    }
}

/// A sink with room for so many bytes, for tests and for a text that is wanted whole.
///
/// It tells what was written. Its puts fail at the numbers that it was given, the first put being number 1, and where
/// there is no room for all the bytes.
#[derive(Debug, Drop)]
pub struct MemSink {
    bytes: Vec<u8>,
    room: usize,
    failing: Vec<u64>,
    puts: u64,
    faults: u64,
}

impl Model for MemSink {
    ghost use Rattle.std.specs.Prelude.{◌≤◌, vec_len, vec_capacity};
    ghost use Rattle.desk_io.specs.Memory.{SinkState};

    ghost Value = { SinkState };

    ghost view = { λ sink. record {
      bytes = sink.bytes.items;
      room = sink.room;
      failing = sink.failing.items;
      puts = sink.puts;
      faults = sink.faults;
    } };

    ghost invariant = { λ sink.
        (vec_len sink.bytes ≤ sink.room) × (sink.room ≤ vec_capacity sink.bytes) };
}

impl MemSink {
    ghost use Rattle.std.specs.Prelude.{◌≡◌, [], IfOk};
    ghost use Rattle.desk_io.specs.Memory.{SinkState};

    /// A sink into which nothing was written. It takes the memory for its room at once, so that no put takes any.
    pub fn new(alloc: Global, room: usize, fails: Vec<u64>) -> Result<MemSink, AllocError>
        ensures { IfOk result (λ sink. sink ≡ record {
          bytes = [];
          room = room;
          failing = fails.items;
          puts = 0;
          faults = 0;
        }) }
    {
        let bytes = Vec::with_capacity(alloc, room)?;
        Ok(MemSink {
            bytes,
            room,
            failing: fails,
            puts: 0,
            faults: 0,
        })
    }

    /// What was written so far.
    pub fn bytes(&self) -> &[u8]
        ensures { result.now ≡ self.now.bytes }
    {
        &self.bytes
    }
}

impl Sink for MemSink {
    ghost use Rattle.std.specs.Prelude.{◌≡◌, ◌≤◌, ◌<◌, ◌+◌, ◌-◌, ◌⊎◌, List, ℕ, Option, Some, is_ok};
    ghost use Rattle.desk_io.specs.Causes.{Rose, HasCause};
    ghost use Rattle.desk_io.specs.Bytes.{Puts};
    ghost use Rattle.desk_io.specs.Memory.{SinkState, put_succeeds, after_put};

    ghost written = { λ sink. Some sink.bytes };

    ghost faults = { λ sink. sink.faults };

    fn put(&mut self, bytes: &[u8]) -> Result<(), Failed>
        ensures bytes { Puts (Some self.old.bytes) (Some self.new.bytes) result bytes.now }
        ensures cause { HasCause self.old.faults self.new.faults result }
        ensures state { self.new ≡ after_put self.old bytes.now }
        ensures exact { is_ok result ≡ put_succeeds self.old bytes.now }
    {
        self.puts = self.puts.saturating_add(1);
        if stands_in(&self.failing, self.puts) {
            self.faults = self.faults.saturating_add(1);
            return Err(Failed);
        }
        let room = self.room - self.bytes.len();
        if bytes.len() > room {
            self.bytes.extend_from_slice(&bytes[..room]).unwrap();
            self.faults = self.faults.saturating_add(1);
            return Err(Failed);
        }
        self.bytes.extend_from_slice(bytes).unwrap();
        Ok(())
    }
}
