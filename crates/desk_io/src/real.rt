// The files and writers of the system. They tell nothing of content, and count each failure.
ghost use Rattle.std.specs.Prelude.{◌≡◌, ◌≤◌, None, length, IfOk};
ghost use Rattle.desk_io.specs.Memory.{counted_if};

use crate::{Desk, Failed, Sink};
use std::fs;
use std::io::{Read, Seek, SeekFrom, Write};
use std::marker::Model;
use std::rt::Files;

/// The files of the system, by their paths. Contracts see it as its count of faults.
///
/// Each read opens the file, so a piece costs the same wherever it stands, and reading a file piece by piece costs work
/// linear in its size. That a file cannot be opened counts as a fault, also for want of memory.
#[derive(Drop)]
pub struct RealDesk<R: Files> {
    rt: R,
    faults: u64,
}

impl<R: Files> Model for RealDesk<R> {
    ghost use Rattle.std.specs.Prelude.{ℕ};

    ghost Value = { ℕ };

    ghost view = { λ desk. desk.faults };
}

impl<R: Files> RealDesk<R> {
    ghost use Rattle.std.specs.Prelude.{◌≡◌};

    /// A desk that has not failed yet. It keeps the runtime to open files with.
    pub fn new(rt: R) -> RealDesk<R>
        ensures { result ≡ 0 }
    {
        RealDesk { rt, faults: 0 }
    }
}

// Fills as much of the piece as the file has from the offset on.
fn read_at<F: Read + Seek>(file: &mut F, from: u64, piece: &mut [u8]) -> Result<usize, Failed>
    ensures { IfOk result (λ n. n ≤ length piece.new) }
{
    if file.seek(SeekFrom::Start(from)).is_err() {
        return Err(Failed);
    }
    let mut filled = 0;
    while filled < piece.len() {
        match file.read(&mut piece[filled..]) {
            Ok(0) => break,
            Ok(count) => filled += count,
            Err(_) => return Err(Failed),
        }
    }
    Ok(filled)
}

impl<R: Files> Desk for RealDesk<R> {
    ghost use Rattle.std.specs.Prelude.{◌≡◌, None, is_err};
    ghost use Rattle.std.specs.Io.{ReadsAtMost};
    ghost use Rattle.desk_io.specs.Causes.{HasCause};
    ghost use Rattle.desk_io.specs.Memory.{counted_if};

    ghost held = { λ desk. None };

    ghost faults = { λ desk. desk };

    fn read(&mut self, name: &str, from: u64, piece: &mut [u8]) -> Result<usize, Failed>
        ensures bound { ReadsAtMost result piece.new }
        ensures cause { HasCause self.old self.new result }
        ensures counts { self.new ≡ counted_if (is_err result) self.old }
    {
        if let Ok(mut file) = fs::open(&self.rt, name) {
            if let Ok(count) = read_at(&mut file, from, piece) {
                return Ok(count);
            }
        }
        self.faults = self.faults.saturating_add(1);
        Err(Failed)
    }
}

/// A writer of the system, such as standard output. Contracts see it as its count of faults.
///
/// A put writes until all bytes are taken, and flushes. A writer that takes no byte of a piece that is not empty has
/// failed.
#[derive(Drop)]
pub struct RealSink<W: Write> {
    inner: W,
    faults: u64,
}

impl<W: Write> Model for RealSink<W> {
    ghost use Rattle.std.specs.Prelude.{ℕ};

    ghost Value = { ℕ };

    ghost view = { λ sink. sink.faults };
}

impl<W: Write> RealSink<W> {
    ghost use Rattle.std.specs.Prelude.{◌≡◌};

    /// A sink that has not failed yet.
    pub fn new(w: W) -> RealSink<W>
        ensures { result ≡ 0 }
    {
        RealSink {
            inner: w,
            faults: 0,
        }
    }
}

// Writes all the bytes.
fn write_whole<W: Write>(writer: &mut W, bytes: &[u8]) -> Result<(), Failed> {
    let mut rest = bytes;
    while !rest.is_empty() {
        match writer.write(rest) {
            Ok(0) | Err(_) => return Err(Failed),
            Ok(count) => rest = &rest[count..],
        }
    }
    writer.flush().map_err(|_| Failed)
}

impl<W: Write> Sink for RealSink<W> {
    ghost use Rattle.std.specs.Prelude.{◌≡◌, None, is_err};
    ghost use Rattle.desk_io.specs.Causes.{HasCause};
    ghost use Rattle.desk_io.specs.Memory.{counted_if};

    ghost written = { λ sink. None };

    ghost faults = { λ sink. sink };

    fn put(&mut self, bytes: &[u8]) -> Result<(), Failed>
        ensures cause { HasCause self.old self.new result }
        ensures counts { self.new ≡ counted_if (is_err result) self.old }
    {
        let result = write_whole(&mut self.inner, bytes);
        if result.is_err() {
            self.faults = self.faults.saturating_add(1);
        }
        result
    }
}
