// A run of the program, and what is to come of it.
use crate::sweep::is_steady;
use command_line::{exit_code, gclc_run};
use desk_io::{MemDesk, MemSink};
use poly_model::Gaussian;
use std::alloc::{AllocError, Global};
use std::process::ExitCode;
use std::sync::Wait;
use std::thread::Threads;

const OUT_OF_MEMORY: u8 = 8;

/// What of a run the lines of a table add to.
#[derive(Clone, Copy)]
pub enum Part {
    /// The last of its files.
    File,
    Out,
    Notes,
}

/// What desk and sinks do: the numbers of the read, of the put to out and of the put to notes that fail, from 1, how many bytes
/// a read gives at most, and the rooms of the sinks.
#[derive(Clone, Copy)]
pub struct Devices {
    pub read: u64,
    pub put: u64,
    pub note: u64,
    pub most: usize,
    pub room: usize,
    pub notes_room: usize,
}

/// A desk and two sinks in memory.
#[derive(Drop)]
struct Made {
    desk: MemDesk,
    out: MemSink,
    notes: MemSink,
}

/// How a run has ended, and what it has put.
#[derive(Drop)]
pub struct Ended {
    pub code: ExitCode,
    pub out: Vec<u8>,
    pub notes: Vec<u8>,
}

/// A run: its words, the files that the desk has, what desk and sinks do, and the status and the bytes that are to come of it. Where it
/// is swept, it is run over failing devices too.
#[derive(Drop)]
pub struct Case {
    pub line: u32,
    pub words: Vec<String>,
    pub files: Vec<(String, Vec<u8>)>,
    pub devices: Devices,
    pub swept: bool,
    pub status: u8,
    pub out: Vec<u8>,
    pub notes: Vec<u8>,
}

impl Case {
    /// A run of these words, parted by blanks, over no files, that is to end with status 0 and without a byte.
    pub fn new(alloc: Global, line: u32, words: &str) -> Result<Case, AllocError> {
        let mut given = Vec::new(alloc);
        for word in words.split_whitespace() {
            given.push(String::from_str(alloc, word)?)?;
        }
        Ok(Case {
            line,
            words: given,
            files: Vec::new(alloc),
            devices: Devices {
                read: 0,
                put: 0,
                note: 2,
                most: usize::MAX,
                room: 1_000_000,
                notes_room: 1_000,
            },
            swept: false,
            status: 0,
            out: Vec::new(alloc),
            notes: Vec::new(alloc),
        })
    }

    /// Adds bytes to a part.
    pub fn put(&mut self, part: Part, bytes: &[u8]) -> Result<(), AllocError> {
        match part {
            Part::File => match self.files.last_mut() {
                Some(file) => file.1.extend_from_slice(bytes),
                None => Ok(()),
            },
            Part::Out => self.out.extend_from_slice(bytes),
            Part::Notes => self.notes.extend_from_slice(bytes),
        }
    }

    /// Adds so many percent signs to a part: a comment of that length.
    pub fn fill(&mut self, part: Part, count: u64) -> Result<(), AllocError> {
        for _ in 0..count {
            self.put(part, b"%")?;
        }
        Ok(())
    }

    /// Puts a text in place of the lines between two numbers, from 1 and both among them, of the last file.
    pub fn change_lines(
        &mut self,
        alloc: Global,
        first: u64,
        last: u64,
        text: &str,
    ) -> Result<(), AllocError> {
        let Some(file) = self.files.last_mut() else {
            return Ok(());
        };
        let mut changed = Vec::new(alloc);
        let mut number: u64 = 1;
        for byte in file.1.iter() {
            if number < first || number > last {
                changed.push(*byte)?;
            }
            if *byte == b'\n' {
                if number == last {
                    changed.extend_from_slice(text.as_bytes())?;
                }
                number = number.saturating_add(1);
            }
        }
        file.1 = changed;
        Ok(())
    }

    // The files once more, since a desk takes them.
    fn files_again(&self, alloc: Global) -> Result<Vec<(String, Vec<u8>)>, AllocError> {
        let mut files = Vec::new(alloc);
        for file in self.files.as_slice() {
            let name = String::from_str(alloc, file.0.as_str())?;
            files.push((name, file.1.to_vec(alloc)?))?;
        }
        Ok(files)
    }

    // Such a desk, which has the files, and such sinks.
    fn made(&self, alloc: Global, devices: Devices) -> Result<Made, AllocError> {
        let files = self.files_again(alloc)?;
        Ok(Made {
            desk: MemDesk::cut(files, vec![in alloc; devices.read]?, devices.most.max(1)),
            out: MemSink::new(alloc, devices.room, vec![in alloc; devices.put]?)?,
            notes: MemSink::new(alloc, devices.notes_room, vec![in alloc; devices.note]?)?,
        })
    }

    // Runs the program over them.
    fn run_over<R: Threads + Wait + Sync>(
        &self,
        rt: &R,
        alloc: Global,
        made: &mut Made,
    ) -> ExitCode {
        exit_code(gclc_run(
            rt,
            alloc,
            &Gaussian,
            &self.words,
            &mut made.desk,
            &mut made.out,
            &mut made.notes,
        ))
    }

    /// Runs the program over such a desk and such sinks.
    pub fn run<R: Threads + Wait + Sync>(
        &self,
        rt: &R,
        alloc: Global,
        devices: Devices,
    ) -> Result<Ended, AllocError> {
        let mut made = self.made(alloc, devices)?;
        let code = self.run_over(rt, alloc, &mut made);
        Ok(Ended {
            code,
            out: made.out.bytes().to_vec(alloc)?,
            notes: made.notes.bytes().to_vec(alloc)?,
        })
    }

    /// Runs the program once, and tells in a word how it ended: as said, without memory and without a byte, or otherwise. Before the
    /// run desk and sinks are made, and behind it no memory is taken.
    pub fn told<R: Threads + Wait + Sync>(
        &self,
        rt: &R,
        alloc: Global,
    ) -> Result<&'static str, AllocError> {
        let mut made = self.made(alloc, self.devices)?;
        let code = self.run_over(rt, alloc, &mut made);
        let (out, notes) = (made.out.bytes(), made.notes.bytes());
        if code == ExitCode::from(OUT_OF_MEMORY) && out.is_empty() && notes.is_empty() {
            return Ok("out of memory");
        }
        let is_as_said = code == ExitCode::from(self.status)
            && out == self.out.as_slice()
            && notes == self.notes.as_slice();
        Ok(if is_as_said { "as said" } else { "otherwise" })
    }

    /// A run has ended with the status and the bytes that are to come.
    pub fn is_as_said(&self, ended: &Ended) -> bool {
        ended.code == ExitCode::from(self.status)
            && ended.out.as_slice() == self.out.as_slice()
            && ended.notes.as_slice() == self.notes.as_slice()
    }

    /// Runs the program, and tells whether it ends with the status and the bytes that are to come, and, where it is swept, as it is
    /// to over failing devices.
    pub fn comes_out<R: Threads + Wait + Sync>(
        &self,
        rt: &R,
        alloc: Global,
    ) -> Result<bool, AllocError> {
        let ended = self.run(rt, alloc, self.devices)?;
        if !self.is_as_said(&ended) {
            return Ok(false);
        }
        Ok(!self.swept || is_steady(self, rt, alloc)?)
    }
}
