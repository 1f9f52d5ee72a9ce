// A table of runs, read line by line.
use crate::case::{Case, Part};
use std::alloc::{AllocError, Global};
use std::sync::Wait;
use std::thread::Threads;

/// The number of runs that came out as the table says, the lines of those that did not, and the run that is being read.
#[derive(Drop)]
pub struct Table {
    alloc: Global,
    case: Option<Case>,
    part: Part,
    good: u32,
    bad: Vec<u32>,
}

impl Table {
    pub fn new(alloc: Global) -> Table {
        Table {
            alloc,
            case: None,
            part: Part::File,
            good: 0,
            bad: Vec::new(alloc),
        }
    }

    /// Adds bytes to the part that is being read.
    pub fn put(&mut self, bytes: &[u8]) -> Result<(), AllocError> {
        match &mut self.case {
            Some(case) => case.put(self.part, bytes),
            None => Ok(()),
        }
    }

    /// Takes a line, which has this number. A line that is none of the table counts as a run that comes out otherwise.
    pub fn take<R: Threads + Wait + Sync>(
        &mut self,
        rt: &R,
        number: u32,
        line: &str,
    ) -> Result<(), AllocError> {
        if let Some(words) = line.strip_prefix("run") {
            self.finish(rt)?;
            self.case = Some(Case::new(self.alloc, number, words)?);
            return Ok(());
        }
        if let Some(text) = line.strip_prefix("|") {
            self.put(text.as_bytes())?;
            return self.put(b"\n");
        }
        if let Some(text) = line.strip_prefix("\\") {
            return self.put(text.as_bytes());
        }
        if line.is_empty() || line.starts_with("#") || self.set(line)? {
            return Ok(());
        }
        self.bad.push(number)?;
        Ok(())
    }

    // Takes a line of a word and a value, and tells whether it is one.
    fn set(&mut self, line: &str) -> Result<bool, AllocError> {
        let Some(case) = &mut self.case else {
            return Ok(false);
        };
        let (word, value) = line.split_once(" ").unwrap_or((line, ""));
        let number: u64 = value.parse().unwrap_or(0);
        match word {
            "file" => {
                self.part = Part::File;
                let name = String::from_str(self.alloc, value)?;
                case.files.push((name, Vec::new(self.alloc)))?;
            }
            "out" => self.part = Part::Out,
            "notes" => self.part = Part::Notes,
            "status" => case.status = value.parse().unwrap_or(255),
            "read" => case.devices.read = number,
            "put" => case.devices.put = number,
            "note" => case.devices.note = number,
            "most" => case.devices.most = value.parse().unwrap_or(1),
            "room" => case.devices.room = value.parse().unwrap_or(0),
            "saying" => case.devices.notes_room = value.parse().unwrap_or(0),
            "swept" => case.swept = true,
            "percents" => case.fill(self.part, number)?,
            _ => return self.counted(word, value),
        }
        Ok(true)
    }

    // Takes a line of a word, a number and a text, and tells whether it is one: `times N TEXT` adds N lines of the text, in
    // which `#` is the line's number, from 0; `line N TEXT` puts the text in place of the N-th line of the last file, and
    // `lines N M` leaves out the lines from the N-th to the M-th.
    fn counted(&mut self, word: &str, value: &str) -> Result<bool, AllocError> {
        let Some((count, text)) = value.split_once(" ") else {
            return Ok(false);
        };
        let number: u64 = count.parse().unwrap_or(0);
        match word {
            "times" => self.repeat(number, text)?,
            "line" => {
                let line = format!(in self.alloc; "{text}\n")?;
                self.change_lines(number, number, line.as_str())?;
            }
            "lines" => self.change_lines(number, text.parse().unwrap_or(0), "")?,
            _ => return Ok(false),
        }
        Ok(true)
    }

    fn repeat(&mut self, count: u64, text: &str) -> Result<(), AllocError> {
        for k in 0..count {
            let number = k.to_string(self.alloc)?;
            let line = text.replace(self.alloc, "#", number.as_str())?;
            self.put(line.as_bytes())?;
            self.put(b"\n")?;
        }
        Ok(())
    }

    fn change_lines(&mut self, first: u64, last: u64, text: &str) -> Result<(), AllocError> {
        match &mut self.case {
            Some(case) => case.change_lines(self.alloc, first, last, text),
            None => Ok(()),
        }
    }

    // Runs the case that is read, if there is one.
    fn finish<R: Threads + Wait + Sync>(&mut self, rt: &R) -> Result<(), AllocError> {
        if let Some(case) = self.case.take() {
            let line = case.line;
            if case.comes_out(rt, self.alloc)? {
                self.good = self.good.saturating_add(1);
            } else {
                self.bad.push(line)?;
            }
        }
        Ok(())
    }

    /// The row that is being read, as far as it has come.
    pub fn last_row(self) -> Option<Case> {
        self.case
    }

    /// Runs the last row, and gives the number of the runs that came out as the table says and the lines of the others.
    pub fn end<R: Threads + Wait + Sync>(mut self, rt: &R) -> Result<(u32, Vec<u32>), AllocError> {
        self.finish(rt)?;
        Ok((self.good, self.bad))
    }
}
