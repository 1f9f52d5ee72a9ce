ghost use Rattle.std.specs.Prelude.{◌≡◌, ◌<◌, ◌≤◌, ◌+◌, ◌^◌, ◌++◌, ◌∷◌, [], ℕ, List, Option, Some, None, Result, Err, IfOk, IfErr, OnOk, IsErrOf, IsTrue, length};
ghost use Rattle.desk_io.specs.Characters.{line_feed};
ghost use Rattle.proof_log.specs.Text.{line_text, IsLine, names_after};
ghost use Rattle.proof_log.specs.Places.{goes};
ghost use Rattle.proof_log.specs.Grammar.{IsUnended};
ghost use Rattle.proof_log.specs.Settings.{is_of};
ghost use Rattle.proof_log.specs.declared.fault.LineFault.{LineFault};
ghost use Rattle.proof_log.specs.declared.line.LogLine.{LogLine};
ghost use Rattle.proof_log.specs.declared.reader.LogFault.{LogFault};

use crate::cut::cut_line;
use crate::fault::LineFault;
use crate::line::LogLine;
use crate::line_reading::read_line;
use crate::place::{Place, goes, is_done, start};
use crate::setting::Setting;
use poly_model::{MOST_VARIABLES, Vars};
use std::alloc::{AllocError, Global};
use std::mem;
use thiserror::Error;

/// Why a log is not read on.
#[derive(Clone, Copy, Debug, PartialEq, Eq, Error)]
pub enum LogFault {
    /// The line of this number, counted from 1, is the first that the grammar refuses, or that is missing.
    #[error("line {0} is malformed")]
    Malformed(u32),
    #[error("out of memory")]
    OutOfMemory,
}

/// Reads a log that comes in pieces, cut anywhere, and hands out its lines as they end.
#[derive(Drop)]
pub struct LogReader {
    alloc: Global,
    /// The bytes of the line that has not ended.
    held: Vec<u8>,
    vars: Vars,
    setting: Setting,
    place: Place,
    /// How many lines were handed out.
    lines: u32,
    /// How many bytes were fed.
    fed: u32,
    fault: Option<LogFault>,
    ghost within: { lines ≤ fed },
    ghost few: { fed ≤ 2 ^ 30 },
}

/// The variables behind a line.
fn names_after(vars: Vars, line: &LogLine) -> Vars
    ensures { result ≡ names_after vars line.now }
{
    match line {
        LogLine::Vars(names) => *names,
        _ => vars,
    }
}

impl LogReader {
    ghost use Rattle.proof_log.specs.Feeding.{Fed, IsFed, Ended, FedTo, Finished};

    /// A reader at the start of a log.
    pub fn new(alloc: Global) -> Result<LogReader, AllocError>
        ensures fed { IfOk result (λ r. IsFed [] r [] × (r.fed ≡ 0)) }
        ensures well { IfOk result (λ r. r.fault ≡ None) }
    {
        Ok(LogReader {
            alloc,
            held: Vec::new(alloc),
            vars: Vars::from_names(&[]).unwrap(),
            setting: Setting::unsettled(),
            place: start(),
            lines: 0,
            fed: 0,
            fault: None,
        })
    }

    /// The line that a text is, without its LF, and the place behind it.
    fn line_of(&self, text: &[u8]) -> Result<(LogLine, Place), LineFault>
        ensures reads { IfOk result (λ x. IsLine self.now.vars x.0
            × (text.now ≡ line_text self.now.vars x.0)
            × (goes self.now.place x.0 ≡ Some x.1) × IsTrue (is_of self.now.setting x.0)) }
        ensures refuses { IsErrOf result LineFault.Malformed → (l : LogLine)
            → IsLine self.now.vars l → IsTrue (is_of self.now.setting l)
            → text.now ≡ line_text self.now.vars l → goes self.now.place l ≡ None }
    {
        prove!(self.vars.len() <= MOST_VARIABLES);
        match read_line(self.alloc, text, &self.vars) {
            Ok(line) => {
                if !self.setting.has(&line) {
                    return Err(LineFault::Malformed);
                }
                match goes(self.place, &line) {
                    Some(place) => Ok((line, place)),
                    None => Err(LineFault::Malformed),
                }
            }
            Err(fault) => Err(fault),
        }
    }

    /// A whole line, where no bytes are held.
    fn end_line(&mut self, text: &[u8], lines: &mut Vec<LogLine>) -> Result<(), LogFault>
        requires few { self.old.fed < 2 ^ 30 }
        requires empty { self.old.held.items ≡ [] }
        ensures fed { self.new.fed ≡ self.old.fed + 1 }
        ensures line { (bytes : List ℕ) (front : List LogLine) → Fed front self.old bytes
            → IsUnended text.now → Ended result lines.old.items lines.new.items front self.new
            (bytes ++ (text.now ++ line_feed ∷ [])) }
    {
        self.fed += 1;
        match self.line_of(text) {
            Ok((line, place)) => {
                let vars = names_after(self.vars, &line);
                let setting = self.setting.after(&line);
                let Ok(()) = lines.push(line) else {
                    self.fault = Some(LogFault::OutOfMemory);
                    return Err(LogFault::OutOfMemory);
                };
                self.vars = vars;
                self.setting = setting;
                self.place = place;
                self.lines += 1;
                Ok(())
            }
            Err(LineFault::Malformed) => {
                let fault = LogFault::Malformed(self.lines + 1);
                self.fault = Some(fault);
                Err(fault)
            }
            Err(LineFault::OutOfMemory) => {
                self.fault = Some(LogFault::OutOfMemory);
                Err(LogFault::OutOfMemory)
            }
        }
    }

    /// More bytes of the line that has not ended.
    fn hold(&mut self, front: &[u8]) -> Result<(), LogFault>
        requires few { self.old.fed + length front.now ≤ 2 ^ 30 }
        requires unended { IsUnended front.now }
        ensures within { self.new.fed ≤ self.old.fed + length front.now }
        ensures fed { OnOk result (self.new.fed ≡ self.old.fed + length front.now) }
        ensures ok { OnOk result ((bytes : List ℕ) (lines : List LogLine)
            → Fed lines self.old bytes → Fed lines self.new (bytes ++ front.now)) }
        ensures err { IfErr result (λ f. (f ≡ LogFault.OutOfMemory)
            × (self.new.fault ≡ Some LogFault.OutOfMemory)) }
    {
        let Ok(()) = self.held.extend_from_slice(front) else {
            self.fault = Some(LogFault::OutOfMemory);
            return Err(LogFault::OutOfMemory);
        };
        self.fed += front.len() as u32;
        Ok(())
    }

    /// The held bytes and these are a whole line.
    fn take_line(&mut self, front: &[u8], lines: &mut Vec<LogLine>) -> Result<(), LogFault>
        requires few { self.old.fed + length front.now < 2 ^ 30 }
        requires unended { IsUnended front.now }
        ensures within { self.new.fed ≤ self.old.fed + length front.now + 1 }
        ensures fed { OnOk result (self.new.fed ≡ self.old.fed + length front.now + 1) }
        ensures line { (bytes : List ℕ) (ls : List LogLine) → Fed ls self.old bytes
            → Ended result lines.old.items lines.new.items ls self.new
            (bytes ++ (front.now ++ line_feed ∷ [])) }
    {
        if self.held.is_empty() {
            self.fed += front.len() as u32;
            return self.end_line(front, lines);
        }
        match self.hold(front) {
            Ok(()) => {}
            Err(fault) => return Err(fault),
        }
        let held = mem::replace(&mut self.held, Vec::new(self.alloc));
        self.end_line(&held, lines)
    }

    /// Takes the next piece of the log, and adds the lines that are whole now. A refusal is answered again by each later
    /// call.
    pub fn feed(&mut self, piece: &[u8], lines: &mut Vec<LogLine>) -> Result<(), LogFault>
        requires { self.old.fed + length piece.now ≤ 2 ^ 30 }
        ensures stays { (f : LogFault) → self.old.fault ≡ Some f
            → (result ≡ Err f) × (self.new.fault ≡ Some f) × (lines.new.items ≡ lines.old.items) }
        ensures within { self.new.fed ≤ self.old.fed + length piece.now }
        ensures fed { OnOk result (self.new.fed ≡ self.old.fed + length piece.now) }
        ensures lines { (bytes : List ℕ) (front : List LogLine) → IsFed front self.old bytes
            → (added : List LogLine) × (lines.new.items ≡ lines.old.items ++ added)
            × FedTo result (front ++ added) self.new (bytes ++ piece.now) }
    {
        if let Some(fault) = self.fault {
            return Err(fault);
        }
        let mut rest = piece;
        loop {
            let (front, behind) = cut_line(rest);
            let Some((_, after)) = behind.split_first() else {
                return self.hold(front);
            };
            match self.take_line(front, lines) {
                Ok(()) => {}
                Err(fault) => return Err(fault),
            }
            rest = after;
        }
    }

    /// The log has ended: it is whole, or the line that is missing or has no LF is at fault.
    pub fn finish(self) -> Result<(), LogFault>
        ensures stays { (f : LogFault) → self.fault ≡ Some f → result ≡ Err f }
        ensures whole { (bytes : List ℕ) (front : List LogLine) → IsFed front self bytes
            → Finished result front bytes }
    {
        if let Some(fault) = self.fault {
            return Err(fault);
        }
        if !self.held.is_empty() {
            return Err(LogFault::Malformed(self.lines + 1));
        }
        if !is_done(self.place.part) {
            return Err(LogFault::Malformed(self.lines + 1));
        }
        Ok(())
    }
}
