// Rows of a reader of files and of a reader of logs.
use anyhow::{Result, bail};
use gcl_names::resolve;
use gcl_reader::{GclFault, Kind, MOST_BYTES, Refusal, read};
use proof_log::{LogFault, LogReader};
use std::alloc::Global;

// A file, and the kind, the line, the place and the length of the token that is refused.
const REFUSALS: [(&[u8], Kind, u32, u32, u32); 7] = [
    (b"point A 1 1\npoint A 2 2", Kind::Twice, 2, 18, 1),
    (b"% note\n harmonic X", Kind::UnknownCommand, 2, 8, 8),
    (b"point A 1", Kind::EndInside, 1, 9, 0),
    (b"point A 1\n", Kind::EndInside, 1, 10, 0),
    (b"dim 9 \x80", Kind::NotText, 1, 6, 0),
    (b"point A 1.2345678 0", Kind::BadNumber, 1, 8, 9),
    (
        b"point A 1 1\n\nprove { identical A B }",
        Kind::Undefined,
        3,
        33,
        1,
    ),
];

// What a file is refused for, if it is.
fn refusal_of(alloc: Global, text: &[u8]) -> Result<Option<Refusal>> {
    if text.len() as u64 > MOST_BYTES {
        bail!("the file is too large");
    }
    let refused = match read(alloc, text) {
        Ok(file) => resolve(alloc, &file).err(),
        Err(fault) => Some(fault),
    };
    match refused {
        None => Ok(None),
        Some(GclFault::Refused(refusal)) => Ok(Some(refusal)),
        Some(GclFault::OutOfMemory) => bail!("memory is short"),
    }
}

/// Each refusal names the place and the length of its token.
pub fn check_refusals(alloc: Global) -> Result<()> {
    for (text, kind, line, at, len) in REFUSALS {
        let wanted = Refusal {
            line,
            kind,
            at,
            len,
        };
        if refusal_of(alloc, text)? != Some(wanted) {
            bail!("a file that is refused: another refusal");
        }
    }
    Ok(())
}

/// A log that comes byte by byte is read to its end, in so many lines.
pub fn check_bytes_of_a_log(alloc: Global, text: &[u8], count: usize) -> Result<()> {
    if text.len() > 1_000_000 {
        bail!("the log is too long");
    }
    let mut reader = LogReader::new(alloc)?;
    let mut lines = Vec::new(alloc);
    let mut rest = text;
    while let Some((byte, after)) = rest.split_first() {
        if reader.feed(&[*byte], &mut lines).is_err() {
            bail!("a log that comes byte by byte is refused");
        }
        rest = after;
    }
    if reader.finish() != Ok(()) || lines.len() != count {
        bail!("a log that comes byte by byte has other lines");
    }
    Ok(())
}

/// A reader that met a line at fault names it from then on, whatever comes.
pub fn check_fault_stays(alloc: Global) -> Result<()> {
    let mut reader = LogReader::new(alloc)?;
    let mut lines = Vec::new(alloc);
    let fault = Err(LogFault::Malformed(2));
    let first = reader.feed(b"gclc-proof 1\nproves 17\nprove 1\n", &mut lines);
    let second = reader.feed(b"proves 1\n", &mut lines);
    if first != fault || second != fault || reader.finish() != fault || lines.len() != 1 {
        bail!("a log at fault: another answer");
    }
    Ok(())
}
