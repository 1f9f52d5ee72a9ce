// Files of the system.
use crate::memory::is_read_as;
use anyhow::{Result, bail};
use desk_io::{Desk, DeskFault, Failed, RealDesk, RealSink, Sink};
use std::fs;
use std::rt::Files;

/// A file is written in two puts, and read in part, whole, and above a limit; another is missing.
pub fn check_file<R: Files + AllocGlobal>(rt: &R) -> Result<()> {
    let alloc = rt.alloc();
    let mut sink = RealSink::new(fs::create(rt, "written")?);
    if sink.put(b"some ").is_err() || sink.put(b"bytes").is_err() {
        bail!("a put failed");
    }
    let mut desk = RealDesk::new(rt);
    let mut piece = *b"....";
    if desk.read("written", 8, &mut piece) != Ok(2) || &piece != b"es.." {
        bail!("another piece");
    }
    let rows: [(&str, u64, Result<&[u8], DeskFault>); 3] = [
        ("written", 9, Err(DeskFault::TooLarge)),
        ("missing", 9, Err(DeskFault::ReadFault)),
        ("written", 10, Ok(b"some bytes")),
    ];
    for (name, most, wanted) in rows {
        if !is_read_as(alloc, &mut desk, name, most, wanted) {
            bail!("{name} of at most {most} bytes: another answer");
        }
    }
    Ok(())
}

/// A file that was opened to be read takes no bytes, and none is what it takes without fault.
pub fn check_read_only<R: Files>(rt: &R) -> Result<()> {
    fs::create(rt, "read_only")?;
    let mut sink = RealSink::new(fs::open(rt, "read_only")?);
    if sink.put(b"") != Ok(()) || sink.put(b"bytes") != Err(Failed) {
        bail!("another put");
    }
    Ok(())
}
