// Rows over files and sinks in memory.
use anyhow::{Result, bail};
use desk_io::{Desk, DeskFault, Failed, MemDesk, MemSink, PEN_ROOM, Pen, read_whole};
use std::alloc::{AllocError, Global};

// A desk that holds one file, under the name "a": of two of one name, the first is read.
fn desk_of(alloc: Global, file: &[u8], fails: &[u64]) -> Result<MemDesk, AllocError> {
    let mut files = Vec::new(alloc);
    files.push((String::from_str(alloc, "a")?, file.to_vec(alloc)?))?;
    files.push((String::from_str(alloc, "a")?, b"another".to_vec(alloc)?))?;
    Ok(MemDesk::new(files, fails.to_vec(alloc)?))
}

/// Reads of a desk, one after the other: the second fails, and so does a file that the desk lacks.
pub fn check_reads(alloc: Global) -> Result<()> {
    let mut desk = desk_of(alloc, b"hello", &[2])?;
    let mut piece = *b"....";
    let rows: [(&str, u64, Result<usize, Failed>, &[u8]); 5] = [
        ("a", 3, Ok(2), b"lo.."),
        ("a", 0, Err(Failed), b"lo.."),
        ("b", 0, Err(Failed), b"lo.."),
        ("a", 0, Ok(4), b"hell"),
        ("a", 5, Ok(0), b"hell"),
    ];
    for (name, from, count, bytes) in rows {
        if desk.read(name, from, &mut piece) != count || piece.as_slice() != bytes {
            bail!("{name} from {from}: another piece");
        }
    }
    Ok(())
}

/// Whether a file is read whole as worked: with these bytes, or with this fault.
pub fn is_read_as<D: Desk>(
    alloc: Global,
    desk: &mut D,
    name: &str,
    most: u64,
    wanted: Result<&[u8], DeskFault>,
) -> bool {
    match (read_whole(alloc, desk, name, most), wanted) {
        (Ok(bytes), Ok(wanted)) => bytes.as_slice() == wanted,
        (Err(fault), Err(wanted)) => fault == wanted,
        (Ok(_), Err(_)) | (Err(_), Ok(_)) => false,
    }
}

/// Files read whole: of an empty one, a missing one, and of one at its limit, above it, and where a read fails.
pub fn check_whole_files(alloc: Global) -> Result<()> {
    let long = [7u8; 5000];
    let rows: [(&[u8], &str, u64, &[u64], Result<&[u8], DeskFault>); 6] = [
        (b"", "a", 0, &[], Ok(b"")),
        (b"hello", "b", 5, &[], Err(DeskFault::ReadFault)),
        (b"hello", "a", 4, &[], Err(DeskFault::TooLarge)),
        (&long, "a", 5000, &[], Ok(&long)),
        (&long, "a", 4999, &[], Err(DeskFault::TooLarge)),
        (&long, "a", 5000, &[3], Err(DeskFault::ReadFault)),
    ];
    for (file, name, most, fails, wanted) in rows {
        let mut desk = desk_of(alloc, file, fails)?;
        if !is_read_as(alloc, &mut desk, name, most, wanted) {
            bail!("{name} of at most {most} bytes: another answer");
        }
    }
    Ok(())
}

/// A pen puts what it gathered once it is full, and the rest when it is closed; each put can fail.
pub fn check_pens(alloc: Global) -> Result<()> {
    let text = [7u8; PEN_ROOM];
    for (fails, put, closed, len) in [
        (9u64, true, true, PEN_ROOM + 1),
        (1, false, false, 0),
        (2, true, false, PEN_ROOM),
    ] {
        let mut sink = MemSink::new(alloc, 10_000, [fails].to_vec(alloc)?)?;
        let mut pen = Pen::open(alloc)?;
        let has_gathered = pen.push(&mut sink, &text).is_ok() && sink.bytes().is_empty();
        let is_put = pen.push(&mut sink, b"!").is_ok();
        let is_closed = if is_put {
            pen.close(&mut sink).is_ok()
        } else {
            pen.give_up();
            false
        };
        let is_as_worked = has_gathered && is_put == put && is_closed == closed;
        if !is_as_worked || sink.bytes().len() != len {
            bail!("put {fails} fails: another answer");
        }
    }
    Ok(())
}
