// A run over devices that fail in turn.
use crate::case::{Case, Devices, Ended};
use std::alloc::{AllocError, Global};
use std::process::ExitCode;
use std::sync::Wait;
use std::thread::Threads;

/// How many calls of a device are made to fail, one at a time, before a sweep gives up.
const TURNS: u64 = 1_000_000;

/// The greatest room of `out` that is tried.
const MOST_ROOM: usize = 100;

const READ_FAULT: u8 = 5;

const WRITE_FAULT: u8 = 6;

/// What fails in turn.
#[derive(Clone, Copy)]
enum Call {
    Read,
    Put,
    Note,
}

// A read failed: nothing is on `out`, and the notes say so.
fn is_read_fault(ended: &Ended) -> bool {
    ended.code == ExitCode::from(READ_FAULT)
        && ended.out.is_empty()
        && ended.notes.as_slice() == b"read fault\n".as_slice()
}

// A put failed: `out` and the notes have a front of what they are to have, the notes only behind all of `out`.
fn is_cut_off(case: &Case, ended: &Ended) -> bool {
    let is_behind = ended.notes.is_empty() || ended.out.len() == case.out.len();
    ended.code == ExitCode::from(WRITE_FAULT)
        && is_behind
        && case.out.as_slice().starts_with(ended.out.as_slice())
        && case.notes.as_slice().starts_with(ended.notes.as_slice())
}

impl Call {
    // The devices with this call of number `number` failing.
    fn fails_at(self, number: u64, devices: Devices) -> Devices {
        match self {
            Call::Read => Devices {
                read: number,
                ..devices
            },
            Call::Put => Devices {
                put: number,
                ..devices
            },
            Call::Note => Devices {
                note: number,
                ..devices
            },
        }
    }

    // Whether a run in which the call failed has ended as it is to.
    fn is_failed(self, case: &Case, ended: &Ended) -> bool {
        match self {
            Call::Read => is_read_fault(ended),
            Call::Put => is_cut_off(case, ended) && ended.notes.is_empty(),
            Call::Note => is_cut_off(case, ended) && ended.out.len() == case.out.len(),
        }
    }

    // How many calls there are at least.
    fn least(self, case: &Case, devices: Devices) -> usize {
        match self {
            Call::Read => {
                let mut least: usize = 0;
                for file in case.files.as_slice() {
                    let pieces = file.1.len().div_ceil(devices.most.max(1));
                    least = least.saturating_add(pieces.max(1));
                }
                least
            }
            Call::Put => usize::from(!case.out.is_empty()),
            Call::Note => case.notes.iter().filter(|byte| **byte == b'\n').count(),
        }
    }
}

// Runs the program with the first call failing, then the second, and so on, until a run meets no fault: that one comes out as said,
// each before it as a run with this fault is to, and at least so many calls were there to fail.
fn fails_in_turn<R: Threads + Wait + Sync>(
    call: Call,
    case: &Case,
    rt: &R,
    alloc: Global,
    devices: Devices,
) -> Result<bool, AllocError> {
    for number in 1..TURNS {
        let ended = case.run(rt, alloc, call.fails_at(number, devices))?;
        if case.is_as_said(&ended) {
            return Ok(number > call.least(case, devices) as u64);
        }
        if !call.is_failed(case, &ended) {
            return Ok(false);
        }
    }
    Ok(false)
}

// Runs the program with each room of `out` up to the greatest that is tried: what fits is written, and no note where not all fits.
fn fits_in_rooms<R: Threads + Wait + Sync>(
    case: &Case,
    rt: &R,
    alloc: Global,
) -> Result<bool, AllocError> {
    for room in 0..=MOST_ROOM {
        let devices = Devices {
            room,
            ..case.devices
        };
        let ended = case.run(rt, alloc, devices)?;
        let is_right = if room >= case.out.len() {
            case.is_as_said(&ended)
        } else {
            is_cut_off(case, &ended) && ended.out.len() == room
        };
        if !is_right {
            return Ok(false);
        }
    }
    Ok(true)
}

// Runs the program with each room of the notes that is less than what they are to have: `out` is whole, and what fits is written.
fn fits_in_notes<R: Threads + Wait + Sync>(
    case: &Case,
    rt: &R,
    alloc: Global,
) -> Result<bool, AllocError> {
    for room in 0..case.notes.len() {
        let devices = Devices {
            notes_room: room,
            ..case.devices
        };
        let ended = case.run(rt, alloc, devices)?;
        let is_right = is_cut_off(case, &ended)
            && ended.out.len() == case.out.len()
            && ended.notes.len() == room;
        if !is_right {
            return Ok(false);
        }
    }
    Ok(true)
}

/// The run comes out as said where reads give one byte, seven or sixty-four at most; and with each read, each put and each room of
/// the sinks failing it ends as it is to.
pub fn is_steady<R: Threads + Wait + Sync>(
    case: &Case,
    rt: &R,
    alloc: Global,
) -> Result<bool, AllocError> {
    for most in [1, 7, 64] {
        let devices = Devices {
            most,
            ..case.devices
        };
        if !fails_in_turn(Call::Read, case, rt, alloc, devices)? {
            return Ok(false);
        }
    }
    Ok(
        fails_in_turn(Call::Put, case, rt, alloc, case.devices)?
            && fails_in_turn(Call::Note, case, rt, alloc, case.devices)?
            && fits_in_rooms(case, rt, alloc)?
            && fits_in_notes(case, rt, alloc)?,
    )
}
