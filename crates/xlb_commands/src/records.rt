//! Lines for people on the records of a capture.

use mistakes::about_capture;
use std::alloc::{AllocError, Global};
use wire::{CAPTURE_HEADER_LEN, CaptureFault, MAX_FRAME, RECORD_HEAD_LEN};

/// Of bytes that are no capture: what the file is, or at which byte it is wrong.
pub(crate) fn of_capture(
    alloc: Global,
    bytes: &[u8],
    fault: CaptureFault,
) -> Result<Option<String>, AllocError> {
    let offset = match fault {
        CaptureFault::BadMagic | CaptureFault::BadVersion | CaptureFault::BadLink => {
            return Ok(Some(about_capture(alloc, bytes)?));
        }
        CaptureFault::CutHead { record } => record_offset(bytes, record),
        CaptureFault::CutFrame { record } => record_offset(bytes, record),
        CaptureFault::FrameTooLong { record } => record_offset(bytes, record),
        CaptureFault::Device => return Ok(None),
        CaptureFault::Memory => return Ok(None),
    };
    let all = bytes.len();
    let there = all.saturating_sub(offset);
    let what = match fault {
        CaptureFault::CutHead { record: 0 } => about_part(
            alloc,
            "a header",
            CAPTURE_HEADER_LEN,
            there,
        )?,
        CaptureFault::CutHead { .. } => about_part(
            alloc,
            "the head of a record",
            RECORD_HEAD_LEN,
            there,
        )?,
        _ => about_kept(
            alloc,
            kept_at(bytes, offset).unwrap_or(0),
            had_at(bytes, offset).unwrap_or(0),
            there.saturating_sub(RECORD_HEAD_LEN),
        )?,
    };
    Ok(Some(format!(in alloc; "at byte {offset} of {all}\n{what}")?))
}

/// Of a part of a capture whose end is not there.
fn about_part(alloc: Global, part: &str, bytes: usize, there: usize) -> Result<String, AllocError> {
    format!(in alloc; "{part} has {bytes} bytes, and the file ends after {there} of them")
}

/// Of a record that should keep `kept` bytes of a frame of `had`, where `there` bytes are left in the file: the file ends within it, or it
/// is too long, at least once it is padded.
fn about_kept(alloc: Global, kept: u32, had: u32, there: usize) -> Result<String, AllocError> {
    if there < kept as usize {
        let missing = (kept as usize).saturating_sub(there);
        let hint = if kept as usize <= MAX_FRAME {
            ": xlb replay --allow-cut reads up to there"
        } else {
            ""
        };
        return format!(in alloc;
            "the record keeps {kept} bytes by its head, and the file has {there} of them, {missing} too few{hint}"
        );
    }
    if kept as usize <= MAX_FRAME {
        return format!(in alloc;
            "the record keeps {kept} bytes of a frame of {had}, and a frame has at most {MAX_FRAME}: xlb replay --skip-long skips such records"
        );
    }
    format!(in alloc;
        "the record keeps {kept} bytes, and a frame has at most {MAX_FRAME}: xlb replay --skip-long skips such records"
    )
}

/// The same fault of a file that has `skipped` more records before the one that it names.
pub(crate) fn behind(fault: CaptureFault, skipped: u64) -> CaptureFault {
    match fault {
        CaptureFault::CutHead { record } => CaptureFault::CutHead {
            record: record.saturating_add(skipped),
        },
        CaptureFault::CutFrame { record } => CaptureFault::CutFrame {
            record: record.saturating_add(skipped),
        },
        CaptureFault::FrameTooLong { record } => CaptureFault::FrameTooLong {
            record: record.saturating_add(skipped),
        },
        other => other,
    }
}

/// Where the record of a number, counted from 1, begins; 0 for the header. The records before it are whole.
fn record_offset(bytes: &[u8], record: u64) -> usize {
    if record == 0 {
        return 0;
    }
    let mut at = CAPTURE_HEADER_LEN;
    'records: for _ in 1..record {
        match kept_at(bytes, at) {
            Some(kept) => at = at.saturating_add(RECORD_HEAD_LEN + kept as usize),
            None => return at,
        }
    }
    at
}

/// How many of the `records` records of a capture keep fewer bytes than their frames had.
pub(crate) fn cut_records(bytes: &[u8], records: usize) -> u64 {
    let mut cut = 0u64;
    let mut at = CAPTURE_HEADER_LEN;
    'records: for _ in 0..records {
        let Some(kept) = kept_at(bytes, at) else {
            return cut;
        };
        if had_at(bytes, at).unwrap_or(kept) > kept {
            cut = cut.saturating_add(1);
        }
        at = at.saturating_add(RECORD_HEAD_LEN + kept as usize);
    }
    cut
}

/// How many bytes the record at an offset keeps.
fn kept_at(bytes: &[u8], at: usize) -> Option<u32> {
    number_at(bytes, at.saturating_add(8))
}

/// How many bytes the frame of the record at an offset had when it was captured.
fn had_at(bytes: &[u8], at: usize) -> Option<u32> {
    number_at(bytes, at.saturating_add(12))
}

/// The number in the four bytes at an offset.
fn number_at(bytes: &[u8], at: usize) -> Option<u32> {
    let field = bytes.get(at..at.saturating_add(4))?;
    let mut number = 0u32;
    for (place, byte) in field.iter().enumerate() {
        if place < 4 {
            number |= (*byte as u32) << (8 * place as u32);
        }
    }
    Some(number)
}
