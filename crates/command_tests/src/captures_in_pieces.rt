//! Captures in memory that are read record by record. Their bytes are spelt by hand.

ghost use Rattle.std.specs.Prelude.{◌≡◌, ◌-◌, length};
ghost use Rattle.folders.specs.PieceReading.{HasRoom};

use crate::asserting::holds_of;
use capture_readings::Reading as How;
use folders::{CaptureReader, Folder, MemoryFolder, RecordBuffer};
use std::alloc::Global;
use std::process::Abort;
use wire::{CaptureFault, Sent};

/// The header of version 2.4 for Ethernet, low byte first.
static HEADER: [u8; 24] = [
    0xd4, 0xc3, 0xb2, 0xa1, 2, 0, 4, 0, 0, 0, 0, 0, 0, 0, 0, 0, 0xff, 0xff, 0, 0, 1, 0, 0, 0,
];

/// A file is read as it is.
const AS_IT_IS: How = How {
    skip_long: false,
    pad_cut: false,
    allow_cut: false,
};

/// All that may be altered in it is.
const EVERYTHING: How = How {
    skip_long: true,
    pad_cut: true,
    allow_cut: true,
};

/// Long records are skipped, and no more.
const WITHOUT_LONG: How = How {
    skip_long: true,
    ..AS_IT_IS
};

/// Cut records get zeros, and no more.
const PADDED: How = How {
    pad_cut: true,
    ..AS_IT_IS
};

/// What a row shows, how a file is altered, what comes behind its header, how many records are read then, and of each of these the bytes of its
/// frame and 255; how many records were skipped, how many got zeros, how many bytes were left out at the end; and what comes last.
type AlteredRow = (
    &'static str,
    How,
    &'static [u8],
    u8,
    &'static [u8],
    (u64, u64, usize),
    Result<bool, CaptureFault>,
);

#[rattlefmt::skip]
static ALTERED: [AlteredRow; 11] = [
    ("one byte of three",          EVERYTHING,   b"\x01\0\0\0\x02\0\0\0\x01\0\0\0\x03\0\0\0a", 1, b"a\0\0\xff", (0, 1, 0), Ok(true)),
    ("the same, unasked",          WITHOUT_LONG, b"\x01\0\0\0\x02\0\0\0\x01\0\0\0\x03\0\0\0a", 1, b"a\xff", (0, 0, 0), Ok(true)),
    ("more than the frame had",    EVERYTHING,   b"\x01\0\0\0\x02\0\0\0\x02\0\0\0\x01\0\0\0ab", 1, b"ab\xff", (0, 0, 0), Ok(true)),
    ("zeros, and a whole record",  PADDED,       b"\x01\0\0\0\x02\0\0\0\0\0\0\0\x02\0\0\0\x01\0\0\0\x02\0\0\0\x01\0\0\0\x01\0\0\0b", 2,
        b"\0\0\xffb\xff", (0, 1, 0), Ok(true)),
    ("one byte of 9000",           EVERYTHING,   b"\x01\0\0\0\x02\0\0\0\x01\0\0\0\x28\x23\0\0a\x01\0\0\0\x02\0\0\0\x01\0\0\0\x01\0\0\0b",
        1, b"b\xff", (1, 0, 0), Ok(true)),
    ("the same, not skipped",      PADDED,       b"\x01\0\0\0\x02\0\0\0\x01\0\0\0\x28\x23\0\0a",
        0, b"", (0, 0, 0), Err(CaptureFault::FrameTooLong { record: 1 })),
    ("a head of 15 bytes",         EVERYTHING,   b"\x01\0\0\0\x02\0\0\0\x01\0\0\0\x01\0\0\0a\x01\0\0\0\x02\0\0\0\x01\0\0\0\x01\0\0",
        1, b"a\xff", (0, 0, 15), Ok(true)),
    ("a frame that lacks a byte",  EVERYTHING,   b"\x01\0\0\0\x02\0\0\0\x02\0\0\0\x02\0\0\0a", 0, b"", (0, 0, 17), Ok(true)),
    ("an end that is not allowed", PADDED,       b"\x01\0\0\0\x02\0\0\0\x02\0\0\0\x02\0\0\0a", 0, b"", (0, 0, 0), Err(CaptureFault::CutFrame { record: 0 })),
    ("a long frame that is cut",   EVERYTHING,   b"\x01\0\0\0\x02\0\0\0\x01\x08\0\0\x01\x08\0\0a", 0, b"", (0, 0, 17), Ok(true)),
    ("no record",                  EVERYTHING,   b"", 0, b"", (0, 0, 0), Ok(true)),
];

/// How many records a long capture has. They fill more than one window.
const MANY: u8 = 40;

/// What a row shows, what comes behind the header, how many records are read, and what comes then: `true` at the end of the file, or a
/// fault.
type Row = (&'static str, &'static [u8], u64, Result<bool, CaptureFault>);

#[rattlefmt::skip]
static ROWS: [Row; 9] = [
    ("no record",                  b"", 0, Ok(true)),
    ("a record with no bytes",     b"\x01\0\0\0\x02\0\0\0\0\0\0\0\x04\0\0\0", 1, Ok(true)),
    ("two records",                b"\x01\0\0\0\x02\0\0\0\x01\0\0\0\x01\0\0\0a\x01\0\0\0\x02\0\0\0\x02\0\0\0\x02\0\0\0bc", 2, Ok(true)),
    ("a head of one byte",         b"\x01", 0, Err(CaptureFault::CutHead { record: 1 })),
    ("a head of 15 bytes",         b"\x01\0\0\0\x02\0\0\0\0\0\0\0\x04\0\0", 0, Err(CaptureFault::CutHead { record: 1 })),
    ("a second head of one byte",  b"\x01\0\0\0\x02\0\0\0\x01\0\0\0\x01\0\0\0a\x01", 1, Err(CaptureFault::CutHead { record: 2 })),
    ("a frame that lacks a byte",  b"\x01\0\0\0\x02\0\0\0\x02\0\0\0\x02\0\0\0a", 0, Err(CaptureFault::CutFrame { record: 1 })),
    ("a second frame with none",   b"\x01\0\0\0\x02\0\0\0\0\0\0\0\0\0\0\0\x01\0\0\0\x02\0\0\0\x01\0\0\0\x01\0\0\0", 1,
        Err(CaptureFault::CutFrame { record: 2 })),
    ("a frame of 2049 bytes",      b"\x01\0\0\0\x02\0\0\0\x01\x08\0\0\x01\x08\0\0", 0, Err(CaptureFault::FrameTooLong { record: 1 })),
];

/// Two records; each of their numbers shows the order of its bytes.
#[rattlefmt::skip]
const TWO_RECORDS: &[u8] = b"\x04\x03\x02\x01\x3f\x42\x0f\0\x03\0\0\0\x05\0\0\0abc\xff\xff\xff\xff\0\0\0\0\x01\0\0\0\x01\0\0\0\xfe";

/// What a row shows, a file, and the fault of its header.
type HeaderRow = (&'static str, &'static [u8], CaptureFault);

#[rattlefmt::skip]
static HEADERS: [HeaderRow; 6] = [
    ("no bytes",           b"", CaptureFault::CutHead { record: 0 }),
    ("23 bytes",           b"\xd4\xc3\xb2\xa1\x02\0\x04\0\0\0\0\0\0\0\0\0\xff\xff\0\0\x01\0\0", CaptureFault::CutHead { record: 0 }),
    ("high byte first",    b"\xa1\xb2\xc3\xd4\0\x02\0\x04\0\0\0\0\0\0\0\0\0\0\xff\xff\0\0\0\x01", CaptureFault::BadMagic),
    ("version 2.3",        b"\xd4\xc3\xb2\xa1\x02\0\x03\0\0\0\0\0\0\0\0\0\xff\xff\0\0\x01\0\0\0", CaptureFault::BadVersion),
    ("version 3.4",        b"\xd4\xc3\xb2\xa1\x03\0\x04\0\0\0\0\0\0\0\0\0\xff\xff\0\0\x01\0\0\0", CaptureFault::BadVersion),
    ("raw packets",        b"\xd4\xc3\xb2\xa1\x02\0\x04\0\0\0\0\0\0\0\0\0\xff\xff\0\0\x65\0\0\0", CaptureFault::BadLink),
];

/// A folder with one file, which has these bytes.
fn folder_of<R: Abort>(rt: &R, alloc: Global, bytes: &[u8]) -> MemoryFolder
    ensures { result.failures ≡ 0 }
{
    let mut folder = MemoryFolder::new(alloc);
    folder
        .write(alloc, "capture", bytes)
        .expect(rt, "a file in memory");
    folder
}

/// A file that has the header and these bytes.
fn file_of<R: Abort>(rt: &R, alloc: Global, behind: &[u8]) -> Vec<u8> {
    let mut bytes = Vec::from_slice(alloc, &HEADER).expect(rt, "a header");
    bytes.extend_from_slice(behind).expect(rt, "records");
    bytes
}

/// A file with many records of 2048 bytes. All bytes of a record are its number, counted from 0, as are its seconds.
fn long_file_of<R: Abort>(rt: &R, alloc: Global) -> Vec<u8> {
    let mut bytes = Vec::from_slice(alloc, &HEADER).expect(rt, "a header");
    for number in 0..MANY {
        let head = [number, 0, 0, 0, 0, 0, 0, 0, 0, 8, 0, 0, 0, 8, 0, 0];
        bytes.extend_from_slice(&head).expect(rt, "a head");
        bytes
            .extend_from_slice(&[number; 2048])
            .expect(rt, "a frame");
    }
    bytes
}

/// A folder, and a reader of the file that it has open.
#[derive(Drop)]
struct Reading {
    reader: CaptureReader,
    folder: MemoryFolder,
    ghost failures: { folder.failures ≡ 0 },
    ghost room: { HasRoom (length folder.opened.items - folder.given) reader },
}

/// A reader behind the header of a file that has these bytes.
fn reading_of<R: Abort>(rt: &R, alloc: Global, bytes: &[u8]) -> Reading {
    altered_of(rt, alloc, bytes, AS_IT_IS)
}

/// The same, where the file is altered.
fn altered_of<R: Abort>(rt: &R, alloc: Global, bytes: &[u8], how: How) -> Reading {
    let mut folder = folder_of(rt, alloc, bytes);
    let reader = CaptureReader::open(alloc, &mut folder, "capture", how)
        .expect(rt, "a header")
        .expect(rt, "a file in pieces");
    Reading { reader, folder }
}

/// Reads on, and adds the next record to those of a buffer.
fn next_of<R: Abort>(
    rt: &R,
    alloc: Global,
    reading: Reading,
    buffer: &mut RecordBuffer,
) -> Reading {
    let Reading {
        mut reader,
        mut folder,
    } = reading;
    let head = reader
        .find(&mut folder)
        .expect(rt, "no fault")
        .expect(rt, "a record");
    reader.keep(alloc, head, buffer).expect(rt, "a record kept");
    Reading { reader, folder }
}

/// Reads on, and goes past the next record.
fn passed_of<R: Abort>(rt: &R, reading: Reading) -> Reading {
    let Reading {
        mut reader,
        mut folder,
    } = reading;
    let head = reader
        .find(&mut folder)
        .expect(rt, "no fault")
        .expect(rt, "a record");
    reader.pass(head);
    Reading { reader, folder }
}

/// A record of a buffer.
fn record_at<'a, R: Abort>(rt: &R, buffer: &'a RecordBuffer, place: usize) -> &'a Sent {
    buffer.capture().records.get(place).expect(rt, "a record")
}

/// Holds what comes next against what is wanted: `true` at the end of the file, or a fault.
fn compare_last<R: Abort>(
    rt: &R,
    name: &str,
    reading: Reading,
    wanted: Result<bool, CaptureFault>,
) {
    let Reading {
        mut reader,
        mut folder,
    } = reading;
    let found = match reader.find(&mut folder) {
        Ok(head) => Ok(head.is_none()),
        Err(fault) => Err(fault),
    };
    holds_of(rt, name, "what comes last", found == wanted);
}

/// Reads a file to its end.
fn compare_row<R: Abort>(rt: &R, alloc: Global, row: &Row) {
    let mut reading = reading_of(rt, alloc, &file_of(rt, alloc, row.1));
    for _ in 0..row.2 {
        reading = passed_of(rt, reading);
    }
    holds_of(rt, row.0, "records", reading.reader.count() == row.2);
    compare_last(rt, row.0, reading, row.3);
}

#[test]
fn files_are_read_to_their_end(rt: HostRuntime) {
    for row in &ROWS {
        compare_row(&rt, rt.alloc(), row);
    }
}

/// Opens a file that is refused.
fn compare_header<R: Abort>(rt: &R, alloc: Global, row: &HeaderRow) {
    let mut folder = folder_of(rt, alloc, row.1);
    let found = match CaptureReader::open(alloc, &mut folder, "capture", AS_IT_IS) {
        Ok(_) => None,
        Err(fault) => Some(fault),
    };
    holds_of(rt, row.0, "the fault", found == Some(row.2));
}

#[test]
fn headers_are_refused(rt: HostRuntime) {
    for row in &HEADERS {
        compare_header(&rt, rt.alloc(), row);
    }
}

#[test]
fn a_file_that_is_not_there_is_a_failure(rt: HostRuntime) {
    let mut folder = MemoryFolder::new(rt.alloc());
    let found = match CaptureReader::open(rt.alloc(), &mut folder, "capture", AS_IT_IS) {
        Ok(_) => None,
        Err(fault) => Some(fault),
    };
    let name = "a file that is not there";
    holds_of(&rt, name, "fault", found == Some(CaptureFault::Device));
    holds_of(&rt, name, "one failure", folder.failures() == 1);
}

#[test]
fn records_have_their_moments_and_bytes(rt: HostRuntime) {
    let alloc = rt.alloc();
    let name = "two records";
    let bytes = file_of(&rt, alloc, TWO_RECORDS);
    let mut buffer = RecordBuffer::new(alloc);
    let reading = next_of(&rt, alloc, reading_of(&rt, alloc, &bytes), &mut buffer);
    let _ = next_of(&rt, alloc, reading, &mut buffer);
    let first = record_at(&rt, &buffer, 0);
    holds_of(&rt, name, "seconds", first.seconds == 16_909_060);
    holds_of(&rt, name, "micros", first.micros == 999_999);
    holds_of(
        &rt,
        name,
        "bytes",
        first.bytes.as_slice() == b"abc".as_slice(),
    );
    let second = record_at(&rt, &buffer, 1);
    holds_of(&rt, name, "last second", second.seconds == u32::MAX);
    holds_of(&rt, name, "no micros", second.micros == 0);
    holds_of(
        &rt,
        name,
        "one byte",
        second.bytes.as_slice() == b"\xfe".as_slice(),
    );
}

/// Reads the first records of a long file, each into a buffer that is cleared before.
fn compare_long<R: Abort>(rt: &R, alloc: Global, mut reading: Reading, count: u8) -> Reading {
    let name = "a long file";
    let mut buffer = RecordBuffer::new(alloc);
    for number in 0..count {
        buffer.clear();
        reading = next_of(rt, alloc, reading, &mut buffer);
        let sent = record_at(rt, &buffer, 0);
        holds_of(rt, name, "one record", buffer.len() == 1);
        holds_of(rt, name, "seconds", sent.seconds == u32::from(number));
        let same = sent.bytes.as_slice() == [number; 2048].as_slice();
        holds_of(rt, name, "bytes", same);
    }
    reading
}

#[test]
fn records_lie_over_the_end_of_a_window(rt: HostRuntime) {
    let alloc = rt.alloc();
    let name = "a long file";
    let start = reading_of(&rt, alloc, &long_file_of(&rt, alloc));
    let reading = compare_long(&rt, alloc, start, MANY);
    holds_of(&rt, name, "records", reading.reader.count() == 40);
    compare_last(&rt, name, reading, Ok(true));
}

#[test]
fn a_long_file_lacks_its_last_byte(rt: HostRuntime) {
    let alloc = rt.alloc();
    let mut bytes = long_file_of(&rt, alloc);
    bytes.truncate(24 + 40 * 2064 - 1);
    let start = reading_of(&rt, alloc, &bytes);
    let reading = compare_long(&rt, alloc, start, MANY - 1);
    let fault = Err(CaptureFault::CutFrame { record: 40 });
    compare_last(&rt, "a long file that is cut", reading, fault);
}

#[test]
fn a_buffer_is_filled_again_with_fewer_and_shorter_records(rt: HostRuntime) {
    let alloc = rt.alloc();
    let name = "two records behind three long ones";
    let mut buffer = RecordBuffer::new(alloc);
    let mut long = reading_of(&rt, alloc, &long_file_of(&rt, alloc));
    for _ in 0..3 {
        long = next_of(&rt, alloc, long, &mut buffer);
    }
    holds_of(&rt, name, "three", buffer.len() == 3);
    buffer.clear();
    holds_of(&rt, name, "none", buffer.is_empty());
    let bytes = file_of(&rt, alloc, TWO_RECORDS);
    let reading = next_of(&rt, alloc, reading_of(&rt, alloc, &bytes), &mut buffer);
    let _ = next_of(&rt, alloc, reading, &mut buffer);
    holds_of(&rt, name, "two", buffer.len() == 2);
    let first = record_at(&rt, &buffer, 0).bytes.as_slice();
    holds_of(&rt, name, "three bytes", first == b"abc".as_slice());
    let second = record_at(&rt, &buffer, 1).bytes.as_slice();
    holds_of(&rt, name, "one byte", second == b"\xfe".as_slice());
}

#[test]
fn a_record_is_kept_behind_one_that_is_passed(rt: HostRuntime) {
    let alloc = rt.alloc();
    let name = "the second of two records";
    let bytes = file_of(&rt, alloc, TWO_RECORDS);
    let mut buffer = RecordBuffer::new(alloc);
    let reading = passed_of(&rt, reading_of(&rt, alloc, &bytes));
    let reading = next_of(&rt, alloc, reading, &mut buffer);
    holds_of(&rt, name, "one kept", buffer.len() == 1);
    let kept = record_at(&rt, &buffer, 0).bytes.as_slice();
    holds_of(&rt, name, "its byte", kept == b"\xfe".as_slice());
    holds_of(&rt, name, "both counted", reading.reader.count() == 2);
    compare_last(&rt, name, reading, Ok(true));
}

#[test]
fn cut_records_are_counted(rt: HostRuntime) {
    let alloc = rt.alloc();
    let bytes = file_of(&rt, alloc, TWO_RECORDS);
    let reading = passed_of(&rt, reading_of(&rt, alloc, &bytes));
    holds_of(
        &rt,
        "a record of 5 bytes that keeps 3",
        "cut",
        reading.reader.cut() == 1,
    );
    let reading = passed_of(&rt, reading);
    holds_of(&rt, "and a whole one", "cut", reading.reader.cut() == 1);
}

/// Holds the frames of a buffer against those of a row.
fn compare_frames<R: Abort>(rt: &R, alloc: Global, row: &AlteredRow, buffer: &RecordBuffer) {
    let mut found = Vec::new(alloc);
    for sent in &buffer.capture().records {
        found.extend_from_slice(&sent.bytes).expect(rt, "memory");
        found.push(0xff).expect(rt, "memory");
    }
    holds_of(rt, row.0, "frames", found.as_slice() == row.4);
}

/// Reads on in an altered file, behind all records that a row has of it.
fn compare_altered_end<R: Abort>(rt: &R, row: &AlteredRow, reading: Reading) {
    let Reading {
        mut reader,
        mut folder,
    } = reading;
    let found = match reader.find(&mut folder) {
        Ok(head) => Ok(head.is_none()),
        Err(fault) => Err(fault),
    };
    holds_of(rt, row.0, "what comes last", found == row.6);
    let done = reader.alterations();
    holds_of(rt, row.0, "skipped", done.skipped == row.5.0);
    holds_of(rt, row.0, "padded", done.padded == row.5.1);
    holds_of(rt, row.0, "left over", done.left_over == row.5.2);
}

/// Reads an altered file to its end.
fn compare_altered<R: Abort>(rt: &R, alloc: Global, row: &AlteredRow) {
    let mut reading = altered_of(rt, alloc, &file_of(rt, alloc, row.2), row.1);
    let mut buffer = RecordBuffer::new(alloc);
    for _ in 0..row.3 {
        reading = next_of(rt, alloc, reading, &mut buffer);
    }
    compare_frames(rt, alloc, row, &buffer);
    compare_altered_end(rt, row, reading);
}

#[test]
fn files_are_altered_record_by_record(rt: HostRuntime) {
    for row in &ALTERED {
        compare_altered(&rt, rt.alloc(), row);
    }
}
