//! Each command over files in memory.
//!
//! A test is a table and one call for each row: what a command comes to is compared in helpers, which own all that must be dropped.

ghost use Rattle.std.specs.Prelude.{◌≡◌, ◌-◌, ◌<◌, ◌^◌};

mod assembling;
mod audits;
mod changed_captures;
mod checked_sources;
mod clashes;
mod comparisons;
mod cut_captures;
mod devices;
mod end_maps;
mod explained;
mod failing_devices;
mod failing_pieces;
mod fault_texts;
mod first_path;
mod images;
mod in_pieces;
mod long_records;
mod looking_back;
mod one_run;
mod parts;
mod parts_in_pieces;
mod programs;
mod record_reports;
mod replays;
mod run_journals;
mod shipped;
mod sources;
mod summaries_in_pieces;
mod tables;
mod timed;
mod updates;
mod weak_devices;

use crate::asserting::{holds_of, same_bytes_of, same_status};
use command_line::settings;
use folders::{Folder, MemoryFolder};
use std::alloc::Global;
use std::process::Abort;
use std::sync::Wait;
use std::thread::Threads;
use wire::MemorySink;
use xlb_commands::{NoProgress, serve};

/// A frame of 14 zeros.
const ZEROS: &[u8] = &[0; 14];

/// What a command is to come to: its status, and what it prints on the output and on the error stream.
#[derive(Clone, Copy)]
struct Wanted<'a> {
    status: u8,
    out: &'a str,
    err: &'a str,
}

/// What a command comes to that succeeds and prints nothing.
const NOTHING: Wanted<'static> = Wanted {
    status: 0,
    out: "",
    err: "",
};

/// What an audit of legal journals comes to.
const LEGAL: Wanted<'static> = Wanted {
    status: 0,
    out: "legal\n",
    err: "",
};

/// What a command comes to that is refused and prints this.
fn refused(err: &str) -> Wanted<'_> {
    Wanted {
        status: 1,
        out: "",
        err,
    }
}

/// What the program gave: its status, and what it printed; and its folder.
#[derive(Drop)]
struct Given {
    status: u8,
    out: MemorySink,
    err: MemorySink,
    folder: MemoryFolder,
}

/// A folder with a file more.
fn put<R: Abort>(
    rt: &R,
    alloc: Global,
    mut folder: MemoryFolder,
    file: &str,
    bytes: &[u8],
) -> MemoryFolder
    requires { folder.failures ≡ 0 }
    ensures { result.failures ≡ 0 }
{
    folder
        .write(alloc, file, bytes)
        .expect(rt, "a file in memory");
    folder
}

/// A folder with a file more, of these hexadecimal digits.
fn put_digits<R: Abort>(
    rt: &R,
    alloc: Global,
    folder: MemoryFolder,
    file: &str,
    digits: &str,
) -> MemoryFolder
    requires { folder.failures ≡ 0 }
    ensures { result.failures ≡ 0 }
{
    let bytes = hex::decode(alloc, digits).expect(rt, "hexadecimal digits");
    put(rt, alloc, folder, file, &bytes)
}

/// The program run over a folder.
fn serve_line<R: Abort + Threads + Wait + Sync>(
    rt: &R,
    alloc: Global,
    mut folder: MemoryFolder,
    line: &str,
) -> Given
    requires { folder.failures ≡ 0 }
{
    let words: Vec<&str> = line.split(' ').collect(alloc).expect(rt, "words");
    let settings = settings(alloc, words.as_slice()).expect(rt, "a command line");
    let mut out = MemorySink::new(alloc);
    let mut err = MemorySink::new(alloc);
    let status = serve(
        rt,
        alloc,
        &settings,
        &mut folder,
        &NoProgress,
        &mut out,
        &mut err,
    );
    Given {
        status,
        out,
        err,
        folder,
    }
}

/// The program run over a folder, held against what is wanted.
fn answered<R: Abort + Threads + Wait + Sync>(
    rt: &R,
    alloc: Global,
    name: &str,
    folder: MemoryFolder,
    line: &str,
    wanted: Wanted<'_>,
) -> Given
    requires { folder.failures ≡ 0 }
{
    let found = serve_line(rt, alloc, folder, line);
    same_bytes_of(rt, name, "error", found.err.bytes(), wanted.err.as_bytes());
    same_bytes_of(rt, name, "output", found.out.bytes(), wanted.out.as_bytes());
    same_status(rt, name, found.status, wanted.status);
    found
}

/// Holds what a command comes to over a folder against what is wanted.
fn compare<R: Abort + Threads + Wait + Sync>(
    rt: &R,
    alloc: Global,
    name: &str,
    folder: MemoryFolder,
    line: &str,
    wanted: Wanted<'_>,
)
    requires { folder.failures ≡ 0 }
{
    answered(rt, alloc, name, folder, line, wanted);
}

/// The folder that a command leaves which is to give this, and at which no device fails.
fn left_by<R: Abort + Threads + Wait + Sync>(
    rt: &R,
    alloc: Global,
    name: &str,
    folder: MemoryFolder,
    line: &str,
    wanted: Wanted<'_>,
) -> MemoryFolder
    requires { folder.failures ≡ 0 }
    ensures { result.failures ≡ 0 }
{
    let found = answered(rt, alloc, name, folder, line, wanted);
    holds_of(rt, name, "device", found.folder.failures() == 0);
    found.folder
}

/// The program run over a folder by a command that is to succeed, whatever it prints, and at which no device fails.
fn succeeded<R: Abort + Threads + Wait + Sync>(
    rt: &R,
    alloc: Global,
    name: &str,
    folder: MemoryFolder,
    line: &str,
) -> Given
    requires { folder.failures ≡ 0 }
    ensures { result.folder.failures ≡ 0 }
{
    let found = serve_line(rt, alloc, folder, line);
    same_status(rt, name, found.status, 0);
    holds_of(rt, name, "device", found.folder.failures() == 0);
    found
}

/// The folder that a command leaves which is to succeed.
fn done<R: Abort + Threads + Wait + Sync>(
    rt: &R,
    alloc: Global,
    name: &str,
    folder: MemoryFolder,
    line: &str,
) -> MemoryFolder
    requires { folder.failures ≡ 0 }
    ensures { result.failures ≡ 0 }
{
    succeeded(rt, alloc, name, folder, line).folder
}

/// A folder with a file more, of what a command prints over it that is to succeed.
fn put_printed<R: Abort + Threads + Wait + Sync>(
    rt: &R,
    alloc: Global,
    name: &str,
    folder: MemoryFolder,
    line: &str,
    file: &str,
) -> MemoryFolder
    requires { folder.failures ≡ 0 }
    ensures { result.failures ≡ 0 }
{
    let found = succeeded(rt, alloc, name, folder, line);
    put(rt, alloc, found.folder, file, found.out.bytes())
}

/// Holds what a command prints over a folder against what it is to begin with; a stream is to be empty where nothing is wanted of it.
fn compare_begins<R: Abort + Threads + Wait + Sync>(
    rt: &R,
    alloc: Global,
    name: &str,
    folder: MemoryFolder,
    line: &str,
    wanted: Wanted<'_>,
)
    requires { folder.failures ≡ 0 }
{
    let found = serve_line(rt, alloc, folder, line);
    same_status(rt, name, found.status, wanted.status);
    begins(rt, name, "output", found.out.bytes(), wanted.out.as_bytes());
    begins(rt, name, "error", found.err.bytes(), wanted.err.as_bytes());
}

/// Ends the test where bytes don't begin so, or are none or some where the others are not.
fn begins(rt: &impl Abort, name: &str, what: &str, found: &[u8], wanted: &[u8]) {
    holds_of(rt, name, what, found.starts_with(wanted));
    holds_of(rt, name, what, found.is_empty() == wanted.is_empty());
}

/// Holds a file of a folder against its bytes, and hands the folder back.
fn compare_file<R: Abort>(
    rt: &R,
    alloc: Global,
    name: &str,
    mut folder: MemoryFolder,
    file: &str,
    wanted: &[u8],
) -> MemoryFolder
    requires { folder.failures ≡ 0 }
    ensures { result.failures ≡ 0 }
{
    let bytes = folder.read(alloc, file).expect(rt, "the file was written");
    same_bytes_of(rt, name, file, &bytes, wanted);
    folder
}

/// Holds a file of a folder against the bytes of these hexadecimal digits.
fn compare_digits<R: Abort>(
    rt: &R,
    alloc: Global,
    name: &str,
    folder: MemoryFolder,
    file: &str,
    digits: &str,
)
    requires { folder.failures ≡ 0 }
{
    let wanted = hex::decode(alloc, digits).expect(rt, "hexadecimal digits");
    compare_file(rt, alloc, name, folder, file, &wanted);
}

/// Ends the test where a folder has a file of this name.
fn lacks<R: Abort>(rt: &R, alloc: Global, name: &str, mut folder: MemoryFolder, file: &str)
    requires { folder.failures ≡ 0 }
{
    let is_lacking = folder.read(alloc, file).is_err();
    holds_of(rt, name, "no file", is_lacking);
}

/// Holds that a command is refused, prints this, and writes no such file.
fn writes_nothing<R: Abort + Threads + Wait + Sync>(
    rt: &R,
    alloc: Global,
    name: &str,
    folder: MemoryFolder,
    line: &str,
    err: &str,
    file: &str,
)
    requires { folder.failures ≡ 0 }
{
    let folder = left_by(rt, alloc, name, folder, line, refused(err));
    lacks(rt, alloc, name, folder, file);
}

/// A folder with a text, and the image that is assembled from it.
fn with_image<R: Abort + Threads + Wait + Sync>(
    rt: &R,
    alloc: Global,
    name: &str,
    folder: MemoryFolder,
    text: &str,
) -> MemoryFolder
    requires { folder.failures ≡ 0 }
    ensures { result.failures ≡ 0 }
{
    let folder = put(rt, alloc, folder, "text", text.as_bytes());
    done(rt, alloc, name, folder, "xlb asm text image")
}

/// A folder of an image that is assembled from a text, and of a second file.
fn assembled<R: Abort + Threads + Wait + Sync>(
    rt: &R,
    alloc: Global,
    name: &str,
    text: &str,
    second: (&str, &[u8]),
) -> MemoryFolder
    ensures { result.failures ≡ 0 }
{
    let folder = put(rt, alloc, MemoryFolder::new(alloc), second.0, second.1);
    with_image(rt, alloc, name, folder, text)
}

/// Holds what a command comes to over the image of a text, and a second file, against what is wanted.
fn over_text<R: Abort + Threads + Wait + Sync>(
    rt: &R,
    alloc: Global,
    name: &str,
    text: &str,
    second: (&str, &[u8]),
    line: &str,
    wanted: Wanted<'_>,
) {
    let folder = assembled(rt, alloc, name, text, second);
    compare(rt, alloc, name, folder, line, wanted);
}
