//! What examples of the program share: commands over files in memory.

ghost use Rattle.std.specs.Prelude.{◌≡◌};

use crate::asserting::{holds, same, same_bytes};
use command_line::settings;
use folders::{Folder, MemoryFolder};
use std::alloc::Global;
use std::process::Abort;
use std::sync::Wait;
use std::thread::Threads;
use wire::MemorySink;
use xlb_commands::{NoProgress, serve};

/// A frame of 14 zeros, in hexadecimal digits.
pub(crate) const ZEROS: &str = "0000000000000000000000000000";

/// What the program gave: its status, and what it printed; and its folder.
#[derive(Drop)]
struct Given {
    status: u8,
    out: MemorySink,
    err: MemorySink,
    folder: MemoryFolder,
}

/// A folder with a file more.
pub(crate) fn put<R: Abort>(
    rt: &R,
    alloc: Global,
    mut folder: MemoryFolder,
    file: &str,
    bytes: &[u8],
) -> MemoryFolder
    requires { folder.failures ≡ 0 }
    ensures { result.failures ≡ 0 }
{
    folder
        .write(alloc, file, bytes)
        .expect(rt, "a file in memory");
    folder
}

/// A folder with a file more, of these hexadecimal digits.
pub(crate) fn put_digits<R: Abort>(
    rt: &R,
    alloc: Global,
    folder: MemoryFolder,
    file: &str,
    digits: &str,
) -> MemoryFolder
    requires { folder.failures ≡ 0 }
    ensures { result.failures ≡ 0 }
{
    let bytes = hex::decode(alloc, digits).expect(rt, "hexadecimal digits");
    put(rt, alloc, folder, file, &bytes)
}

/// The program run over a folder.
fn serve_line<R: Abort + Threads + Wait + Sync>(
    rt: &R,
    alloc: Global,
    mut folder: MemoryFolder,
    line: &str,
) -> Given
    requires { folder.failures ≡ 0 }
{
    let words: Vec<&str> = line.split(' ').collect(alloc).expect(rt, "words");
    let settings = settings(alloc, words.as_slice()).expect(rt, "a command line");
    let mut out = MemorySink::new(alloc);
    let mut err = MemorySink::new(alloc);
    let status = serve(
        rt,
        alloc,
        &settings,
        &mut folder,
        &NoProgress,
        &mut out,
        &mut err,
    );
    Given {
        status,
        out,
        err,
        folder,
    }
}

/// A command of this status prints this on its output. Hands on the folder that it leaves.
pub(crate) fn reports<R: Abort + Threads + Wait + Sync>(
    rt: &R,
    alloc: Global,
    folder: MemoryFolder,
    line: &str,
    status: u8,
    out: &str,
) -> MemoryFolder
    requires { folder.failures ≡ 0 }
    ensures { result.failures ≡ 0 }
{
    let found = serve_line(rt, alloc, folder, line);
    same_bytes(rt, line, found.out.bytes(), out.as_bytes());
    same(rt, line, &found.status, &status);
    holds(rt, "no device fails", found.folder.failures() == 0);
    found.folder
}

/// A command succeeds, and prints this.
pub(crate) fn prints<R: Abort + Threads + Wait + Sync>(
    rt: &R,
    alloc: Global,
    folder: MemoryFolder,
    line: &str,
    out: &str,
) -> MemoryFolder
    requires { folder.failures ≡ 0 }
    ensures { result.failures ≡ 0 }
{
    reports(rt, alloc, folder, line, 0, out)
}

/// A command is refused: it prints nothing on its output, and the error stream begins with the line of this fault.
pub(crate) fn refuses<R: Abort + Threads + Wait + Sync>(
    rt: &R,
    alloc: Global,
    folder: MemoryFolder,
    line: &str,
    fault: &str,
) -> MemoryFolder
    requires { folder.failures ≡ 0 }
    ensures { result.failures ≡ 0 }
{
    let found = serve_line(rt, alloc, folder, line);
    same_bytes(rt, line, found.out.bytes(), b"");
    holds(rt, fault, found.err.bytes().starts_with(fault.as_bytes()));
    same(rt, line, &found.status, &1);
    holds(rt, "no device fails", found.folder.failures() == 0);
    found.folder
}

/// A file of a folder has these bytes.
pub(crate) fn has_file<R: Abort>(
    rt: &R,
    alloc: Global,
    mut folder: MemoryFolder,
    file: &str,
    wanted: &[u8],
) -> MemoryFolder
    requires { folder.failures ≡ 0 }
    ensures { result.failures ≡ 0 }
{
    let bytes = folder.read(alloc, file).expect(rt, "the file was written");
    same_bytes(rt, file, &bytes, wanted);
    folder
}

/// A file of a folder has the bytes of these hexadecimal digits.
pub(crate) fn has_digits<R: Abort>(
    rt: &R,
    alloc: Global,
    folder: MemoryFolder,
    file: &str,
    digits: &str,
) -> MemoryFolder
    requires { folder.failures ≡ 0 }
    ensures { result.failures ≡ 0 }
{
    let wanted = hex::decode(alloc, digits).expect(rt, "hexadecimal digits");
    has_file(rt, alloc, folder, file, &wanted)
}

/// A folder has no file of this name.
pub(crate) fn has_no_file<R: Abort>(rt: &R, alloc: Global, mut folder: MemoryFolder, file: &str)
    requires { folder.failures ≡ 0 }
{
    let is_lacking = folder.read(alloc, file).is_err();
    holds(rt, "no file", is_lacking);
}

/// A folder with the image of these hexadecimal digits.
pub(crate) fn with_image_of_digits<R: Abort>(rt: &R, alloc: Global, digits: &str) -> MemoryFolder
    ensures { result.failures ≡ 0 }
{
    put_digits(rt, alloc, MemoryFolder::new(alloc), "image", digits)
}

/// A folder with the image that `xlb asm` makes of a text.
pub(crate) fn with_image<R: Abort + Threads + Wait + Sync>(
    rt: &R,
    alloc: Global,
    text: &str,
) -> MemoryFolder
    ensures { result.failures ≡ 0 }
{
    let folder = put(rt, alloc, MemoryFolder::new(alloc), "text", text.as_bytes());
    prints(rt, alloc, folder, "xlb asm text image", "")
}

/// `xlb run` of an image over a frame prints this verdict and number of instructions, and this frame.
pub(crate) fn runs_to<R: Abort + Threads + Wait + Sync>(
    rt: &R,
    alloc: Global,
    folder: MemoryFolder,
    words: &str,
    frame: &str,
    ended: &str,
    left: &str,
) -> MemoryFolder
    requires { folder.failures ≡ 0 }
    ensures { result.failures ≡ 0 }
{
    let folder = put_digits(rt, alloc, folder, "frame", frame);
    let line = format!(in alloc; "xlb run image frame{words}").expect(rt, "a line");
    let out = format!(in alloc; "{ended}\nframe {left}\n").expect(rt, "three lines");
    prints(rt, alloc, folder, &line, &out)
}

/// A program's text, run with these words over a frame of these digits, which it leaves as it was, ends so.
pub(crate) fn runs<R: Abort + Threads + Wait + Sync>(
    rt: &R,
    alloc: Global,
    text: &str,
    words: &str,
    frame: &str,
    ended: &str,
) {
    let folder = with_image(rt, alloc, text);
    runs_to(rt, alloc, folder, words, frame, ended, frame);
}

/// A program's text, run over a frame of 14 zeros, ends so and leaves these journals.
pub(crate) fn runs_and_leaves<R: Abort + Threads + Wait + Sync>(
    rt: &R,
    alloc: Global,
    text: &str,
    frame: &str,
    ended: &str,
    journals: &str,
) {
    let folder = with_image(rt, alloc, text);
    let words = " --journals journals";
    let folder = runs_to(rt, alloc, folder, words, frame, ended, frame);
    has_file(rt, alloc, folder, "journals", journals.as_bytes());
}
