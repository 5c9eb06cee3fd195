//! Of a file that is no frame: what it is.

ghost use Rattle.std.specs.Prelude.{string_bytes, IfOk};
ghost use Rattle.mistakes.specs.Notes.{AreFewNotes};

use crate::kinds::{FileKind, kind_of, name_of};
use crate::notes::notes_of;
use std::alloc::{AllocError, Global};
use wire::MAX_FRAME;

/// How a frame is made of the file, or where it belongs.
#[rattlefmt::skip]
fn remedy_of(kind: FileKind) -> &'static str {
    match kind {
        FileKind::HexDigits => "xxd -r -p FRAME NEW makes bytes of hexadecimal digits",
        FileKind::Capture => "xlb replay runs the frames of a capture",
        FileKind::BigEndianCapture | FileKind::NanosecondCapture | FileKind::Pcapng
            => "xlb replay runs the frames of a classic capture; editcap -F pcap CAPTURE NEW makes one of this file (editcap comes with Wireshark)",
        FileKind::Gzip => "unpack it first: gzip -d FILE",
        FileKind::Image | FileKind::Elf | FileKind::ImageText | FileKind::Journals | FileKind::Script
            => "the frame comes after the image on the command line: are two names swapped?",
        FileKind::Empty | FileKind::Frame | FileKind::Text | FileKind::Unknown => "",
    }
}

/// Lines for people on a file that is no frame (faults 6 and 9): what it is, and how a frame is made of it, or how long it is.
///
/// At most three lines, each with two spaces at its beginning and a line feed at its end. It can fail only for lack of memory.
pub fn about_frame(alloc: Global, bytes: &[u8]) -> Result<String, AllocError>
    ensures { IfOk result (λ text. AreFewNotes 3 (string_bytes text)) }
{
    let all = bytes.len();
    let long = if all > MAX_FRAME {
        String::from_str(alloc, "the file has more than 2048 bytes")?
    } else {
        format!(in alloc; "the file has {all} bytes")?
    };
    let kind = kind_of(alloc, bytes);
    let what = if remedy_of(kind).is_empty() {
        long.as_str()
    } else {
        name_of(kind)
    };
    notes_of(
        alloc,
        what,
        "expected the bytes of one Ethernet frame, 14 to 2048 of them",
        remedy_of(kind),
    )
}

/// Lines for people on a frame's file that is a text: what it is, that its letters are the frame's bytes, and how bytes are made of digits.
/// Nothing of other bytes.
///
/// At most three lines, each with two spaces at its beginning and a line feed at its end. It can fail only for lack of memory.
pub fn about_text_as_frame(alloc: Global, bytes: &[u8]) -> Result<String, AllocError>
    ensures { IfOk result (λ text. AreFewNotes 3 (string_bytes text)) }
{
    let kind = kind_of(alloc, bytes);
    if !kind.is_text() {
        return notes_of(alloc, "", "", "");
    }
    let all = bytes.len();
    let what = format!(in alloc; "FRAME: {}", name_of(kind))?;
    let run = format!(in alloc; "its {all} letters were run as the bytes of the frame")?;
    notes_of(alloc, what.as_str(), run.as_str(), remedy_of(kind))
}
