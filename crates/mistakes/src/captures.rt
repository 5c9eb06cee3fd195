//! Of a file that is no capture as this program reads it: what it is, and the command that makes one of it.

ghost use Rattle.std.specs.Prelude.{string_bytes, IfOk};
ghost use Rattle.mistakes.specs.Notes.{AreFewNotes};

use crate::kinds::{FileKind, kind_of, name_of};
use crate::notes::notes_of;
use crate::quoting::first_bytes;
use std::alloc::{AllocError, Global};

/// What is wanted.
const WANTED: &str =
    "expected a classic capture, low byte first, with microseconds: it begins with d4 c3 b2 a1";

/// How a capture is made of the file, or where it belongs.
#[rattlefmt::skip]
fn remedy_of(kind: FileKind) -> &'static str {
    match kind {
        FileKind::BigEndianCapture | FileKind::NanosecondCapture | FileKind::Pcapng
            => "editcap -F pcap CAPTURE NEW writes it as a classic capture (editcap comes with Wireshark)",
        FileKind::Gzip => "unpack it first: gzip -d FILE",
        FileKind::Frame => "xlb run IMAGE FRAME runs one frame; text2pcap and editcap make captures",
        FileKind::HexDigits
            => "text2pcap makes a capture of hexadecimal digits with offsets in front of them: \
                xxd -g 1 FRAME | text2pcap - NEW (text2pcap comes with Wireshark)",
        FileKind::Image | FileKind::Elf | FileKind::ImageText | FileKind::Journals | FileKind::Script => "are two names on the command line swapped?",
        FileKind::Empty | FileKind::Capture | FileKind::Text | FileKind::Unknown => "",
    }
}

/// The number of two bytes from a place on, the low byte first.
fn number_at(bytes: &[u8], place: usize) -> u32 {
    match bytes.get(place..place.saturating_add(2)) {
        Some(field) => number_of(field),
        None => 0,
    }
}

fn number_of(field: &[u8]) -> u32 {
    match (field.first(), field.get(1)) {
        (Some(low), Some(high)) => u32::from(*low) + 256 * u32::from(*high),
        _ => 0,
    }
}

/// What frames of a link type are.
#[rattlefmt::skip]
fn link_name(link: u32) -> &'static str {
    match link {
        0 => " (BSD loopback)",
        12 | 14 | 101 | 228 | 229 => " (IP packets without a frame)",
        105 | 127 => " (wireless)",
        113 | 276 => " (Linux cooked: a capture on the interface \"any\")",
        _ => "",
    }
}

/// Of a capture's header: the version, or the link type.
fn about_header(alloc: Global, bytes: &[u8]) -> Result<String, AllocError>
    ensures { IfOk result (λ text. AreFewNotes 3 (string_bytes text)) }
{
    let major = number_at(bytes, 4);
    let minor = number_at(bytes, 6);
    if major != 2 || minor != 4 {
        let wrong = format!(in alloc; "the capture's version is {major}.{minor}")?;
        return notes_of(
            alloc,
            wrong.as_str(),
            "expected 2.4",
            "editcap -F pcap CAPTURE NEW writes it so (editcap comes with Wireshark)",
        );
    }
    let link = number_at(bytes, 20);
    let wrong = format!(in alloc; "the capture's link type is {link}{}", link_name(link))?;
    notes_of(
        alloc,
        wrong.as_str(),
        "expected 1, Ethernet",
        "capture on an Ethernet interface by its name, as in tcpdump -i eth0 -w NEW",
    )
}

/// Of a file that begins as no other kind does.
fn about_unknown(alloc: Global, bytes: &[u8]) -> Result<String, AllocError>
    ensures { IfOk result (λ text. AreFewNotes 3 (string_bytes text)) }
{
    let found = first_bytes(alloc, bytes)?;
    let begun = format!(in alloc; "the file begins with the bytes {found}")?;
    notes_of(alloc, begun.as_str(), WANTED, "")
}

/// Lines for people on a file whose header is none of a capture that this program reads (faults 1, 2 and 3): what the file is, and the
/// command that makes such a capture of it.
///
/// At most three lines, each with two spaces at its beginning and a line feed at its end. It can fail only for lack of memory.
pub fn about_capture(alloc: Global, bytes: &[u8]) -> Result<String, AllocError>
    ensures { IfOk result (λ text. AreFewNotes 3 (string_bytes text)) }
{
    let kind = kind_of(alloc, bytes);
    if kind == FileKind::Capture {
        return about_header(alloc, bytes);
    }
    if kind == FileKind::Unknown {
        return about_unknown(alloc, bytes);
    }
    notes_of(alloc, name_of(kind), WANTED, remedy_of(kind))
}
