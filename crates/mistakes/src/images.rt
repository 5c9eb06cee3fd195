//! Of a file that is no image: what it is, and which field of its head or of a map is wrong.

ghost use Rattle.std.specs.Prelude.{string_bytes, IfOk};
ghost use Rattle.mistakes.specs.Notes.{AreFewNotes};

use crate::kinds::{FileKind, kind_of, name_of};
use crate::notes::notes_of;
use crate::quoting::first_bytes;
use crate::scripts::BYTE_ORDER_MARK;
use ebpf_decode::image::{HEAD_LEN, MAP_LEN};
use std::alloc::{AllocError, Global};

/// What makes an image of the file, or where it belongs.
#[rattlefmt::skip]
fn remedy_of(kind: FileKind) -> &'static str {
    match kind {
        FileKind::Elf
            => "xlb runs images of its own format: write the program as a source (docs/FORMATS.md), \
                and make an image of it with xlb asm --source SOURCE IMAGE",
        FileKind::ImageText => "make an image of it with xlb asm TEXT IMAGE, or, where it has comments or labels, with xlb asm --source TEXT IMAGE",
        FileKind::Text => "an image is made of a text with xlb asm --source TEXT IMAGE; a text begins with version 1 or version 2",
        FileKind::Gzip => "unpack it first: gzip -d FILE",
        FileKind::Capture | FileKind::BigEndianCapture | FileKind::NanosecondCapture | FileKind::Pcapng
        | FileKind::Journals | FileKind::Script | FileKind::Frame | FileKind::HexDigits
            => "are two names on the command line swapped?",
        FileKind::Empty | FileKind::Image | FileKind::Unknown => "",
    }
}

/// The byte at a place, or 0.
fn byte_at(bytes: &[u8], place: usize) -> u8 {
    match bytes.get(place) {
        Some(byte) => *byte,
        None => 0,
    }
}

/// Which field of the head of an image is wrong.
fn about_head(alloc: Global, bytes: &[u8]) -> Result<String, AllocError> {
    let all = bytes.len();
    let version = byte_at(bytes, 4);
    let maps = byte_at(bytes, 5);
    if all < HEAD_LEN {
        return format!(in alloc; "the file ends after {all} bytes, within its head of 8 bytes");
    }
    if version != 1 && version != 2 {
        return format!(in alloc; "byte 4, the version, is {version}: expected 1 or 2");
    }
    if maps > 16 {
        return format!(in alloc; "byte 5, the number of maps, is {maps}: expected 0 to 16");
    }
    if byte_at(bytes, 6) != 0 || byte_at(bytes, 7) != 0 {
        return String::from_str(alloc, "bytes 6 and 7 are not zero");
    }
    let least = HEAD_LEN + MAP_LEN * usize::from(maps);
    format!(in alloc;
        "the file ends after {all} bytes, within its list of {maps} maps: the list ends at byte {least}"
    )
}

/// Of a file that begins as no other kind does.
fn about_unknown(alloc: Global, bytes: &[u8]) -> Result<String, AllocError>
    ensures { IfOk result (λ text. AreFewNotes 3 (string_bytes text)) }
{
    let found = first_bytes(alloc, bytes)?;
    let begun = format!(in alloc; "the file begins with the bytes {found}")?;
    let remedy = if bytes.starts_with(BYTE_ORDER_MARK) {
        "the bytes ef bb bf are a byte order mark: tail -c +4 FILE > NEW takes it away from a source"
    } else {
        ""
    };
    notes_of(
        alloc,
        begun.as_str(),
        "expected an image, which begins with 58 4c 42 50 (XLBP)",
        remedy,
    )
}

/// Lines for people on a file that is no image (fault 10): what it is, and how an image is made of it; or which field of its head is wrong.
///
/// At most three lines, each with two spaces at its beginning and a line feed at its end. It can fail only for lack of memory.
pub fn about_image(alloc: Global, bytes: &[u8]) -> Result<String, AllocError>
    ensures { IfOk result (λ text. AreFewNotes 3 (string_bytes text)) }
{
    let kind = kind_of(alloc, bytes);
    if kind == FileKind::Image {
        let wrong = about_head(alloc, bytes)?;
        return notes_of(alloc, wrong.as_str(), "", "");
    }
    if kind == FileKind::Unknown {
        return about_unknown(alloc, bytes);
    }
    notes_of(
        alloc,
        name_of(kind),
        "expected an image, which begins with 58 4c 42 50 (XLBP)",
        remedy_of(kind),
    )
}

/// The number of four bytes from a place on, the low byte first.
fn number_at(bytes: &[u8], place: usize) -> u32 {
    let low = u32::from(byte_at(bytes, place));
    let second = u32::from(byte_at(bytes, place.saturating_add(1)));
    let third = u32::from(byte_at(bytes, place.saturating_add(2)));
    let high = u32::from(byte_at(bytes, place.saturating_add(3)));
    low | second << 8 | third << 16 | high << 24
}

/// The first of a map's four numbers that no map may have, and what is allowed.
pub(crate) fn wrong_number(
    alloc: Global,
    version: u8,
    kind: u32,
    key: u32,
    value: u32,
    entries: u32,
) -> Result<(String, &'static str), AllocError> {
    if kind != 1 && kind != 2 && kind != 9 {
        let wrong = format!(in alloc; "its kind is {kind}")?;
        return Ok((wrong, "expected 1 (hash), 2 (array) or 9 (lru)"));
    }
    if kind == 2 && key != 4 {
        let wrong = format!(in alloc; "its keys have {key} bytes")?;
        return Ok((
            wrong,
            "expected 4: the keys of an array are numbers of 4 bytes",
        ));
    }
    if key < 1 || key > 32 {
        let wrong = format!(in alloc; "its keys have {key} bytes")?;
        return Ok((wrong, "expected 1 to 32 bytes"));
    }
    let most = if version == 2 { 256 } else { 64 };
    if value < 8 || value > most || value % 8 != 0 {
        let wrong = format!(in alloc; "its values have {value} bytes")?;
        let allowed = if version == 2 {
            "expected a multiple of 8 from 8 to 256"
        } else {
            "expected a multiple of 8 from 8 to 64 (to 256 in version 2)"
        };
        return Ok((wrong, allowed));
    }
    let wrong = format!(in alloc; "it has {entries} entries")?;
    Ok((wrong, "expected 1 to 131072 entries"))
}

/// Lines for people on an image with a map that no image may have (fault 11), by the map's number, counted from 0: which of its numbers is
/// wrong, and what is allowed.
///
/// At most three lines, each with two spaces at its beginning and a line feed at its end. It can fail only for lack of memory.
pub fn about_map(alloc: Global, bytes: &[u8], map: u32) -> Result<String, AllocError>
    ensures { IfOk result (λ text. AreFewNotes 3 (string_bytes text)) }
{
    let place = HEAD_LEN.saturating_add((map as usize).saturating_mul(MAP_LEN));
    let (wrong, allowed) = wrong_number(
        alloc,
        byte_at(bytes, 4),
        number_at(bytes, place),
        number_at(bytes, place.saturating_add(4)),
        number_at(bytes, place.saturating_add(8)),
        number_at(bytes, place.saturating_add(12)),
    )?;
    let which = format!(in alloc; "map {map}: {wrong}")?;
    notes_of(alloc, which.as_str(), allowed, "")
}
