//! What kind of file some bytes are, by how they begin.

use control::parse_script;
use ebpf_decode::image::MAGIC;
use std::alloc::Global;

/// A kind of file that people hand over where another one is wanted.
#[derive(Clone, Copy, Debug, PartialEq, Eq)]
pub(crate) enum FileKind {
    Empty,
    Image,
    /// An ELF object, as compilers write it.
    Elf,
    /// A classic capture as this program reads it: low byte first, microseconds.
    Capture,
    /// A classic capture whose numbers have the high byte first.
    BigEndianCapture,
    /// A classic capture with nanoseconds, in either order of bytes.
    NanosecondCapture,
    Pcapng,
    Gzip,
    /// An image's exact text or source.
    ImageText,
    Journals,
    Script,
    /// Hexadecimal digits and nothing else.
    HexDigits,
    /// An Ethernet frame of IPv4, IPv6 or ARP.
    Frame,
    /// Text of another kind.
    Text,
    Unknown,
}

impl FileKind {
    /// Whether files of this kind have letters alone.
    pub(crate) fn is_text(self) -> bool {
        matches!(
            self,
            FileKind::ImageText
                | FileKind::Journals
                | FileKind::Script
                | FileKind::HexDigits
                | FileKind::Text
        )
    }
}

/// The kinds that begin with bytes of their own.
#[rattlefmt::skip]
const MAGICS: [(&[u8], FileKind); 10] = [
    (&MAGIC,               FileKind::Image),
    (b"\x7fELF",           FileKind::Elf),
    (b"\xd4\xc3\xb2\xa1",  FileKind::Capture),
    (b"\xa1\xb2\xc3\xd4",  FileKind::BigEndianCapture),
    (b"\x4d\x3c\xb2\xa1",  FileKind::NanosecondCapture),
    (b"\xa1\xb2\x3c\x4d",  FileKind::NanosecondCapture),
    (b"\x0a\x0d\x0d\x0a",  FileKind::Pcapng),
    (b"\x1f\x8b",          FileKind::Gzip),
    (b"version ",          FileKind::ImageText),
    (b"XLBJ ",             FileKind::Journals),
];

/// The kind whose first bytes these are.
fn by_magic(bytes: &[u8]) -> Option<FileKind> {
    for (magic, kind) in &MAGICS {
        if bytes.starts_with(*magic) {
            return Some(*kind);
        }
    }
    None
}

/// A digit of a hexadecimal number, or what is between such digits.
fn is_hex_byte(byte: u8) -> bool {
    byte.is_ascii_hexdigit() || byte.is_ascii_whitespace() || byte == b':'
}

/// Hexadecimal digits, one at least, and nothing else.
fn is_hex_digits(bytes: &[u8]) -> bool {
    bytes.iter().any(|byte| byte.is_ascii_hexdigit()) && bytes.iter().all(|byte| is_hex_byte(*byte))
}

/// The type field of an Ethernet frame says IPv4, IPv6 or ARP, and the byte behind it fits.
fn is_frame(bytes: &[u8]) -> bool {
    match bytes.get(12..15) {
        Some(field) => field.starts_with(b"\x08\x00\x45")
            || field.starts_with(b"\x86\xdd\x60")
            || field.starts_with(b"\x08\x06\x00"),
        None => false,
    }
}

fn is_text_byte(byte: u8) -> bool {
    byte == b'\n' || byte == b'\r' || byte == b'\t' || (byte >= b' ' && byte < 127)
}

fn is_text(bytes: &[u8]) -> bool {
    bytes.iter().all(|byte| is_text_byte(*byte))
}

fn is_script(alloc: Global, bytes: &[u8]) -> bool {
    parse_script(alloc, bytes).is_ok()
}

/// The kind of file that the bytes are, as far as they show it.
pub(crate) fn kind_of(alloc: Global, bytes: &[u8]) -> FileKind {
    if bytes.is_empty() {
        return FileKind::Empty;
    }
    if let Some(kind) = by_magic(bytes) {
        return kind;
    }
    if is_frame(bytes) {
        return FileKind::Frame;
    }
    if is_hex_digits(bytes) {
        return FileKind::HexDigits;
    }
    if !is_text(bytes) {
        return FileKind::Unknown;
    }
    if is_script(alloc, bytes) {
        FileKind::Script
    } else {
        FileKind::Text
    }
}

/// What a kind is called.
#[rattlefmt::skip]
pub(crate) fn name_of(kind: FileKind) -> &'static str {
    match kind {
        FileKind::Empty             => "the file is empty",
        FileKind::Image             => "the file is an image",
        FileKind::Elf               => "the file is an ELF object, as compilers write it",
        FileKind::Capture           => "the file is a capture",
        FileKind::BigEndianCapture  => "the file is a capture whose numbers have the high byte first",
        FileKind::NanosecondCapture => "the file is a capture with nanoseconds",
        FileKind::Pcapng            => "the file is a pcapng capture",
        FileKind::Gzip              => "the file is compressed with gzip",
        FileKind::ImageText         => "the file is the text of an image",
        FileKind::Journals          => "the file has journals",
        FileKind::Script            => "the file is a script of commands",
        FileKind::HexDigits         => "the file has hexadecimal digits in place of bytes",
        FileKind::Frame             => "the file is an Ethernet frame",
        FileKind::Text              => "the file is a text",
        FileKind::Unknown           => "",
    }
}
