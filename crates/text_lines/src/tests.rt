//! Bytes that are text, and bytes that are none.

use crate::{finishes, text_or_line};

/// What a row shows, the bytes, and the line where the text ends; none where all of it is text.
type Row = (&'static str, &'static [u8], Option<usize>);

#[rattlefmt::skip]
const ROWS: [Row; 10] = [
    ("no bytes",                            b"",                  None),
    ("one line",                            b"exit\n",            None),
    ("letters of two and of three bytes",   b"\xc3\xa9\xe2\x82\xac\n", None),
    ("a byte that begins no character",     b"\xff",              Some(1)),
    ("on the second line",                  b"exit\n\xff\n",      Some(2)),
    ("right after two line feeds",          b"\n\n\x80",          Some(3)),
    ("a character that is cut",             b"a\nb\n\xe2\x82",    Some(3)),
    ("the line feed after it counts not",   b"\xc3\n\n\n",        Some(1)),
    ("a character spelt too long",          b"\n\xc0\x80",        Some(2)),
    ("a carriage return ends no line",      b"a\r\xf8",           Some(1)),
];

#[test]
fn text_ends_on_a_line(rt: HostRuntime) {
    for (name, bytes, line) in ROWS {
        match text_or_line(bytes) {
            Ok(text) => {
                assert!(rt; line.is_none(), "{name}");
                assert!(rt; text.as_bytes() == bytes, "{name}");
            }
            Err(found) => assert_eq!(rt; Some(found), line, "{name}"),
        }
    }
}

/// A text, an end, and whether the text ends so.
#[rattlefmt::skip]
const ENDS: [(&str, &str, bool); 6] = [
    ("report.json", ".json", true),
    ("report.jsonl", ".json", false),
    ("json", ".json", false),
    (".json", ".json", true),
    ("r1", "", true),
    ("", "x", false),
];

#[test]
fn texts_end_so(rt: HostRuntime) {
    for (text, end, ends) in ENDS {
        assert_eq!(rt; finishes(text, end), ends, "{text} {end}");
    }
}
