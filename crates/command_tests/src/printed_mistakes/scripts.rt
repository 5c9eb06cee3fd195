//! Scripts: each way in which a line can be no command.

use crate::asserting::same_text;
use mistakes::about_script;
use std::alloc::Global;
use std::process::Abort;

/// What a row shows, the script, the line at which it is refused, and what is said.
type Row = (&'static str, &'static [u8], usize, &'static str);

#[rattlefmt::skip]
const SPACES: [Row; 14] = [
    ("a line that ends as on Windows", b"500 down 3\r\n", 1,
        "  line 1, column 11: \"\\r\": a carriage return, as lines end on Windows\n  \
         expected a line feed alone: tr -d '\\r' < SCRIPT > NEW takes carriage returns away\n  for example: 500 down 3\n"),
    ("two spaces", b"0 down 3\n0  vip 203.0.113.1 80 udp\n", 2,
        "  line 2, column 2: \"  \": two spaces\n  expected one space between words\n  for example: 0 vip 203.0.113.1 80 tcp\n"),
    ("a tab", b"0\tdown 3\n", 1,
        "  line 1, column 2: \"\\t\": a tab\n  expected one space between words\n  for example: 0 vip 203.0.113.1 80 tcp\n"),
    ("a space in front", b" 0 down 3\n", 1,
        "  line 1, column 1: \" \": a space at the line's beginning\n  expected the number of a frame\n  for example: 0 vip 203.0.113.1 80 tcp\n"),
    ("a space at the end", b"0 down 3 \n", 1,
        "  line 1, column 9: \" \": a space at the line's end\n  expected a line feed right after the last word\n  for example: 500 down 3\n"),
    ("a comment alone", b"# services\n0 down 3\n", 1,
        "  line 1, column 1: \"#\": a comment: a script has none\n  expected a command, and then the end of the line\n  \
         for example: 0 vip 203.0.113.1 80 tcp\n"),
    ("a comment behind a command", b"0 down 3 # it is broken\n", 1,
        "  line 1, column 10: \"#\": a comment: a script has none\n  expected a command, and then the end of the line\n  for example: 500 down 3\n"),
    ("an empty line", b"0 down 3\n\n0 down 4\n", 2,
        "  line 2, column 1: an empty line\n  expected a command on each line\n  for example: 0 vip 203.0.113.1 80 tcp\n"),
    ("a space that is no space", b"0 down\xc2\xa03\n", 1,
        "  line 1, column 7: \"\\xc2\\xa03\": a letter outside ASCII\n  expected plain ASCII text\n  for example: 0 vip 203.0.113.1 80 tcp\n"),
    ("a byte that is no text", b"0 down 3\n0 up \xff 10.0.0.1\n", 2,
        "  line 2 has a byte that is not UTF-8\n  expected plain ASCII text\n"),
    ("sixteen bits a letter", b"\xff\xfe0\x00 \x00", 1,
        "  the file is a text in UTF-16\n  expected plain ASCII text: iconv -f UTF-16 -t ASCII SCRIPT > NEW makes it\n"),
    ("a byte order mark", b"\xef\xbb\xbf0 down 3\n", 1,
        "  line 1, column 1: the file begins with a byte order mark, the bytes ef bb bf\n  \
         expected plain ASCII text: tail -c +4 SCRIPT > NEW takes the mark away\n"),
    ("its bytes elsewhere", b"0 down 3\n\xef\xbb\xbf0 down 3\n", 2,
        "  line 2, column 1: \"\\xef\\xbb\\xbf0 down 3\": a letter outside ASCII\n  expected plain ASCII text\n  for example: 500 down 3\n"),
    ("no line feed at the end", b"0 down 3\n0 down 4", 2,
        "  line 2, the last one, has no line feed at its end\n  expected a line feed after each line, the last one too\n  echo >> SCRIPT adds it\n"),
];

#[rattlefmt::skip]
const WORDS: [Row; 15] = [
    ("a command in upper case", b"0 VIP 203.0.113.1 80 tcp\n", 1,
        "  line 1, column 3: \"VIP\": in upper case\n  expected vip, up, down or gateway, in lower case\n  for example: 0 vip 203.0.113.1 80 tcp\n"),
    ("not a command", b"0 add 203.0.113.1 80 tcp\n", 1,
        "  line 1, column 3: \"add\": not a command\n  expected vip, up, down or gateway, in lower case\n  for example: 0 vip 203.0.113.1 80 tcp\n"),
    ("a number alone", b"0\n", 1,
        "  line 1, column 3: a word is missing\n  expected vip, up, down or gateway, in lower case\n  for example: 0 vip 203.0.113.1 80 tcp\n"),
    ("no number in front", b"vip 203.0.113.1 80 tcp\n", 1,
        "  line 1, column 1: \"vip\": not a number\n  expected how many frames come before the command: 0 to 4294967295, in decimal digits\n  \
         for example: 0 vip 203.0.113.1 80 tcp\n"),
    ("a zero in front", b"007 down 3\n", 1,
        "  line 1, column 1: \"007\": a number with a leading zero\n  \
         expected how many frames come before the command: 0 to 4294967295, in decimal digits\n  for example: 500 down 3\n"),
    ("a number of 33 bits", b"4294967296 down 3\n", 1,
        "  line 1, column 1: \"4294967296\": the number is too large\n  \
         expected how many frames come before the command: 0 to 4294967295, in decimal digits\n  for example: 500 down 3\n"),
    ("a number that falls", b"500 down 3\n499 down 4\n", 2,
        "  line 2, column 1: \"499\": below the number of the line before\n  expected numbers of frames that never fall\n  for example: 500 down 3\n"),
    ("a backend by its address", b"0 down 192.0.2.1\n", 1,
        "  line 1, column 8: \"192.0.2.1\": not a number\n  expected a backend's number, in decimal digits\n  for example: 500 down 3\n"),
    ("a negative backend", b"0 down -1\n", 1,
        "  line 1, column 8: \"-1\": a number with a sign\n  expected a backend's number, in decimal digits\n  for example: 500 down 3\n"),
    ("a hexadecimal backend", b"0 down 0x3\n", 1,
        "  line 1, column 8: \"0x3\": a hexadecimal number\n  expected a backend's number, in decimal digits\n  for example: 500 down 3\n"),
    ("one word too many", b"0 down 3 4\n", 1,
        "  line 1, column 10: \"4\": one word too many\n  expected the end of the line\n  for example: 500 down 3\n"),
    ("no address", b"0 up 3\n", 1,
        "  line 1, column 8: a word is missing\n  expected an address as 192.0.2.1: four numbers from 0 to 255 with dots between them\n  \
         for example: 0 up 3 192.0.2.1\n"),
    ("a line that is right", b"0 down 3\n", 1, ""),
    ("a line that is not there", b"0 down 3\n", 3, ""),
    ("line 0", b"0 DOWN 3\n", 0,
        "  line 0, column 3: \"DOWN\": in upper case\n  expected vip, up, down or gateway, in lower case\n  for example: 0 vip 203.0.113.1 80 tcp\n"),
];

#[rattlefmt::skip]
const PLACES: [Row; 17] = [
    ("a protocol in upper case", b"0 vip 203.0.113.1 80 TCP\n", 1,
        "  line 1, column 22: \"TCP\": in upper case\n  expected tcp or udp, in lower case\n  \
         for example: 0 vip 203.0.113.1 80 tcp, with notrack as its last word where flows are not tracked\n"),
    ("another protocol", b"0 vip 203.0.113.1 80 sctp\n", 1,
        "  line 1, column 22: \"sctp\": not a protocol that is served\n  expected tcp or udp, in lower case\n  \
         for example: 0 vip 203.0.113.1 80 tcp, with notrack as its last word where flows are not tracked\n"),
    ("no protocol", b"0 vip 203.0.113.1 80\n", 1,
        "  line 1, column 22: a word is missing\n  expected tcp or udp, in lower case\n  \
         for example: 0 vip 203.0.113.1 80 tcp, with notrack as its last word where flows are not tracked\n"),
    ("a port above all ports", b"0 vip 203.0.113.1 65536 tcp\n", 1,
        "  line 1, column 19: \"65536\": the number is too large\n  expected a port: 0 to 65535, in decimal digits\n  \
         for example: 0 vip 203.0.113.1 80 tcp, with notrack as its last word where flows are not tracked\n"),
    ("a port by its name", b"0 vip 203.0.113.1 http tcp\n", 1,
        "  line 1, column 19: \"http\": not a number\n  expected a port: 0 to 65535, in decimal digits\n  \
         for example: 0 vip 203.0.113.1 80 tcp, with notrack as its last word where flows are not tracked\n"),
    ("a flag in upper case", b"0 vip 203.0.113.1 80 tcp NOTRACK\n", 1,
        "  line 1, column 26: \"NOTRACK\": in upper case\n  expected notrack, or the end of the line\n  \
         for example: 0 vip 203.0.113.1 80 tcp, with notrack as its last word where flows are not tracked\n"),
    ("another flag", b"0 vip 203.0.113.1 80 tcp track\n", 1,
        "  line 1, column 26: \"track\": one word too many\n  expected notrack, or the end of the line\n  \
         for example: 0 vip 203.0.113.1 80 tcp, with notrack as its last word where flows are not tracked\n"),
    ("256 in an address", b"0 up 3 192.0.2.256\n", 1,
        "  line 1, column 8: \"192.0.2.256\": a number above 255\n  \
         expected an address as 192.0.2.1: four numbers from 0 to 255 with dots between them\n  for example: 0 up 3 192.0.2.1\n"),
    ("a zero in front in an address", b"0 up 3 192.0.2.01\n", 1,
        "  line 1, column 8: \"192.0.2.01\": a number with a leading zero\n  \
         expected an address as 192.0.2.1: four numbers from 0 to 255 with dots between them\n  for example: 0 up 3 192.0.2.1\n"),
    ("an address of three numbers", b"0 up 3 192.0.2\n", 1,
        "  line 1, column 8: \"192.0.2\": not an address of four numbers\n  \
         expected an address as 192.0.2.1: four numbers from 0 to 255 with dots between them\n  for example: 0 up 3 192.0.2.1\n"),
    ("an address of five numbers", b"0 up 3 192.0.2.1.9\n", 1,
        "  line 1, column 8: \"192.0.2.1.9\": more than four numbers\n  \
         expected an address as 192.0.2.1: four numbers from 0 to 255 with dots between them\n  for example: 0 up 3 192.0.2.1\n"),
    ("a number that is missing in an address", b"0 up 3 192..2.1\n", 1,
        "  line 1, column 8: \"192..2.1\": a number is missing between dots\n  \
         expected an address as 192.0.2.1: four numbers from 0 to 255 with dots between them\n  for example: 0 up 3 192.0.2.1\n"),
    ("an address with its port", b"0 vip 203.0.113.1:80 tcp\n", 1,
        "  line 1, column 7: \"203.0.113.1:80\": a colon: an address and its port are two words, and addresses are those of IPv4\n  \
         expected an address as 192.0.2.1: four numbers from 0 to 255 with dots between them\n  \
         for example: 0 vip 203.0.113.1 80 tcp, with notrack as its last word where flows are not tracked\n"),
    ("a network", b"0 up 3 192.0.2.0/24\n", 1,
        "  line 1, column 8: \"192.0.2.0/24\": a network: a single address is wanted\n  \
         expected an address as 192.0.2.1: four numbers from 0 to 255 with dots between them\n  for example: 0 up 3 192.0.2.1\n"),
    ("an Ethernet address in upper case", b"0 gateway 10.0.0.9 02:00:00:00:00:0A 02:00:00:00:00:0b\n", 1,
        "  line 1, column 20: \"02:00:00:00:00:0A\": in upper case\n  \
         expected an Ethernet address as 02:00:00:00:00:0a: six pairs of hexadecimal digits in lower case with colons between them\n  \
         for example: 0 gateway 10.0.0.9 02:00:00:00:00:0a 02:00:00:00:00:0b\n"),
    ("an Ethernet address with dashes", b"0 gateway 10.0.0.9 02:00:00:00:00:0a 02-00-00-00-00-0b\n", 1,
        "  line 1, column 38: \"02-00-00-00-00-0b\": dashes in place of colons\n  \
         expected an Ethernet address as 02:00:00:00:00:0a: six pairs of hexadecimal digits in lower case with colons between them\n  \
         for example: 0 gateway 10.0.0.9 02:00:00:00:00:0a 02:00:00:00:00:0b\n"),
    ("an Ethernet address without its zeros", b"0 gateway 10.0.0.9 2:0:0:0:0:a 02:00:00:00:00:0b\n", 1,
        "  line 1, column 20: \"2:0:0:0:0:a\": not two digits between colons\n  \
         expected an Ethernet address as 02:00:00:00:00:0a: six pairs of hexadecimal digits in lower case with colons between them\n  \
         for example: 0 gateway 10.0.0.9 02:00:00:00:00:0a 02:00:00:00:00:0b\n"),
];

#[rattlefmt::skip]
const KINDS: [Row; 4] = [
    ("an image", b"XLBP\x01\x00\x00\x00", 1,
        "  the file is an image\n  expected a script: a command on each line\n  for example: 0 vip 203.0.113.1 80 tcp\n"),
    ("a capture", b"\xd4\xc3\xb2\xa1\x02\x00\x04\x00", 1,
        "  the file is a capture\n  expected a script: a command on each line\n  for example: 0 vip 203.0.113.1 80 tcp\n"),
    ("the text of an image", b"version 1\nexit\n", 1,
        "  the file is the text of an image\n  expected a script: a command on each line\n  for example: 0 vip 203.0.113.1 80 tcp\n"),
    ("a piece of more than 40 bytes", b"0 down 33333333333333333333333333333333333333333333\n", 1,
        "  line 1, column 8: \"3333333333333333333333333333333333333333...\": the number is too large\n  \
         expected a backend's number, in decimal digits\n  for example: 500 down 3\n"),
];

fn are_said(rt: &impl Abort, alloc: Global, rows: &[Row]) {
    for (name, bytes, line, wanted) in rows {
        let said = about_script(alloc, *bytes, *line).expect(rt, "a text");
        same_text(rt, *name, said.as_str(), *wanted);
    }
}

#[test]
fn spaces_and_letters(rt: HostRuntime) {
    are_said(&rt, rt.alloc(), &SPACES);
}

#[test]
fn wrong_words(rt: HostRuntime) {
    are_said(&rt, rt.alloc(), &WORDS);
}

#[test]
fn wrong_places(rt: HostRuntime) {
    are_said(&rt, rt.alloc(), &PLACES);
}

#[test]
fn other_kinds(rt: HostRuntime) {
    are_said(&rt, rt.alloc(), &KINDS);
}
