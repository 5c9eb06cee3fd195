//! What is wrong with the words of a line of a script.

use crate::spacing::LineMistake;
use text_lines::{count_of, cut};

/// What a word of a command is.
#[derive(Clone, Copy, Debug, PartialEq, Eq)]
enum WordKind {
    Frame,
    Command,
    Address,
    Port,
    Protocol,
    /// `notrack`, or nothing.
    Flag,
    Backend,
    Mac,
}

/// The words behind a command's name.
#[rattlefmt::skip]
fn parts_of(command: &str) -> &'static [WordKind] {
    match command {
        "vip" => &[WordKind::Address, WordKind::Port, WordKind::Protocol, WordKind::Flag],
        "up" => &[WordKind::Backend, WordKind::Address],
        "down" => &[WordKind::Backend],
        "gateway" => &[WordKind::Address, WordKind::Mac, WordKind::Mac],
        _ => &[],
    }
}

/// A line with the command, as it is right.
#[rattlefmt::skip]
pub(crate) fn example_of(command: &str) -> &'static str {
    match command {
        "vip" => "for example: 0 vip 203.0.113.1 80 tcp, with notrack as its last word where flows are not tracked",
        "up" => "for example: 0 up 3 192.0.2.1",
        "down" => "for example: 500 down 3",
        "gateway" => "for example: 0 gateway 10.0.0.9 02:00:00:00:00:0a 02:00:00:00:00:0b",
        _ => "for example: 0 vip 203.0.113.1 80 tcp",
    }
}

#[rattlefmt::skip]
fn expected_of(part: WordKind) -> &'static str {
    match part {
        WordKind::Frame => "how many frames come before the command: 0 to 4294967295, in decimal digits",
        WordKind::Command => "vip, up, down or gateway, in lower case",
        WordKind::Address => "an address as 192.0.2.1: four numbers from 0 to 255 with dots between them",
        WordKind::Port => "a port: 0 to 65535, in decimal digits",
        WordKind::Protocol => "tcp or udp, in lower case",
        WordKind::Flag => "notrack, or the end of the line",
        WordKind::Backend => "a backend's number, in decimal digits",
        WordKind::Mac => "an Ethernet address as 02:00:00:00:00:0a: six pairs of hexadecimal digits in lower case with colons between them",
    }
}

/// Whether only letters in upper case keep the word from being this one.
fn is_upper(word: &str, right: &str) -> bool {
    word != right && word.eq_ignore_ascii_case(right)
}

fn are_digits(word: &str) -> bool {
    word.bytes().all(|byte| byte.is_ascii_digit())
}

/// What is wrong with a word that should be a number up to this one.
fn number_problem(word: &str, most: u32) -> Option<&'static str> {
    if word.starts_with("0x") {
        return Some("a hexadecimal number");
    }
    if word.starts_with("+") || word.starts_with("-") {
        return Some("a number with a sign");
    }
    if !are_digits(word) {
        return Some("not a number");
    }
    if word.starts_with("0") && word != "0" {
        return Some("a number with a leading zero");
    }
    match word.parse::<u32>() {
        Ok(number) => if number <= most {
            None
        } else {
            Some("the number is too large")
        },
        Err(_) => Some("the number is too large"),
    }
}

/// What is wrong with one of the numbers of an address.
fn byte_problem(word: &str) -> Option<&'static str> {
    if word.is_empty() {
        return Some("a number is missing between dots");
    }
    match number_problem(word, 255) {
        Some("the number is too large") => Some("a number above 255"),
        problem => problem,
    }
}

/// What is wrong with a word that should be an address.
fn address_problem(word: &str) -> Option<&'static str> {
    let (a, rest) = cut(word, '.');
    let (b, later) = cut(rest, '.');
    let (c, d) = cut(later, '.');
    if word.contains(":") {
        return Some(
            "a colon: an address and its port are two words, and addresses are those of IPv4",
        );
    }
    if word.contains("/") {
        return Some("a network: a single address is wanted");
    }
    let dots = word.bytes().filter(|byte| *byte == b'.').count();
    if dots < 3 {
        return Some("not an address of four numbers");
    }
    if dots > 3 {
        return Some("more than four numbers");
    }
    for part in &[a, b, c, d] {
        if let Some(problem) = byte_problem(*part) {
            return Some(problem);
        }
    }
    None
}

fn protocol_problem(word: &str) -> Option<&'static str> {
    if word == "tcp" || word == "udp" {
        return None;
    }
    if is_upper(word, "tcp") || is_upper(word, "udp") {
        return Some("in upper case");
    }
    Some("not a protocol that is served")
}

fn flag_problem(word: &str) -> Option<&'static str> {
    if word == "notrack" {
        return None;
    }
    if is_upper(word, "notrack") {
        return Some("in upper case");
    }
    Some("one word too many")
}

/// A hexadecimal digit in lower case.
fn is_lower_digit(byte: u8) -> bool {
    byte.is_ascii_digit() || (byte >= b'a' && byte <= b'f')
}

/// What is wrong with one of the pairs of an Ethernet address.
fn pair_problem(pair: &str) -> Option<&'static str> {
    if pair.len() != 2 {
        return Some("not two digits between colons");
    }
    if pair.bytes().all(|byte| is_lower_digit(byte)) {
        return None;
    }
    if pair.bytes().all(|byte| byte.is_ascii_hexdigit()) {
        return Some("in upper case");
    }
    Some("not hexadecimal digits")
}

fn mac_problem(word: &str) -> Option<&'static str> {
    if word.contains("-") {
        return Some("dashes in place of colons");
    }
    let colons = word.bytes().filter(|byte| *byte == b':').count();
    if colons != 5 {
        return Some("not six pairs");
    }
    for pair in word.split(':') {
        if let Some(problem) = pair_problem(pair) {
            return Some(problem);
        }
    }
    None
}

fn command_problem(word: &str) -> Option<&'static str> {
    for right in &["vip", "up", "down", "gateway"] {
        if word == *right {
            return None;
        }
        if is_upper(word, *right) {
            return Some("in upper case");
        }
    }
    Some("not a command")
}

/// What is wrong with a word that should be this.
fn problem_of(part: WordKind, word: &str) -> Option<&'static str> {
    if word.is_empty() && part != WordKind::Flag {
        return Some("a word is missing");
    }
    match part {
        WordKind::Frame => number_problem(word, u32::MAX),
        WordKind::Command => command_problem(word),
        WordKind::Address => address_problem(word),
        WordKind::Port => number_problem(word, 65535),
        WordKind::Protocol => protocol_problem(word),
        WordKind::Flag => if word.is_empty() {
            None
        } else {
            flag_problem(word)
        },
        WordKind::Backend => number_problem(word, u32::MAX),
        WordKind::Mac => mac_problem(word),
    }
}

/// The mistake in a word that should be this, behind the first `before` bytes of the line.
fn word_mistake(part: WordKind, before: usize, piece: &str) -> Option<LineMistake<'_>> {
    match problem_of(part, piece) {
        Some(what) => Some(LineMistake {
            before,
            piece,
            what,
            expected: expected_of(part),
        }),
        None => None,
    }
}

/// The mistake in the words behind a command's name.
fn list_mistake<'a>(command: &str, before: usize, list: &'a str) -> Option<LineMistake<'a>> {
    let mut at = before;
    let mut rest = list;
    for part in parts_of(command) {
        let (word, later) = cut(rest, ' ');
        if let Some(mistake) = word_mistake(*part, at, word) {
            return Some(mistake);
        }
        at = at.saturating_add(word.len()).saturating_add(1);
        rest = later;
    }
    if rest.is_empty() {
        return None;
    }
    Some(LineMistake {
        before: at,
        piece: rest,
        what: "one word too many",
        expected: "the end of the line",
    })
}

/// The name of the line's command.
pub(crate) fn command_in(line: &str) -> &str {
    let (_, action) = cut(line, ' ');
    let (command, _) = cut(action, ' ');
    command
}

/// The first mistake in the words of a line with single spaces between them, after a line whose frame is this.
pub(crate) fn words_mistake(line: &str, least: u32) -> Option<LineMistake<'_>> {
    let (frame, action) = cut(line, ' ');
    let (command, list) = cut(action, ' ');
    let second = frame.len().saturating_add(1);
    let third = second.saturating_add(command.len()).saturating_add(1);
    if let Some(mistake) = word_mistake(WordKind::Frame, 0, frame) {
        return Some(mistake);
    }
    if let Some(mistake) = word_mistake(WordKind::Command, second, command) {
        return Some(mistake);
    }
    if let Some(mistake) = list_mistake(command, third, list) {
        return Some(mistake);
    }
    if count_of(frame) < least {
        return Some(LineMistake {
            before: 0,
            piece: frame,
            what: "below the number of the line before",
            expected: "numbers of frames that never fall",
        });
    }
    None
}
