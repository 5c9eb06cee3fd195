//! What is wrong with a line of a script whatever its words are: other bytes than letters, comments, spaces too many.

/// A mistake in a line: after how many bytes of the line the wrong piece begins, the piece, what is wrong with it, and what was expected.
#[derive(Clone, Copy, Debug, PartialEq, Eq)]
pub(crate) struct LineMistake<'a> {
    pub before: usize,
    pub piece: &'a str,
    pub what: &'static str,
    pub expected: &'static str,
}

/// A mark, what is wrong where a line has it, and what was expected.
pub(crate) type Mark = (&'static str, &'static str, &'static str);

/// The marks of a script.
#[rattlefmt::skip]
const MARKS: [Mark; 6] = [
    ("#",  "a comment: a script has none",              "a command, and then the end of the line"),
    (";",  "a comment: a script has none",              "a command, and then the end of the line"),
    ("//", "a comment: a script has none",              "a command, and then the end of the line"),
    ("\t", "a tab",                                     "one space between words"),
    ("  ", "two spaces",                                "one space between words"),
    ("\r", "a carriage return, as lines end on Windows", "a line feed alone: tr -d '\\r' < SCRIPT > NEW takes carriage returns away"),
];

/// How many bytes of the line come before its first such mark.
fn before_mark(line: &str, mark: &str) -> Option<usize> {
    match line.split_once(mark) {
        Some((front, _)) => Some(front.len()),
        None => None,
    }
}

/// Whether this is fewer than another mark has before it, or there is no other mark.
fn comes_first(before: usize, first: Option<LineMistake<'_>>) -> bool {
    match first {
        Some(mistake) => before < mistake.before,
        None => true,
    }
}

/// The mistake of the first of the marks that the line has.
pub(crate) fn mark_mistake<'a>(line: &'a str, marks: &[Mark]) -> Option<LineMistake<'a>> {
    let mut first: Option<LineMistake<'a>> = None;
    for (mark, what, expected) in marks {
        if let Some(before) = before_mark(line, *mark)
            && comes_first(before, first)
        {
            first = Some(LineMistake {
                before,
                piece: *mark,
                what: *what,
                expected: *expected,
            });
        }
    }
    first
}

/// The line from its first byte that is no ASCII on, and how many bytes come before.
fn no_ascii(line: &str) -> Option<(usize, &str)> {
    match line.find(|letter: char| !letter.is_ascii()) {
        Some(before) => match line.get(before..) {
            Some(rest) => Some((before, rest)),
            None => None,
        },
        None => None,
    }
}

/// The mistake in the line's bytes or spaces that comes first, if there is one.
pub(crate) fn spacing_mistake(line: &str) -> Option<LineMistake<'_>> {
    if line.is_empty() {
        return Some(LineMistake {
            before: 0,
            piece: "",
            what: "an empty line",
            expected: "a command on each line",
        });
    }
    if let Some((before, piece)) = no_ascii(line) {
        return Some(LineMistake {
            before,
            piece,
            what: "a letter outside ASCII",
            expected: "plain ASCII text",
        });
    }
    match mark_mistake(line, &MARKS) {
        Some(mistake) => Some(mistake),
        None => outer_space(line, "the number of a frame"),
    }
}

/// The mistake of a space before the line's first word, where this is expected, or behind its last one.
pub(crate) fn outer_space<'a>(line: &'a str, expected: &'static str) -> Option<LineMistake<'a>> {
    if line.starts_with(" ") {
        return Some(LineMistake {
            before: 0,
            piece: " ",
            what: "a space at the line's beginning",
            expected,
        });
    }
    match line.strip_suffix(" ") {
        Some(front) => Some(LineMistake {
            before: front.len(),
            piece: " ",
            what: "a space at the line's end",
            expected: "a line feed right after the last word",
        }),
        None => None,
    }
}
