//! The word `-` on the command line: the standard input where a file is read, the standard output where one is written.

use command_line::{ReplayFiles, ReplaySettings, RunFiles, Settings};
use folders::{STANDARD_INPUT, STANDARD_OUTPUT};

/// The word for a standard stream. A file of this name is `./-`.
const STREAM: &str = "-";

/// An argument or an option of the command line, and the file that it names.
type Named<'a> = (&'static str, Option<&'a str>);

/// No argument.
const NONE: Named<'static> = ("", None);

/// The file of a word that is read.
fn read_from(word: &str) -> &str {
    if word == STREAM { STANDARD_INPUT } else { word }
}

/// The file of a word that is written.
fn written_to(word: &str) -> &str {
    if word == STREAM {
        STANDARD_OUTPUT
    } else {
        word
    }
}

/// The file of an option that is read, if there is one.
fn option_read<'a>(word: Option<&'a str>) -> Option<&'a str> {
    match word {
        Some(word) => Some(read_from(word)),
        None => None,
    }
}

/// The file of an option that is written, if there is one.
fn option_written<'a>(word: Option<&'a str>) -> Option<&'a str> {
    match word {
        Some(word) => Some(written_to(word)),
        None => None,
    }
}

/// The files of a run.
fn run_files<'a>(files: RunFiles<'a>) -> RunFiles<'a> {
    RunFiles {
        image: read_from(files.image),
        frame: read_from(files.frame),
        journals: option_written(files.journals),
        maps: option_written(files.maps),
    }
}

/// The files of a replay.
fn replay_files<'a>(files: ReplayFiles<'a>) -> ReplayFiles<'a> {
    ReplayFiles {
        capture: read_from(files.capture),
        sent: written_to(files.sent),
        image: option_read(files.image),
        is_steering: files.is_steering,
        script: option_read(files.script),
        journals: option_written(files.journals),
        report: option_written(files.report),
        maps: option_written(files.maps),
    }
}

/// The settings with the names of the standard streams where the command line has `-`.
pub(crate) fn with_streams<'a>(settings: Settings<'a>) -> Settings<'a> {
    match settings {
        Settings::Check { image, explain } => Settings::Check {
            image: read_from(image),
            explain,
        },
        Settings::Run {
            files,
            now,
            worker,
            updates,
        } => Settings::Run {
            files: run_files(files),
            now,
            worker,
            updates,
        },
        Settings::Disasm { image, source } => Settings::Disasm {
            image: read_from(image),
            source,
        },
        Settings::Audit { image, journals } => Settings::Audit {
            image: read_from(image),
            journals: read_from(journals),
        },
        Settings::Explain { about } => Settings::Explain { about },
        Settings::Asm { text, out, source } => Settings::Asm {
            text: read_from(text),
            out: written_to(out),
            source,
        },
        Settings::Shipped { out, ring, flows } => Settings::Shipped {
            out: written_to(out),
            ring,
            flows,
        },
        Settings::Table { script, ring } => Settings::Table {
            script: read_from(script),
            ring,
        },
        Settings::Script {
            capture,
            timed,
            reading,
        } => Settings::Script {
            capture: read_from(capture),
            timed: read_from(timed),
            reading,
        },
        Settings::Compare { first, second } => Settings::Compare {
            first: read_from(first),
            second: read_from(second),
        },
        Settings::Flows { report, script } => Settings::Flows {
            report: read_from(report),
            script: read_from(script),
        },
        Settings::Page { report, script } => Settings::Page {
            report: read_from(report),
            script: read_from(script),
        },
        Settings::Replay(asked) => Settings::Replay(ReplaySettings {
            files: replay_files(asked.files),
            ..asked
        }),
    }
}

/// What the command reads, where it reads more than one file.
fn inputs_of<'a>(settings: &Settings<'a>) -> [Named<'a>; 3] {
    match settings {
        Settings::Run { files, .. } => [
            ("IMAGE", Some(files.image)),
            ("FRAME", Some(files.frame)),
            NONE,
        ],
        Settings::Audit { image, journals } => [
            ("IMAGE", Some(*image)),
            ("JOURNALS", Some(*journals)),
            NONE,
        ],
        Settings::Script { capture, timed, .. } => [
            ("CAPTURE", Some(*capture)),
            ("TIMED", Some(*timed)),
            NONE,
        ],
        Settings::Compare { first, second } => [
            ("FIRST", Some(*first)),
            ("SECOND", Some(*second)),
            NONE,
        ],
        Settings::Flows { report, script } | Settings::Page { report, script } => [
            ("REPORT", Some(*report)),
            ("SCRIPT", Some(*script)),
            NONE,
        ],
        Settings::Replay(asked) => [
            ("CAPTURE", Some(asked.files.capture)),
            (image_option(&asked.files), asked.files.image),
            ("--script", asked.files.script),
        ],
        _ => [NONE, NONE, NONE],
    }
}

/// The option that names a replay's image.
fn image_option(files: &ReplayFiles<'_>) -> &'static str {
    if files.is_steering {
        "--program"
    } else {
        "--image"
    }
}

/// What the command writes.
fn outputs_of<'a>(settings: &Settings<'a>) -> [Named<'a>; 4] {
    match settings {
        Settings::Run { files, .. } => [
            ("--journals", files.journals),
            ("--maps", files.maps),
            NONE,
            NONE,
        ],
        Settings::Asm { out, .. } => [("OUT", Some(*out)), NONE, NONE, NONE],
        Settings::Shipped { out, .. } => [("OUT", Some(*out)), NONE, NONE, NONE],
        Settings::Replay(asked) => [
            ("SENT", Some(asked.files.sent)),
            ("--journals", asked.files.journals),
            ("--report", asked.files.report),
            ("--maps", asked.files.maps),
        ],
        _ => [NONE, NONE, NONE, NONE],
    }
}

/// Whether a file that is named, if one is, is this stream.
fn is_stream(named: Named<'_>, stream: &str) -> bool {
    match named {
        (_, Some(name)) => name == stream,
        (_, None) => false,
    }
}

/// Two of the three that are this stream, if there are two.
fn both_in(names: &[Named<'_>; 3], stream: &str) -> Option<(&'static str, &'static str)> {
    let [first, second, third] = *names;
    if is_stream(first, stream) && is_stream(second, stream) {
        return Some((first.0, second.0));
    }
    if is_stream(first, stream) && is_stream(third, stream) {
        return Some((first.0, third.0));
    }
    if is_stream(second, stream) && is_stream(third, stream) {
        return Some((second.0, third.0));
    }
    None
}

/// Two of the four that are this stream, if there are two.
fn both_of_four(names: &[Named<'_>; 4], stream: &str) -> Option<(&'static str, &'static str)> {
    let [first, second, third, fourth] = *names;
    if let Some(both) = both_in(&[first, second, third], stream) {
        return Some(both);
    }
    if let Some(both) = both_in(&[first, second, fourth], stream) {
        return Some(both);
    }
    both_in(&[third, fourth, NONE], stream)
}

/// Two arguments that are one standard stream, and which stream.
#[derive(Clone, Copy, Debug)]
pub(crate) struct Shared {
    pub first: &'static str,
    pub second: &'static str,
    pub stream: &'static str,
}

/// Two files of a command that are both the standard input, or both the standard output.
pub(crate) fn shared_stream(settings: &Settings<'_>) -> Option<Shared> {
    if let Some((first, second)) = both_in(&inputs_of(settings), STANDARD_INPUT) {
        return Some(Shared {
            first,
            second,
            stream: "input",
        });
    }
    if let Some((first, second)) = both_of_four(&outputs_of(settings), STANDARD_OUTPUT) {
        return Some(Shared {
            first,
            second,
            stream: "output",
        });
    }
    None
}

/// Whether the command writes a file to the standard output.
pub(crate) fn writes_output(settings: &Settings<'_>) -> bool {
    let [first, second, third, fourth] = outputs_of(settings);
    is_stream(first, STANDARD_OUTPUT)
        || is_stream(second, STANDARD_OUTPUT)
        || is_stream(third, STANDARD_OUTPUT)
        || is_stream(fourth, STANDARD_OUTPUT)
}
