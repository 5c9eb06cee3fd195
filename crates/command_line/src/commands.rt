//! What a command line says.

use faults::Explanation;
use fleet::Part;
use map_updates::MapUpdate;
use semantics::Options;

/// How many slots the lookup table of the shipped program has, where the command line names no number.
pub const DEFAULT_RING: u32 = 251;

/// How many notes the flow table of the shipped program has, where nothing else is asked.
pub const DEFAULT_FLOWS: u32 = 4096;

/// A command with its words: names of files as they were given, and numbers.
#[derive(Debug, Drop)]
pub enum Settings<'a> {
    /// Judges an image or a source, and explains the result if asked to.
    Check {
        image: &'a str,
        explain: bool,
    },
    /// Runs an image on one frame, at a time in nanoseconds, as the worker of a number, after these updates of its maps.
    Run {
        files: RunFiles<'a>,
        now: u64,
        worker: u32,
        updates: Vec<MapUpdate>,
    },
    /// Prints an image as text, or in the source form.
    Disasm {
        image: &'a str,
        source: bool,
    },
    /// Checks whether journals are legal for an image's maps.
    Audit {
        image: &'a str,
        journals: &'a str,
    },
    /// Explains a fault.
    Explain {
        about: Explanation,
    },
    /// Writes the image of a text, or of a text in the source form.
    Asm {
        text: &'a str,
        out: &'a str,
        source: bool,
    },
    /// Writes the image of the shipped program.
    Shipped {
        out: &'a str,
        /// How many slots its lookup table has.
        ring: u32,
        /// How many notes its flow table has.
        flows: u32,
    },
    /// Prints the lookup table after each command of a script.
    Table {
        script: &'a str,
        /// How many slots it has.
        ring: u32,
    },
    /// Prints the script that a timed script means for a capture.
    Script {
        capture: &'a str,
        timed: &'a str,
        reading: Reading,
    },
    /// Compares the reports of two replays.
    Compare {
        first: &'a str,
        second: &'a str,
    },
    /// Prints what became of each flow of a replay.
    Flows {
        /// The report of its records.
        report: &'a str,
        script: &'a str,
    },
    /// Prints a page that shows a replay.
    Page {
        /// The report of its records.
        report: &'a str,
        script: &'a str,
    },
    /// Runs the frames of a capture by some workers over shared maps, and writes those that are sent.
    Replay(ReplaySettings<'a>),
}

/// What is asked of a replay.
#[derive(Debug, Drop)]
pub struct ReplaySettings<'a> {
    pub files: ReplayFiles<'a>,
    pub options: Options,
    /// How many slots the lookup table of the shipped program has.
    pub ring: u32,
    /// How many notes its flow table has.
    pub flows: u32,
    /// Whether a command takes effect exactly between the frames before and after it.
    pub exact: bool,
    /// Whether lines on the error stream say what the traffic was.
    pub summary: bool,
    pub reading: Reading,
    /// The part of the capture that is replayed; the whole capture where it is missing.
    pub part: Option<Part>,
    /// Whether no rows of journals are kept, which then have room for 4,000,000,000 calls each; then no file is named for them.
    pub no_journals: bool,
    /// Whether a replay that leaves something out is done in part: a run that was stopped, a record that was skipped or cut, a command
    /// behind the last record.
    pub strict: bool,
    /// Whether a file that is to be written must not be there.
    pub no_clobber: bool,
    /// What is set in the image's maps before the first frame.
    pub updates: Vec<MapUpdate>,
}

/// How the records of a capture's file are read.
#[derive(Clone, Copy, Debug, PartialEq, Eq)]
pub struct Reading {
    /// Whether records of more than 2048 bytes are skipped, in place of refusing the capture.
    pub skip_long: bool,
    /// Whether a record that keeps fewer bytes than its frame had is filled up with zeros.
    pub pad_cut: bool,
    /// Whether a capture that ends within a record is read up to there, in place of refusing it.
    pub allow_cut: bool,
}

/// The files of a run.
#[derive(Clone, Copy, Debug, PartialEq, Eq)]
pub struct RunFiles<'a> {
    pub image: &'a str,
    pub frame: &'a str,
    /// Where the journals are written to.
    pub journals: Option<&'a str>,
    /// Where what the maps hold at the end is written to.
    pub maps: Option<&'a str>,
}

/// The files of a replay.
#[derive(Clone, Copy, Debug, PartialEq, Eq)]
pub struct ReplayFiles<'a> {
    pub capture: &'a str,
    /// Where the sent frames are written to.
    pub sent: &'a str,
    /// The image's file, of `--image` or of `--program`; the shipped program is run where it is missing.
    pub image: Option<&'a str>,
    /// Whether the program is one of steering: the shipped program, or that of `--program`.
    pub is_steering: bool,
    pub script: Option<&'a str>,
    /// Where the journals are written to.
    pub journals: Option<&'a str>,
    /// Where a line for each record is written to.
    pub report: Option<&'a str>,
    /// Where what the maps hold at the end is written to.
    pub maps: Option<&'a str>,
}
