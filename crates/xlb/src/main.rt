//! The program `xlb`: reads the command line and has it done by `xlb_commands`.
#![tactic(auto)]

mod streams;

use crate::streams::{Shared, shared_stream, with_streams, writes_output};
use clap::error::ErrorKind;
use command_line::{Settings, WordsFault, settings};
use folders::FileFolder;
use map_updates::Mistake;
use std::io::IsTerminal;
use std::process::ExitCode;
use std::{env, io};
use wire::StreamSink;
use xlb_commands::{TerminalProgress, serve};

/// The status of help or a version that could not be printed.
const UNPRINTED: u8 = 1;

/// The status of a command line that could not be read.
const BAD_WORDS: u8 = 2;

/// What is printed where memory is refused while the command line is read.
const NO_MEMORY: &str = "fault 8 Memory";

/// Whether memory was refused while words were read.
fn lacks_memory(fault: &WordsFault<'_>) -> bool {
    match fault {
        WordsFault::Parser(error) => error.kind() == ErrorKind::OutOfMemory,
        WordsFault::Update { mistake, .. } => *mistake == Mistake::Memory,
        _ => false,
    }
}

/// Prints why there are no words. Returns the status of a command line that could not be read.
fn unread<R: Eprint>(rt: &R, error: &io::Error) -> u8 {
    if error.kind() == io::ErrorKind::OutOfMemory {
        let _ = eprintln!(rt; "{NO_MEMORY}");
    } else if error.kind() == io::ErrorKind::InvalidData {
        let _ = eprintln!(rt;
            "error: a word of the command line is not UTF-8, as names of files have to be"
        );
    } else {
        let _ = eprintln!(rt; "error: the command line could not be read: {error}");
    }
    BAD_WORDS
}

/// Prints why words are no command, or the help or the version that they ask for. Returns the status of the words, whatever the standard
/// error takes; where the standard output does not take the help or the version, that is fault 7.
fn tell<R: Print + Eprint>(rt: &R, fault: &WordsFault<'_>) -> u8 {
    if lacks_memory(fault) {
        let _ = eprintln!(rt; "{NO_MEMORY}");
        return BAD_WORDS;
    }
    let printed = fault.print(rt);
    match fault.status() {
        0 if printed.is_err() => {
            let _ = eprintln!(rt; "fault 7 Device");
            UNPRINTED
        }
        status => status,
    }
}

/// The words of the command line, the program's name first.
fn words_of(rt: &HostRuntime) -> io::Result<Vec<String>> {
    let words = env::args(rt)?;
    Ok(words.collect(rt.alloc())?)
}

/// Prints which two files of a command are one standard stream. Returns the status of a command line that is wrong.
fn tell_shared<R: Eprint>(rt: &R, shared: Shared) -> u8 {
    let Shared {
        first,
        second,
        stream,
    } = shared;
    let _ = eprintln!(rt; "error: {first} and {second} are both the standard {stream}");
    BAD_WORDS
}

/// What the words say, if they are a command; else the status of words that are none, and why is printed.
fn read<'a>(rt: &HostRuntime, words: &'a [String]) -> Result<Settings<'a>, u8> {
    let settings = match settings(rt.alloc(), words) {
        Ok(settings) => with_streams(settings),
        Err(fault) => return Err(tell(rt, &fault)),
    };
    match shared_stream(&settings) {
        Some(shared) => Err(tell_shared(rt, shared)),
        None => Ok(settings),
    }
}

/// Reads the command line and does what it says. Where a file of the command is the standard output, what the command prints goes to the
/// standard error.
fn main(rt: HostRuntime) -> io::Result<ExitCode> {
    let alloc = rt.alloc();
    let words = match words_of(&rt) {
        Ok(words) => words,
        Err(error) => return Ok(ExitCode::from(unread(&rt, &error))),
    };
    let settings = match read(&rt, words.as_slice()) {
        Ok(settings) => settings,
        Err(status) => return Ok(ExitCode::from(status)),
    };
    let mut folder = FileFolder::new(&rt, alloc, rt.stdin(), rt.stdout());
    let mut err = StreamSink::new(rt.stderr());
    let progress = TerminalProgress::new(&rt, rt.stderr().is_terminal());
    let status = if writes_output(&settings) {
        let mut out = StreamSink::new(rt.stderr());
        serve(
            &rt,
            alloc,
            &settings,
            &mut folder,
            &progress,
            &mut out,
            &mut err,
        )
    } else {
        let mut out = StreamSink::new(rt.stdout());
        serve(
            &rt,
            alloc,
            &settings,
            &mut folder,
            &progress,
            &mut out,
            &mut err,
        )
    };
    Ok(ExitCode::from(status))
}
