//! Copies of devices, pipes and standard streams, in files without names: of one that is read, so that it can be read in pieces and again; of
//! one that is written, until all of its bytes are there.

use crate::failure::{Failure, Step, Trouble, at_step};
use crate::links::is_one_node;
use crate::making::put_all;
use std::alloc::{Alloc, Global};
use std::env::VarError;
use std::fs::{File, OpenOptions};
use std::io::{ErrorKind, Read, Seek, Write};
use std::os::unix::fs::OpenOptionsExt;
use std::rt::{Env, Files};
use std::{env, fs, io};

/// The folder of copies where the environment names none.
const TEMPORARY: &str = "/tmp";

/// The standard streams.
const STREAMS: [&str; 3] = ["/dev/stdin", "/dev/stdout", "/dev/stderr"];

/// How many names are tried for a new copy, which has one only until it is opened.
const MOST_NAMES: u32 = 64;

/// The permissions of a copy: its owner's alone.
const OWN: u32 = 0o600;

/// How many bytes are copied at a time.
const AT_A_TIME: usize = 1 << 16;

/// Why no more is read of these, and what to do.
pub(crate) const ENDLESS: &str =
    "it gave more than 1073741824 bytes: save it as a file, and name that";

/// The folder of copies.
fn folder_of_copies<R: Env + Alloc>(rt: &R) -> Result<String<R::A>, Trouble> {
    match env::var(rt, "TMPDIR") {
        Ok(folder) if !folder.is_empty() => Ok(folder),
        Err(VarError::OutOfMemory) => Err(Trouble::Memory),
        _ => Ok(format!(in rt.alloc(); "{TEMPORARY}")?),
    }
}

/// A new file of this name, for its owner alone.
fn new_file<R: Files<File = File>>(rt: &R, name: &str) -> io::Result<File> {
    OpenOptions::new()
        .read(true)
        .write(true)
        .create_new(true)
        .mode(OWN)
        .open(rt, name)
}

/// Whether an open file stands where a standard stream was closed: what is printed would go into it.
fn is_standard<R: Files>(rt: &R, file: &File) -> bool {
    let Ok(opened) = file.metadata() else {
        return false;
    };
    for name in &STREAMS {
        match fs::metadata(rt, name) {
            Ok(found) if is_one_node(&opened, &found) => return true,
            _ => {}
        }
    }
    false
}

/// A new file whose name is removed again, so that it is gone when it is closed; none where the folder of copies takes none, or where it would
/// stand for a standard stream that is closed.
pub(crate) fn unnamed<R: Files<File = File> + Env + Alloc>(
    rt: &R,
) -> Result<Option<File>, Trouble> {
    let folder = folder_of_copies(rt)?;
    'names: for number in 0..MOST_NAMES {
        let name = format!(in rt.alloc(); "{folder}/xlb.copy.{number}")?;
        match new_file(rt, name.as_str()) {
            Ok(file) => return match fs::remove_file(rt, name.as_str()) {
                Ok(()) if !is_standard(rt, &file) => Ok(Some(file)),
                _ => Ok(None),
            },
            Err(error) if error.kind() == ErrorKind::AlreadyExists => {}
            Err(_) => return Ok(None),
        }
    }
    Ok(None)
}

/// What is done where bytes are copied, and how many at most.
#[derive(Clone, Copy, Debug)]
struct Way {
    reading: Step,
    writing: Step,
    most: u64,
}

/// Copies all that a reader gives to a writer. One that gives more than the most fails.
fn copy_all<S: Read, K: Write>(reader: &mut S, writer: &mut K, way: Way) -> Result<(), Failure> {
    let mut buffer = [0; AT_A_TIME];
    let mut room = way.most;
    'copying: loop {
        let count = match reader.read(&mut buffer) {
            Ok(0) => return Ok(()),
            Ok(count) => count,
            Err(error) => return Err(at_step(way.reading, error)),
        };
        if room < count as u64 {
            let error = io::Error::new(ErrorKind::FileTooLarge, ENDLESS);
            return Err(at_step(way.reading, error));
        }
        room -= count as u64;
        match put_all(writer, &buffer[..count]) {
            Ok(()) => {}
            Err(Failure { error, .. }) => return Err(at_step(way.writing, error)),
        }
    }
}

/// Copies all that a device, a pipe or the standard input gives. One that gives more than `most` bytes fails.
pub(crate) fn copy_stream<S: Read>(
    stream: &mut S,
    copy: &mut File,
    most: u64,
) -> Result<(), Failure> {
    let way = Way {
        reading: Step::Reading,
        writing: Step::Copying,
        most,
    };
    copy_all(stream, copy, way)
}

/// Writes all bytes of a copy to a device, a pipe or the standard output.
pub(crate) fn write_copy<K: Write>(copy: &mut File, writer: &mut K) -> Result<(), Failure> {
    let way = Way {
        reading: Step::Copying,
        writing: Step::Writing,
        most: u64::MAX,
    };
    rewind(copy)?;
    copy_all(copy, writer, way)
}

/// Puts bytes at the end of a copy.
pub(crate) fn put_on_copy(copy: &mut File, bytes: &[u8]) -> Result<(), Failure> {
    match put_all(copy, bytes) {
        Ok(()) => Ok(()),
        Err(Failure { error, .. }) => Err(at_step(Step::Copying, error)),
    }
}

/// Goes back to the beginning of a copy.
fn rewind(copy: &mut File) -> Result<(), Failure> {
    match copy.rewind() {
        Ok(()) => Ok(()),
        Err(error) => Err(at_step(Step::Copying, error)),
    }
}

/// What a device, a pipe or the standard input gave, and its name.
#[derive(Drop)]
pub(crate) struct Copied {
    name: String,
    file: File,
}

impl Copied {
    /// A copy that was made of what has this name.
    pub(crate) fn of(alloc: Global, name: &str, file: File) -> Result<Copied, Trouble> {
        let name = String::from_str(alloc, name)?;
        Ok(Copied { name, file })
    }

    /// Whether it was made of what has this name.
    pub(crate) fn is_of(&self, name: &str) -> bool {
        self.name.as_str() == name
    }

    /// The copy, to be read from its beginning. Only the one that was asked for last is read on.
    pub(crate) fn again(&mut self) -> Result<File, Failure> {
        rewind(&mut self.file)?;
        match self.file.try_clone() {
            Ok(file) => Ok(file),
            Err(error) => Err(at_step(Step::Copying, error)),
        }
    }
}
