//! Files that get their name when all of their bytes are there.
//!
//! A file is made beside its name (`NAME.unfinished`) and then renamed, so a file of that name has all bytes. A command that is ended
//! leaves the unfinished file; the next one that makes a file of this name removes it and makes its own, unless the other one still runs: a
//! lock on the open file, which ends with its command, says so. An unfinished file that is not the command's own any more is neither renamed
//! nor removed. Devices, pipes and the standard output alone are written in place; where they are given bytes in pieces, a copy without a
//! name has these until all are there.

ghost use Rattle.std.specs.Prelude.{◌≡◌};

use crate::copies::{put_on_copy, unnamed, write_copy};
use crate::failure::{Failure, Step, Trouble};
use crate::links::{end_of, is_link, is_one_file, is_one_node, parts_of};
use std::alloc::{Alloc, Global};
use std::fs::{File, OpenOptions, Permissions};
use std::io::{ErrorKind, Write};
use std::os::unix::fs::{OpenOptionsExt, PermissionsExt};
use std::rt::{Env, Files};
use std::{fs, io};

/// The longest name that the system takes.
const LONGEST_NAME: usize = 4096;

/// The most bytes of a name in its folder that are in the name of its unfinished file: with the ending, no more than the system takes.
const LONGEST_BESIDE: usize = 244;

/// The ending of the name of a file that is not finished.
const UNFINISHED: &str = ".unfinished";

/// The bits of a file's mode that say who may read, write and execute it.
const MODE_BITS: u32 = 0o777;

/// The same of an unfinished file that replaces one: those whom that one keeps out see none of it before it is finished, either.
const OWNERS_BITS: u32 = 0o600;

/// Why a file is not made on.
const NOT_BEGUN: &str = "it is not begun";

/// Why a file is not made.
const NO_ROOM: &str = "its name has no room for the ending .unfinished";

const READ_ONLY: &str = "it may not be written";

const IN_USE: &str = "another command is making it: its .unfinished is in use";

const NO_FILE: &str = "its .unfinished is no ordinary file";

const NOT_REMOVED: &str = "its .unfinished, which was left, may not be written or removed";

const REPLACED: &str = "its .unfinished was removed or replaced meanwhile";

/// A file that could not be made.
fn not_made(error: io::Error) -> Failure {
    Failure {
        step: Step::Making,
        error,
    }
}

/// A file that is not made for this reason.
fn refused(kind: ErrorKind, why: &'static str) -> Failure {
    not_made(io::Error::new(kind, why))
}

/// No file is begun that could be made on.
pub(crate) fn not_begun() -> Failure {
    refused(ErrorKind::NotFound, NOT_BEGUN)
}

/// Writes all bytes to a writer.
pub(crate) fn put_all<K: Write>(writer: &mut K, bytes: &[u8]) -> Result<(), Failure> {
    let mut at = 0;
    'writing: while at < bytes.len() {
        match writer.write(&bytes[at..]) {
            Ok(0) => {
                let error = io::Error::new(ErrorKind::WriteZero, "nothing more is taken");
                return Err(Failure {
                    step: Step::Writing,
                    error,
                });
            }
            Ok(count) => at += count,
            Err(error) => {
                return Err(Failure {
                    step: Step::Writing,
                    error,
                });
            }
        }
    }
    Ok(())
}

/// Whether a name leads to a device or a pipe. These are written in place: each stays what it is.
fn is_device<R: Files>(rt: &R, name: &str) -> bool {
    match fs::metadata(rt, name) {
        Ok(found) => !found.is_file() && !found.is_dir(),
        Err(_) => false,
    }
}

/// Writes the bytes to a device or a pipe.
fn make_in_place<R: Files>(rt: &R, name: &str, bytes: &[u8]) -> Result<(), Failure> {
    match File::create(rt, name) {
        Ok(mut file) => put_all(&mut file, bytes),
        Err(error) => Err(not_made(error)),
    }
}

/// Refuses what no file may replace: a folder, and a file that may not be written.
fn may_be_replaced<R: Files>(rt: &R, name: &str) -> Result<(), Failure> {
    match fs::symlink_metadata(rt, name) {
        Ok(found) if found.is_dir() => Err(not_made(io::Error::from(ErrorKind::IsADirectory))),
        Ok(found) if found.permissions().readonly() => {
            Err(refused(ErrorKind::PermissionDenied, READ_ONLY))
        }
        Ok(_) => Ok(()),
        Err(error) if error.kind() == ErrorKind::NotFound => Ok(()),
        Err(error) => Err(not_made(error)),
    }
}

/// Gives an unfinished file the permissions of the file that it replaces, where there is one.
fn take_permissions<R: Files>(rt: &R, unfinished: &str, name: &str) -> io::Result<()> {
    match fs::symlink_metadata(rt, name) {
        Ok(found) => {
            let own = Permissions::from_mode(found.permissions().mode() & MODE_BITS);
            fs::set_permissions(rt, unfinished, own)
        }
        Err(_) => Ok(()),
    }
}

/// Removes an unfinished file, unless another file has its name now.
fn remove_own<R: Files>(rt: &R, file: &File, unfinished: &str) {
    if has_name(rt, file, unfinished) {
        let _ = fs::remove_file(rt, unfinished);
    }
}

/// What was done with an unfinished file, which is removed where it failed.
fn removed_where_failed<R: Files>(
    rt: &R,
    file: &File,
    unfinished: &str,
    done: Result<(), Failure>,
) -> Result<(), Failure>
    ensures { result ≡ done }
{
    if done.is_err() {
        remove_own(rt, file, unfinished);
    }
    done
}

/// Gives an unfinished file another name, in place of a file that has it. Refused where another file has its own name now.
fn named<R: Files>(rt: &R, file: &File, unfinished: &str, name: &str) -> Result<(), Failure> {
    if !has_name(rt, file, unfinished) {
        return Err(refused(ErrorKind::ResourceBusy, REPLACED));
    }
    let done = match take_permissions(rt, unfinished, name) {
        Ok(()) => fs::rename(rt, unfinished, name),
        Err(error) => Err(error),
    };
    match done {
        Ok(()) => Ok(()),
        Err(error) => Err(not_made(error)),
    }
}

/// The name of a file while it is unfinished: with the ending, or the beginning of a long one with it.
fn unfinished_name<'a>(room: &'a mut [u8; LONGEST_NAME], name: &str) -> Result<&'a str, Failure> {
    let (_, last) = parts_of(name);
    let cut = last.len().saturating_sub(LONGEST_BESIDE);
    let end = name.floor_char_boundary(name.len().saturating_sub(cut));
    if end > LONGEST_NAME - UNFINISHED.len() {
        return Err(refused(ErrorKind::InvalidFilename, NO_ROOM));
    }
    room[..end].copy_from_slice(&name.as_bytes()[..end]);
    room[end..end + UNFINISHED.len()].copy_from_slice(UNFINISHED.as_bytes());
    match str::from_utf8(&room[..end + UNFINISHED.len()]) {
        Ok(unfinished) => Ok(unfinished),
        Err(_) => Err(refused(ErrorKind::InvalidFilename, NO_ROOM)),
    }
}

/// Whether a name is that of this open file, which is an ordinary one.
fn has_name<R: Files>(rt: &R, file: &File, name: &str) -> bool {
    match (file.metadata(), fs::symlink_metadata(rt, name)) {
        (Ok(opened), Ok(found)) => found.is_file() && is_one_node(&opened, &found),
        _ => false,
    }
}

/// A new unfinished file for this name.
fn new_file<R: Files<File = File>>(rt: &R, unfinished: &str, name: &str) -> io::Result<File> {
    let mut options = OpenOptions::new();
    options.read(true).write(true).create_new(true);
    if fs::symlink_metadata(rt, name).is_ok() {
        options.mode(OWNERS_BITS);
    }
    options.open(rt, unfinished)
}

/// Why an unfinished file that was left is not removed.
fn not_removed(error: io::Error) -> Failure {
    if error.kind() == ErrorKind::PermissionDenied {
        return refused(ErrorKind::PermissionDenied, NOT_REMOVED);
    }
    not_made(error)
}

/// A new file in place of one that a command left unfinished: that one is removed, and what else it may be the name of keeps its bytes.
/// Refused where another command has it open: that it is locked, or was renamed or removed before it could be locked here, shows that.
fn taken_over<R: Files<File = File>>(
    rt: &R,
    unfinished: &str,
    name: &str,
) -> Result<File, Failure> {
    match fs::symlink_metadata(rt, unfinished) {
        Ok(found) if !found.is_file() => return Err(refused(ErrorKind::AlreadyExists, NO_FILE)),
        Ok(_) => {}
        Err(error) => return Err(not_made(error)),
    }
    let file = match OpenOptions::new().write(true).open(rt, unfinished) {
        Ok(file) => file,
        Err(error) => return Err(not_removed(error)),
    };
    if file.try_lock().is_err() || !has_name(rt, &file, unfinished) {
        return Err(refused(ErrorKind::ResourceBusy, IN_USE));
    }
    match fs::remove_file(rt, unfinished) {
        Ok(()) => {}
        Err(error) => return Err(not_removed(error)),
    }
    match new_file(rt, unfinished, name) {
        Ok(file) => locked(file),
        Err(error) if error.kind() == ErrorKind::AlreadyExists => {
            Err(refused(ErrorKind::ResourceBusy, IN_USE))
        }
        Err(error) => Err(not_made(error)),
    }
}

/// A new file that is locked as long as it is open, where the file system has locks.
fn locked(file: File) -> Result<File, Failure> {
    match file.try_lock() {
        Err(fs::TryLockError::WouldBlock) => Err(refused(ErrorKind::ResourceBusy, IN_USE)),
        _ => Ok(file),
    }
}

/// An empty file beside this name, and the name that it has until it is finished.
fn beside<'a, R: Files<File = File>>(
    rt: &R,
    room: &'a mut [u8; LONGEST_NAME],
    name: &str,
) -> Result<(File, &'a str), Failure> {
    may_be_replaced(rt, name)?;
    let unfinished = unfinished_name(room, name)?;
    let file = match new_file(rt, unfinished, name) {
        Ok(file) => locked(file)?,
        Err(error) if error.kind() == ErrorKind::AlreadyExists => taken_over(rt, unfinished, name)?,
        Err(error) => return Err(not_made(error)),
    };
    Ok((file, unfinished))
}

/// Writes the bytes to an unfinished file, and then renames it.
fn fill<R: Files>(
    rt: &R,
    file: &mut File,
    unfinished: &str,
    name: &str,
    bytes: &[u8],
) -> Result<(), Failure> {
    put_all(file, bytes)?;
    named(rt, file, unfinished, name)
}

/// Makes a file of the bytes beside its name, which is no link's.
fn make_beside<R: Files<File = File>>(rt: &R, name: &str, bytes: &[u8]) -> Result<(), Failure> {
    let mut room = [0; LONGEST_NAME];
    let (mut file, unfinished) = beside(rt, &mut room, name)?;
    let done = fill(rt, &mut file, unfinished, name, bytes);
    removed_where_failed(rt, &file, unfinished, done)
}

/// Makes a file of the bytes, so that a file of its name has all bytes; a link stays, and what it leads to is made. A device or a pipe
/// takes them in place. Memory is asked for where links are followed.
pub(crate) fn make<R: Files<File = File> + Alloc>(
    rt: &R,
    name: &str,
    bytes: &[u8],
) -> Result<(), Trouble> {
    let done = if is_device(rt, name) {
        make_in_place(rt, name, bytes)
    } else if is_link(rt, name) {
        let end = end_of(rt, name)?;
        make_beside(rt, end.as_str(), bytes)
    } else {
        make_beside(rt, name, bytes)
    };
    match done {
        Ok(()) => Ok(()),
        Err(failure) => Err(Trouble::Device(failure)),
    }
}

/// Whether a name is the one that a file has, beside this other name, until it is finished.
fn is_unfinished_of<R: Files + Alloc>(rt: &R, name: &str, made: &str) -> bool {
    let mut room = [0; LONGEST_NAME];
    match unfinished_name(&mut room, made) {
        Ok(unfinished) => unfinished == name || is_one_file(rt, unfinished, name),
        Err(_) => false,
    }
}

/// Whether making a file of the name `made` would write over the file of this name before it is finished.
pub(crate) fn is_in_the_way<R: Files + Alloc>(rt: &R, name: &str, made: &str) -> bool {
    if is_device(rt, made) {
        return false;
    }
    if is_link(rt, made) {
        return match end_of(rt, made) {
            Ok(end) => is_unfinished_of(rt, name, end.as_str()),
            Err(_) => false,
        };
    }
    is_unfinished_of(rt, name, made)
}

/// A file that is made in pieces. Until it is finished it has a name of its own; what a device, a pipe or the standard output will be given
/// has none.
#[derive(Drop)]
pub(crate) struct Making {
    file: File,
    /// The name under which it was begun, which may be a link's.
    under: String,
    name: String,
    /// The name that it has until it is finished; empty where it has none.
    unfinished: String,
}

/// Begins a file beside its name, which is no link's, for the one under which it is asked for.
fn begun_beside<R: Files<File = File>>(
    rt: &R,
    alloc: Global,
    under: &str,
    name: &str,
) -> Result<Making, Trouble> {
    let under = String::from_str(alloc, under)?;
    let own = String::from_str(alloc, name)?;
    let mut room = [0; LONGEST_NAME];
    let (file, unfinished) = match beside(rt, &mut room, name) {
        Ok(begun) => begun,
        Err(failure) => return Err(Trouble::Device(failure)),
    };
    match String::from_str(alloc, unfinished) {
        Ok(unfinished) => Ok(Making {
            file,
            under,
            name: own,
            unfinished,
        }),
        Err(_) => {
            let _ = fs::remove_file(rt, unfinished);
            Err(Trouble::Memory)
        }
    }
}

/// Begins what a device, a pipe or the standard output will be given, in a file without a name; none where no such file can be made.
pub(crate) fn begun_apart<R: Files<File = File> + Env + Alloc>(
    rt: &R,
    alloc: Global,
    name: &str,
) -> Result<Option<Making>, Trouble> {
    let under = String::from_str(alloc, name)?;
    let own = String::from_str(alloc, name)?;
    match unnamed(rt)? {
        Some(file) => Ok(Some(Making {
            file,
            under,
            name: own,
            unfinished: String::new(alloc),
        })),
        None => Ok(None),
    }
}

/// Begins a file beside its name, or beside the name that a link leads to; where it is a device or a pipe, what it will be given.
pub(crate) fn begun<R: Files<File = File> + Env + Alloc>(
    rt: &R,
    alloc: Global,
    name: &str,
) -> Result<Option<Making>, Trouble> {
    if is_device(rt, name) {
        return begun_apart(rt, alloc, name);
    }
    if is_link(rt, name) {
        let end = end_of(rt, name)?;
        return Ok(Some(begun_beside(rt, alloc, name, end.as_str())?));
    }
    Ok(Some(begun_beside(rt, alloc, name, name)?))
}

impl Making {
    /// Whether it was begun under this name.
    pub(crate) fn is_under(&self, name: &str) -> bool {
        self.under.as_str() == name
    }

    /// Whether a file that is made under this name would have the same name until it is finished: so it is where two long names begin alike.
    pub(crate) fn is_beside<R: Files + Alloc>(&self, rt: &R, name: &str) -> bool {
        !self.is_apart() && is_in_the_way(rt, self.unfinished.as_str(), name)
    }

    /// Whether it has no name, and is for a device, a pipe or the standard output.
    fn is_apart(&self) -> bool {
        self.unfinished.is_empty()
    }

    /// Puts bytes at the end. Where that fails the file is removed.
    pub(crate) fn add<R: Files>(&mut self, rt: &R, bytes: &[u8]) -> Result<(), Failure> {
        if self.is_apart() {
            return put_on_copy(&mut self.file, bytes);
        }
        let done = put_all(&mut self.file, bytes);
        removed_where_failed(rt, &self.file, self.unfinished.as_str(), done)
    }

    /// Writes all that was put there.
    pub(crate) fn write_to<K: Write>(mut self, writer: &mut K) -> Result<(), Failure> {
        write_copy(&mut self.file, writer)
    }

    /// Writes all that was put there to the device or the pipe that it is for.
    fn give<R: Files>(self, rt: &R) -> Result<(), Failure> {
        match File::create(rt, self.name.as_str()) {
            Ok(mut device) => self.write_to(&mut device),
            Err(error) => Err(not_made(error)),
        }
    }

    /// Renames the file to its name, or gives the device or the pipe what it is for. If that fails it is removed.
    pub(crate) fn finish<R: Files>(self, rt: &R) -> Result<(), Failure> {
        if self.is_apart() {
            return self.give(rt);
        }
        let unfinished = self.unfinished.as_str();
        let done = named(rt, &self.file, unfinished, self.name.as_str());
        removed_where_failed(rt, &self.file, unfinished, done)
    }

    /// Removes the file.
    pub(crate) fn give_up<R: Files>(self, rt: &R) {
        remove_own(rt, &self.file, self.unfinished.as_str());
    }
}
