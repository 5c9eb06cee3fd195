//! The system's files.

ghost use Rattle.std.specs.Prelude.{◌≡◌, ◌+◌, ◌-◌, ◌<◌, ◌≤◌, ◌^◌, IfOk, IfSome, OnOk, length};
ghost use Rattle.folders.specs.Fronts.{IsShortFront};

use crate::copies::{Copied, ENDLESS, copy_stream, unnamed};
use crate::failure::{Failure, Step, Trouble, failed};
use crate::folder::{Folder, FolderFault, Front};
use crate::links::is_one_file;
use crate::making::{Making, begun, begun_apart, is_in_the_way, make, not_begun, put_all};
use std::alloc::{Alloc, AllocError, Global};
use std::fs::{File, OpenFile};
use std::io::{ErrorKind, Read, Write};
use std::rt::{Env, Files};
use std::{fs, io};
use wire::MOST_GIVEN;

/// The most bytes that are read of a device, a pipe or the standard input: one with more bytes may have no end.
const MOST_OF_STREAM: u64 = 1 << 30;

/// How many bytes more than its front a device or a pipe is said to have, if it has more: as many as a slot has, so that an image that is
/// read no further has whole slots.
const MORE: u64 = 8;

/// How many bytes are asked of the system at a time, of a file that is read whole.
const AT_A_TIME: usize = 1 << 16;

/// Why no more is read of a file in pieces.
const TOO_LONG: &str = "it has more than 1099511627776 bytes";

/// A device or a pipe whose front was read, and which has more.
#[derive(Drop)]
struct Stream<F: Drop> {
    name: String,
    /// All that was read.
    bytes: Vec<u8>,
    /// What is read on; the standard input where there is none.
    file: Option<F>,
    ghost few: { length bytes.items ≤ 2 ^ 30 },
}

/// The name of the program's standard input.
pub const STANDARD_INPUT: &str = "/dev/stdin";

/// The name of the program's standard output.
pub const STANDARD_OUTPUT: &str = "/dev/stdout";

/// The system's files, whose bytes no contract knows. Two names are not opened: what is read of `/dev/stdin` comes from the standard input,
/// and what is written to `/dev/stdout` goes to the standard output, behind what was written there before.
#[derive(Drop)]
pub struct FileFolder<'a, R: Files, I, O> {
    rt: &'a R,
    input: I,
    output: O,
    /// The device or the pipe whose front was read last, if it has more.
    stream: Option<Stream<R::File>>,
    /// The copy of the device, the pipe or the standard input that was opened last, to be read in pieces.
    copied: Option<Copied>,
    /// The file that is read in pieces.
    reading: Option<R::File>,
    /// How many bytes were read of it.
    given: u64,
    /// The files that are made in pieces.
    making: Vec<Making>,
    failures: u64,
    /// The last call that failed.
    last: Option<Failure>,
    ghost bounded: { given ≤ 2 ^ 40 },
}

impl<'a, R: Files, I, O> FileFolder<'a, R, I, O> {
    /// The files of this runtime, with its standard input and standard output, and no failures.
    pub fn new(rt: &'a R, alloc: Global, input: I, output: O) -> FileFolder<'a, R, I, O>
        ensures { result.failures ≡ 0 }
    {
        FileFolder {
            rt,
            input,
            output,
            stream: None,
            copied: None,
            reading: None,
            given: 0,
            making: Vec::new(alloc),
            failures: 0,
            last: None,
        }
    }
}

/// Reads on until `most` bytes are there or the reader has no more. One that is asked for more than `limit` bytes and has them fails.
fn read_on<S: Read>(
    reader: &mut S,
    bytes: &mut Vec<u8>,
    most: usize,
    limit: u64,
) -> Result<(), Trouble>
    requires limit { limit ≤ 2 ^ 40 }
    requires few { (length bytes.old.items ≤ most) × (length bytes.old.items ≤ limit) }
    ensures { OnOk result ((length bytes.new.items ≤ most) × (length bytes.new.items ≤ limit)) }
{
    let mut buffer = [0; AT_A_TIME];
    'reading: loop {
        let length = bytes.len() as u64;
        let room = most - bytes.len();
        if room == 0 {
            return Ok(());
        }
        let asked = if room < buffer.len() {
            room
        } else {
            buffer.len()
        };
        let count = match reader.read(&mut buffer[..asked]) {
            Ok(0) => return Ok(()),
            Ok(count) => count,
            Err(error) => return Err(failed(Step::Reading, error)),
        };
        if limit - length < count as u64 {
            let error = io::Error::new(ErrorKind::FileTooLarge, ENDLESS);
            return Err(failed(Step::Reading, error));
        }
        if bytes.extend_from_slice(&buffer[..count]).is_err() {
            return Err(Trouble::Memory);
        }
    }
}

/// Reads the next bytes of a file after the `given` bytes that were read before, and returns how many: none at its end. No more than 2^40
/// may be read in all.
fn read_piece<S: Read>(reader: &mut S, buffer: &mut [u8], given: u64) -> Result<usize, Failure>
    requires { given ≤ 2 ^ 40 }
    ensures within { IfOk result (λ count. count ≤ length buffer.new) }
    ensures limit { IfOk result (λ count. given + count ≤ 2 ^ 40) }
{
    match reader.read(buffer) {
        Ok(count) if count as u64 <= MOST_GIVEN - given => Ok(count),
        Ok(_) => Err(Failure {
            step: Step::Reading,
            error: io::Error::new(ErrorKind::FileTooLarge, TOO_LONG),
        }),
        Err(error) => Err(Failure {
            step: Step::Reading,
            error,
        }),
    }
}

/// The first bytes of an ordinary file, which has `size` bytes in all, if no more than `most` were added since.
fn front_of_file<S: Read>(
    alloc: Global,
    file: &mut S,
    most: usize,
    size: u64,
) -> Result<Front, Trouble>
    ensures { IfOk result (IsShortFront most) }
{
    let mut bytes = Vec::new(alloc);
    read_on(file, &mut bytes, most, MOST_GIVEN)?;
    let count = bytes.len() as u64;
    let length = if bytes.len() == most {
        count.max(size)
    } else {
        count
    };
    Ok(Front { bytes, length })
}

/// How many bytes an ordinary file has; none where the system does not say, as of a device or a pipe.
fn size_of<F: OpenFile>(file: &F) -> Option<u64> {
    match file.metadata() {
        Ok(found) => {
            if found.is_file() {
                Some(found.len())
            } else {
                None
            }
        }
        Err(_) => None,
    }
}

impl<R: Files<File = File> + Env + Alloc, I: Read, O: Write> FileFolder<'_, R, I, O> {
    /// Reads on a device or a pipe, which is the standard input where there is no file.
    fn read_stream(
        &mut self,
        file: &mut Option<R::File>,
        bytes: &mut Vec<u8>,
        most: usize,
    ) -> Result<(), Trouble>
        requires few { (length bytes.old.items ≤ most) × (length bytes.old.items ≤ 2 ^ 30) }
        ensures few { OnOk result ((length bytes.new.items ≤ most) × (length bytes.new.items ≤ 2 ^ 30)) }
        ensures steady { self.new.failures ≡ self.old.failures }
    {
        match file {
            Some(file) => read_on(file, bytes, most, MOST_OF_STREAM),
            None => read_on(&mut self.input, bytes, most, MOST_OF_STREAM),
        }
    }

    /// The first bytes of a device or a pipe. If it has more, what was read is kept, to be read on.
    fn front_of_stream(
        &mut self,
        alloc: Global,
        name: &str,
        most: usize,
        mut file: Option<R::File>,
    ) -> Result<Front, Trouble>
        ensures front { IfOk result (IsShortFront most) }
        ensures steady { self.new.failures ≡ self.old.failures }
    {
        let mut bytes = Vec::new(alloc);
        self.read_stream(&mut file, &mut bytes, most.saturating_add(1))?;
        if bytes.len() <= most {
            let length = bytes.len() as u64;
            return Ok(Front { bytes, length });
        }
        let front = Vec::from_slice(alloc, &bytes[..most])?;
        let name = String::from_str(alloc, name)?;
        self.stream = Some(Stream { name, bytes, file });
        Ok(Front {
            bytes: front,
            length: most as u64 + MORE,
        })
    }

    /// The first bytes of a file, or of the standard input, whose length the system does not know. Of what was copied they are those of the
    /// copy.
    fn front(&mut self, alloc: Global, name: &str, most: usize) -> Result<Front, Trouble>
        ensures front { IfOk result (IsShortFront most) }
        ensures steady { self.new.failures ≡ self.old.failures }
    {
        if let Some(mut copy) = self.kept_copy(name)? {
            let size = size_of(&copy).unwrap_or(0);
            return front_of_file(alloc, &mut copy, most, size);
        }
        if name == STANDARD_INPUT {
            return self.front_of_stream(alloc, name, most, None);
        }
        match fs::open(self.rt, name) {
            Ok(mut file) => match size_of(&file) {
                Some(size) => front_of_file(alloc, &mut file, most, size),
                None => self.front_of_stream(alloc, name, most, Some(file)),
            },
            Err(error) => Err(failed(Step::Opening, error)),
        }
    }

    /// All bytes of a file: of a device or a pipe whose front was read last, the front and the rest.
    fn whole(&mut self, alloc: Global, name: &str) -> Result<Vec<u8>, Trouble>
        ensures steady { self.new.failures ≡ self.old.failures }
    {
        if let Some(
            Stream {
                name: fronted,
                mut bytes,
                mut file,
            },
        ) = self.stream.take()
        {
            if fronted.as_str() == name {
                self.read_stream(&mut file, &mut bytes, usize::MAX)?;
                return Ok(bytes);
            }
        }
        Ok(self.front(alloc, name, usize::MAX)?.bytes)
    }

    /// The copy that was made of what has this name, to be read from its beginning; none where it was not opened last.
    fn kept_copy(&mut self, name: &str) -> Result<Option<File>, Failure>
        ensures steady { self.new.failures ≡ self.old.failures }
        ensures given { self.new.given ≡ self.old.given }
    {
        match &mut self.copied {
            Some(copied) if copied.is_of(name) => Ok(Some(copied.again()?)),
            _ => Ok(None),
        }
    }

    /// Copies what a device, a pipe or the standard input gives.
    fn copy_to(&mut self, name: &str, copy: &mut File) -> Result<(), Failure>
        ensures steady { self.new.failures ≡ self.old.failures }
        ensures given { self.new.given ≡ self.old.given }
    {
        if name == STANDARD_INPUT {
            return copy_stream(&mut self.input, copy, MOST_OF_STREAM);
        }
        match fs::open(self.rt, name) {
            Ok(mut stream) => copy_stream(&mut stream, copy, MOST_OF_STREAM),
            Err(error) => Err(Failure {
                step: Step::Opening,
                error,
            }),
        }
    }

    /// Keeps a copy of what a device, a pipe or the standard input gives. None where none can be made; then nothing was read.
    fn new_copy(&mut self, alloc: Global, name: &str) -> Result<Option<File>, Trouble>
        ensures steady { self.new.failures ≡ self.old.failures }
        ensures given { self.new.given ≡ self.old.given }
    {
        let Some(mut copy) = unnamed(self.rt)? else {
            return Ok(None);
        };
        self.copy_to(name, &mut copy)?;
        self.copied = Some(Copied::of(alloc, name, copy)?);
        Ok(self.kept_copy(name)?)
    }

    /// Whether this is the device or the pipe whose front was read last.
    fn is_fronted(&self, name: &str) -> bool {
        match &self.stream {
            Some(stream) => stream.name.as_str() == name,
            None => false,
        }
    }

    /// A file that can be read in pieces: of a device, a pipe or the standard input a copy. None where it can only be read whole.
    fn opened(&mut self, alloc: Global, name: &str) -> Result<Option<File>, Trouble>
        ensures steady { self.new.failures ≡ self.old.failures }
        ensures given { self.new.given ≡ self.old.given }
    {
        if self.is_fronted(name) {
            return Ok(None);
        }
        if let Some(copy) = self.kept_copy(name)? {
            return Ok(Some(copy));
        }
        match self.ordinary(name)? {
            Some(file) => Ok(Some(file)),
            None => self.new_copy(alloc, name),
        }
    }

    /// An ordinary file; none where it is a device, a pipe or the standard input. These are not opened: what was read of one is lost when it
    /// is closed.
    fn ordinary(&self, name: &str) -> Result<Option<R::File>, Failure> {
        if name == STANDARD_INPUT {
            return Ok(None);
        }
        if let Ok(found) = fs::metadata(self.rt, name) {
            if !found.is_file() {
                return Ok(None);
            }
        }
        match fs::open(self.rt, name) {
            Ok(file) => Ok(Some(file)),
            Err(error) => Err(Failure {
                step: Step::Opening,
                error,
            }),
        }
    }

    /// The next bytes of the file that is read in pieces.
    fn piece(&mut self, buffer: &mut [u8]) -> Result<usize, Failure>
        ensures within { IfOk result (λ count. count ≤ length buffer.new) }
        ensures given { IfOk result (λ count. self.new.given ≡ self.old.given + count) }
        ensures steady { self.new.failures ≡ self.old.failures }
    {
        let Some(file) = &mut self.reading else {
            return Ok(0);
        };
        let count = read_piece(file, buffer, self.given)?;
        self.given += count as u64;
        Ok(count)
    }

    /// The place of the file that is made in pieces under this name.
    fn place_of(&self, name: &str) -> Option<usize>
        ensures { IfSome result (λ place. place < length self.now.making.items) }
    {
        self.making.iter().position(|making| making.is_under(name))
    }

    /// Whether a file that is made in pieces has the name that one of this name would have until it is finished.
    fn has_beside(&self, name: &str) -> bool {
        self.making
            .iter()
            .any(|making| making.is_beside(self.rt, name))
    }

    /// Takes out the file that is made in pieces under this name.
    fn taken_out(&mut self, name: &str) -> Option<Making>
        ensures steady { self.new.failures ≡ self.old.failures }
        ensures given { self.new.given ≡ self.old.given }
    {
        match self.place_of(name) {
            Some(place) => Some(self.making.swap_remove(place)),
            None => None,
        }
    }

    /// Begins a file, after one that was begun under this name before was removed.
    fn make_begun(&mut self, alloc: Global, name: &str) -> Result<bool, Trouble>
        ensures steady { self.new.failures ≡ self.old.failures }
        ensures given { self.new.given ≡ self.old.given }
    {
        if let Some(making) = self.taken_out(name) {
            making.give_up(self.rt);
        }
        if self.has_beside(name) {
            return Ok(false);
        }
        self.making.reserve(1)?;
        let making = if name == STANDARD_OUTPUT {
            begun_apart(self.rt, alloc, name)?
        } else {
            begun(self.rt, alloc, name)?
        };
        match making {
            Some(making) => {
                self.making.push_reserved(making);
                Ok(true)
            }
            None => Ok(false),
        }
    }

    /// Puts bytes at the end of the file that is begun under this name.
    fn put_on(&mut self, name: &str, bytes: &[u8]) -> Result<(), Failure>
        ensures steady { self.new.failures ≡ self.old.failures }
        ensures given { self.new.given ≡ self.old.given }
    {
        let Some(place) = self.place_of(name) else {
            return Err(not_begun());
        };
        let done = self.making[place].add(self.rt, bytes);
        if done.is_err() {
            let _ = self.making.swap_remove(place);
        }
        done
    }

    /// Makes a file of the bytes, or writes them to the standard output.
    fn put(&mut self, name: &str, bytes: &[u8]) -> Result<(), Trouble>
        ensures steady { self.new.failures ≡ self.old.failures }
    {
        if name == STANDARD_OUTPUT {
            match put_all(&mut self.output, bytes) {
                Ok(()) => Ok(()),
                Err(failure) => Err(Trouble::Device(failure)),
            }
        } else {
            make(self.rt, name, bytes)
        }
    }
}

impl<R: Files, I, O> FileFolder<'_, R, I, O> {
    /// Counts a failure, and keeps it for `complaint`.
    fn fail(&mut self, failure: Failure) -> FolderFault
        requires { self.old.failures < 2 ^ 64 - 1 }
        ensures fault { result ≡ FolderFault.Device }
        ensures counted { self.new.failures ≡ self.old.failures + 1 }
        ensures given { self.new.given ≡ self.old.given }
    {
        self.failures += 1;
        self.last = Some(failure);
        FolderFault::Device
    }
}

impl<R: Files<File = File> + Env + Alloc, I: Read, O: Write> Folder for FileFolder<'_, R, I, O> {
    ghost holds = { λ _ _ _. Unit {0} };

    ghost are_one = { λ _ _ _. Unit {0} };

    ghost has = { λ _ _ _. Unit {0} };

    ghost is_left = { λ _ _. Unit {0} };

    ghost most_left = { λ folder. 2 ^ 40 - folder.given };

    ghost is_begun = { λ _ _ _. Unit {0} };

    ghost failure_count = { λ folder. folder.failures };

    fn read(&mut self, alloc: Global, name: &str) -> Result<Vec<u8>, FolderFault> {
        match self.whole(alloc, name) {
            Ok(bytes) => Ok(bytes),
            Err(Trouble::Device(failure)) => Err(self.fail(failure)),
            Err(Trouble::Memory) => Err(FolderFault::Memory),
        }
    }

    fn read_front(&mut self, alloc: Global, name: &str, most: usize) -> Result<Front, FolderFault> {
        match self.front(alloc, name, most) {
            Ok(front) => Ok(front),
            Err(Trouble::Device(failure)) => Err(self.fail(failure)),
            Err(Trouble::Memory) => Err(FolderFault::Memory),
        }
    }

    fn write(&mut self, _alloc: Global, name: &str, bytes: &[u8]) -> Result<(), FolderFault> {
        match self.put(name, bytes) {
            Ok(()) => Ok(()),
            Err(Trouble::Device(failure)) => Err(self.fail(failure)),
            Err(Trouble::Memory) => Err(FolderFault::Memory),
        }
    }

    fn open(&mut self, alloc: Global, name: &str) -> Result<bool, FolderFault> {
        self.reading = None;
        self.given = 0;
        match self.opened(alloc, name) {
            Ok(file) => {
                self.reading = file;
                Ok(self.reading.is_some())
            }
            Err(Trouble::Device(failure)) => Err(self.fail(failure)),
            Err(Trouble::Memory) => Err(FolderFault::Memory),
        }
    }

    fn next(&mut self, buffer: &mut [u8]) -> Result<usize, FolderFault> {
        match self.piece(buffer) {
            Ok(count) => Ok(count),
            Err(failure) => Err(self.fail(failure)),
        }
    }

    fn begin(&mut self, alloc: Global, name: &str) -> Result<bool, FolderFault> {
        match self.make_begun(alloc, name) {
            Ok(in_pieces) => Ok(in_pieces),
            Err(Trouble::Device(failure)) => Err(self.fail(failure)),
            Err(Trouble::Memory) => Err(FolderFault::Memory),
        }
    }

    fn add(&mut self, name: &str, bytes: &[u8]) -> Result<(), FolderFault> {
        match self.put_on(name, bytes) {
            Ok(()) => Ok(()),
            Err(failure) => Err(self.fail(failure)),
        }
    }

    fn finish(&mut self, name: &str) -> Result<(), FolderFault> {
        let done = match self.taken_out(name) {
            Some(making) if name == STANDARD_OUTPUT => making.write_to(&mut self.output),
            Some(making) => making.finish(self.rt),
            None => Err(not_begun()),
        };
        match done {
            Ok(()) => Ok(()),
            Err(failure) => Err(self.fail(failure)),
        }
    }

    fn give_up(&mut self) {
        'making: for _ in 0..self.making.len() {
            if let Some(making) = self.making.pop() {
                making.give_up(self.rt);
            }
        }
    }

    fn is_same(&self, name: &str, other: &str) -> bool {
        name == other || is_one_file(self.rt, name, other) || is_in_the_way(self.rt, other, name)
    }

    fn has(&self, name: &str) -> bool {
        match fs::metadata(self.rt, name) {
            Ok(found) => name != STANDARD_OUTPUT && found.is_file(),
            Err(_) => false,
        }
    }

    fn failures(&self) -> u64 {
        self.failures
    }

    fn complaint(&self, alloc: Global, name: &str) -> Result<String, AllocError> {
        match self.last {
            Some(Failure { step, error }) => {
                let word = step.word();
                format!(in alloc; "cannot {word} {name}: {error}")
            }
            None => Ok(String::new(alloc)),
        }
    }
}
