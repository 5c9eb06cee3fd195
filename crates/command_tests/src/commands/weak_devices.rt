//! Streams and folders with one call that fails, and what a command leaves over them.

ghost use Rattle.std.specs.Prelude.{None, ◌≡◌, ◌↔◌, ◌+◌, ◌<◌, ◌-◌, ◌^◌, ℕ, List, false};

use crate::asserting::holds_of;
use command_line::settings;
use folders::{Folder, FolderFault, Front, MemoryFolder};
use std::alloc::{AllocError, Global};
use std::process::Abort;
use std::sync::Wait;
use std::thread::Threads;
use wire::{Failed, Sink};
use xlb_commands::{NoProgress, serve};

/// A number of a call that no command here reaches.
pub(super) const NEVER: u64 = 1_000_000;

/// The most bytes that a weak stream takes at a time.
pub(super) const MOST: usize = 16;

/// The most bytes of a file that is read in pieces.
const MOST_IN_PIECES: u64 = 1 << 40;

/// A stream that takes at most `MOST` bytes at a time, and fails at the call `fails_at`, counted from 0.
#[derive(Drop)]
pub(super) struct WeakStream {
    pub taken: Vec<u8>,
    calls: u64,
    fails_at: u64,
    pub failures: u64,
}

impl WeakStream {
    /// A stream to which nothing was written.
    fn new(alloc: Global, fails_at: u64) -> WeakStream
        ensures { result.failures ≡ 0 }
    {
        WeakStream {
            taken: Vec::new(alloc),
            calls: 0,
            fails_at,
            failures: 0,
        }
    }
}

impl Sink for WeakStream {
    ghost held = { λ _. None };

    ghost failure_count = { λ sink. sink.failures };

    fn write(&mut self, bytes: &[u8]) -> Result<usize, Failed> {
        let count = bytes.len().min(MOST);
        let fails = self.calls == self.fails_at;
        self.calls = self.calls.wrapping_add(1);
        if fails || self.taken.extend_from_slice(&bytes[..count]).is_err() {
            self.failures += 1;
            return Err(Failed);
        }
        Ok(count)
    }

    fn failures(&self) -> u64 {
        self.failures
    }
}

/// A call of a folder.
#[derive(Clone, Copy, PartialEq, Eq)]
pub(super) enum FolderCall {
    Read,
    ReadFront,
    Write,
    Open,
    Next,
    Begin,
    Add,
    Finish,
}

/// What a folder does not do.
#[derive(Clone, Copy)]
pub(super) struct Weakness {
    /// The calls that are counted: these alone, or all.
    pub counts: Option<FolderCall>,
    /// Which of them fails, counted from 0.
    pub fails_at: u64,
    /// Whether it reads files in pieces.
    pub opens: bool,
    /// Whether it makes files in pieces.
    pub begins: bool,
}

/// A folder that does everything.
pub(super) const SOUND_FOLDER: Weakness = Weakness {
    counts: None,
    fails_at: NEVER,
    opens: true,
    begins: true,
};

/// A folder with one call that fails; it may be one that reads or makes files only whole.
#[derive(Drop)]
pub(super) struct WeakFolder<D> {
    pub files: D,
    weakness: Weakness,
    pub calls: u64,
    pub failures: u64,
    /// No more bytes than these are read of the file that is open.
    left: u64,
}

impl<D: Folder> WeakFolder<D> {
    /// Counts a call, if it is one that is counted, and says whether it is the one that fails.
    fn is_failing(&mut self, call: FolderCall) -> bool
        ensures files { self.new.files ≡ self.old.files }
        ensures failures { self.new.failures ≡ self.old.failures }
        ensures left { self.new.left ≡ self.old.left }
        ensures room { result ≡ false → D.failure_count self.new.files < 2 ^ 64 - 1 }
    {
        let counts = match self.weakness.counts {
            Some(counted) => counted == call,
            None => true,
        };
        let fails = counts && self.calls == self.weakness.fails_at;
        if counts {
            self.calls = self.calls.wrapping_add(1);
        }
        fails || self.files.failures() == u64::MAX
    }

    /// Counts a failure.
    fn fail(&mut self) -> FolderFault
        requires { self.old.failures < 2 ^ 64 - 1 }
        ensures files { self.new.files ≡ self.old.files }
        ensures left { self.new.left ≡ self.old.left }
        ensures fault { result ≡ FolderFault.Device }
        ensures counted { self.new.failures ≡ self.old.failures + 1 }
    {
        self.failures += 1;
        FolderFault::Device
    }
}

impl<D: Folder> Folder for WeakFolder<D> {
    ghost holds = { λ folder. D.holds folder.files };

    ghost are_one = { λ folder. D.are_one folder.files };

    ghost has = { λ folder. D.has folder.files };

    ghost is_left = { λ folder. D.is_left folder.files };

    ghost most_left = { λ folder. folder.left };

    ghost is_begun = { λ folder. D.is_begun folder.files };

    ghost failure_count = { λ folder. folder.failures };

    fn read(&mut self, alloc: Global, name: &str) -> Result<Vec<u8>, FolderFault> {
        if self.is_failing(FolderCall::Read) {
            return Err(self.fail());
        }
        match self.files.read(alloc, name) {
            Ok(bytes) => Ok(bytes),
            Err(FolderFault::Memory) => Err(FolderFault::Memory),
            Err(FolderFault::Device) => Err(self.fail()),
        }
    }

    fn read_front(&mut self, alloc: Global, name: &str, most: usize) -> Result<Front, FolderFault> {
        if self.is_failing(FolderCall::ReadFront) {
            return Err(self.fail());
        }
        match self.files.read_front(alloc, name, most) {
            Ok(front) => Ok(front),
            Err(FolderFault::Memory) => Err(FolderFault::Memory),
            Err(FolderFault::Device) => Err(self.fail()),
        }
    }

    fn write(&mut self, alloc: Global, name: &str, bytes: &[u8]) -> Result<(), FolderFault> {
        if self.is_failing(FolderCall::Write) {
            return Err(self.fail());
        }
        match self.files.write(alloc, name, bytes) {
            Ok(()) => Ok(()),
            Err(FolderFault::Memory) => Err(FolderFault::Memory),
            Err(FolderFault::Device) => Err(self.fail()),
        }
    }

    fn open(&mut self, alloc: Global, name: &str) -> Result<bool, FolderFault> {
        self.left = 0;
        if self.is_failing(FolderCall::Open) {
            return Err(self.fail());
        }
        if !self.weakness.opens {
            return Ok(false);
        }
        match self.files.open(alloc, name) {
            Ok(opened) => {
                self.left = MOST_IN_PIECES;
                Ok(opened)
            }
            Err(FolderFault::Memory) => Err(FolderFault::Memory),
            Err(FolderFault::Device) => Err(self.fail()),
        }
    }

    fn next(&mut self, buffer: &mut [u8]) -> Result<usize, FolderFault> {
        if self.is_failing(FolderCall::Next) {
            return Err(self.fail());
        }
        match self.files.next(buffer) {
            Ok(count) => {
                if count as u64 > self.left {
                    return Err(self.fail());
                }
                self.left -= count as u64;
                Ok(count)
            }
            Err(_) => Err(self.fail()),
        }
    }

    fn begin(&mut self, alloc: Global, name: &str) -> Result<bool, FolderFault> {
        if self.is_failing(FolderCall::Begin) {
            return Err(self.fail());
        }
        if !self.weakness.begins {
            return Ok(false);
        }
        match self.files.begin(alloc, name) {
            Ok(begun) => Ok(begun),
            Err(FolderFault::Memory) => Err(FolderFault::Memory),
            Err(FolderFault::Device) => Err(self.fail()),
        }
    }

    fn add(&mut self, name: &str, bytes: &[u8]) -> Result<(), FolderFault> {
        if self.is_failing(FolderCall::Add) {
            return Err(self.fail());
        }
        match self.files.add(name, bytes) {
            Ok(()) => Ok(()),
            Err(FolderFault::Memory) => Err(FolderFault::Memory),
            Err(FolderFault::Device) => Err(self.fail()),
        }
    }

    fn finish(&mut self, name: &str) -> Result<(), FolderFault> {
        if self.is_failing(FolderCall::Finish) {
            return Err(self.fail());
        }
        match self.files.finish(name) {
            Ok(()) => Ok(()),
            Err(FolderFault::Memory) => Err(FolderFault::Memory),
            Err(FolderFault::Device) => Err(self.fail()),
        }
    }

    fn give_up(&mut self) {
        self.files.give_up();
    }

    fn is_same(&self, name: &str, other: &str) -> bool {
        self.files.is_same(name, other)
    }

    fn has(&self, name: &str) -> bool {
        self.files.has(name)
    }

    fn failures(&self) -> u64 {
        self.failures
    }

    fn complaint(&self, alloc: Global, name: &str) -> Result<String, AllocError> {
        format!(in alloc; "{name} failed")
    }
}

/// What a command leaves: its status, its streams, and its folder.
#[derive(Drop)]
pub(super) struct Left {
    pub status: u8,
    pub out: WeakStream,
    pub err: WeakStream,
    pub folder: WeakFolder<MemoryFolder>,
}

/// The program over these files, with this weakness of their folder, and streams whose calls of these numbers fail.
pub(super) fn left_over<R: Abort + Threads + Wait + Sync>(
    rt: &R,
    alloc: Global,
    files: MemoryFolder,
    line: &str,
    weakness: Weakness,
    out: u64,
    err: u64,
) -> Left {
    let words: Vec<&str> = line.split(' ').collect(alloc).expect(rt, "words");
    let settings = settings(alloc, words.as_slice()).expect(rt, "a command line");
    let mut folder = WeakFolder {
        files,
        weakness,
        calls: 0,
        failures: 0,
        left: 0,
    };
    let mut out = WeakStream::new(alloc, out);
    let mut err = WeakStream::new(alloc, err);
    let status = serve(
        rt,
        alloc,
        &settings,
        &mut folder,
        &NoProgress,
        &mut out,
        &mut err,
    );
    Left {
        status,
        out,
        err,
        folder,
    }
}

/// Ends the test where more calls of a folder failed than any command here makes.
pub(super) fn has_few_failures(rt: &impl Abort, line: &str, folder: &MemoryFolder)
    ensures { folder.now.failures < NEVER }
{
    holds_of(rt, line, "few failures", folder.failures() < NEVER);
}
