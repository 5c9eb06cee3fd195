//! Devices that fail.

ghost use Rattle.std.specs.Prelude.{None};

use super::first_path::IMAGE;
use super::put_digits;
use crate::asserting::{holds_of, same_bytes_of, same_status};
use command_line::Settings;
use folders::{Folder, FolderFault, Front, MemoryFolder};
use std::alloc::{AllocError, Global};
use std::process::Abort;
use std::sync::Wait;
use std::thread::Threads;
use wire::{Failed, MemorySink, Sink};
use xlb_commands::{NoProgress, serve};

/// A sink that fails at its first call.
#[derive(Drop)]
struct BrokenSink {
    failures: u64,
}

impl Sink for BrokenSink {
    ghost held = { λ _. None };

    ghost failure_count = { λ sink. sink.failures };

    fn write(&mut self, _bytes: &[u8]) -> Result<usize, Failed> {
        self.failures += 1;
        Err(Failed)
    }

    fn failures(&self) -> u64 {
        self.failures
    }
}

/// A folder in which nothing can be written, for lack of memory or because the device fails.
#[derive(Drop)]
struct FullFolder {
    failures: u64,
    fault: FolderFault,
    text: &'static str,
}

impl Folder for FullFolder {
    ghost holds = { λ _ _ _. Unit {0} };

    ghost are_one = { λ _ _ _. Unit {0} };

    ghost has = { λ _ _ _. Unit {0} };

    ghost is_left = { λ _ _. Unit {0} };

    ghost most_left = { λ _. 0 };

    ghost is_begun = { λ _ _ _. Unit {0} };

    ghost failure_count = { λ folder. folder.failures };

    fn read(&mut self, alloc: Global, _name: &str) -> Result<Vec<u8>, FolderFault> {
        match Vec::from_slice(alloc, self.text.as_bytes()) {
            Ok(bytes) => Ok(bytes),
            Err(_) => Err(FolderFault::Memory),
        }
    }

    fn read_front(
        &mut self,
        _alloc: Global,
        _name: &str,
        _most: usize,
    ) -> Result<Front, FolderFault> {
        Err(FolderFault::Memory)
    }

    fn write(&mut self, _alloc: Global, _name: &str, _bytes: &[u8]) -> Result<(), FolderFault> {
        match self.fault {
            FolderFault::Device => {
                self.failures += 1;
                Err(FolderFault::Device)
            }
            FolderFault::Memory => Err(FolderFault::Memory),
        }
    }

    fn open(&mut self, _alloc: Global, _name: &str) -> Result<bool, FolderFault> {
        Ok(false)
    }

    fn next(&mut self, _buffer: &mut [u8]) -> Result<usize, FolderFault> {
        Ok(0)
    }

    fn begin(&mut self, _alloc: Global, _name: &str) -> Result<bool, FolderFault> {
        Ok(false)
    }

    fn add(&mut self, _name: &str, _bytes: &[u8]) -> Result<(), FolderFault> {
        self.failures += 1;
        Err(FolderFault::Device)
    }

    fn finish(&mut self, _name: &str) -> Result<(), FolderFault> {
        self.failures += 1;
        Err(FolderFault::Device)
    }

    fn give_up(&mut self) {}

    fn is_same(&self, name: &str, other: &str) -> bool {
        name == other
    }

    fn has(&self, _name: &str) -> bool {
        false
    }

    fn failures(&self) -> u64 {
        self.failures
    }

    fn complaint(&self, alloc: Global, name: &str) -> Result<String, AllocError> {
        format!(in alloc; "cannot write {name}: it is full")
    }
}

#[test]
fn tells_a_broken_output(rt: HostRuntime) {
    let alloc = rt.alloc();
    let mut folder = put_digits(&rt, alloc, MemoryFolder::new(alloc), "image", IMAGE);
    let mut out = BrokenSink { failures: 0 };
    let mut err = MemorySink::new(alloc);
    let settings = Settings::Check {
        image: "image",
        explain: false,
    };
    let status = serve(
        &rt,
        alloc,
        &settings,
        &mut folder,
        &NoProgress,
        &mut out,
        &mut err,
    );
    same_status(&rt, "a broken output", status, 1);
    same_bytes_of(
        &rt,
        "a broken output",
        "error",
        err.bytes(),
        b"fault 7 Device\n",
    );
    holds_of(&rt, "a broken output", "one failure", out.failures() == 1);
}

#[test]
fn survives_a_broken_error_stream(rt: HostRuntime) {
    let alloc = rt.alloc();
    let mut folder = put_digits(&rt, alloc, MemoryFolder::new(alloc), "image", IMAGE);
    let mut out = MemorySink::new(alloc);
    let mut err = BrokenSink { failures: 0 };
    let settings = Settings::Check {
        image: "nosuch",
        explain: false,
    };
    let status = serve(
        &rt,
        alloc,
        &settings,
        &mut folder,
        &NoProgress,
        &mut out,
        &mut err,
    );
    same_status(&rt, "a broken error stream", status, 1);
    same_bytes_of(&rt, "a broken error stream", "output", out.bytes(), b"");
}

const FULL: [(FolderFault, &str); 2] = [
    (
        FolderFault::Device,
        "fault 7 Device\n  cannot write made: it is full\n",
    ),
    (FolderFault::Memory, "fault 8 Memory\n"),
];

/// Holds what is printed of a full folder against what is to be printed.
fn compare_full<R: Abort + Threads + Wait + Sync>(
    rt: &R,
    alloc: Global,
    fault: FolderFault,
    want: &str,
) {
    let mut folder = FullFolder {
        failures: 0,
        fault,
        text: "version 1\nexit\n",
    };
    let mut out = MemorySink::new(alloc);
    let mut err = MemorySink::new(alloc);
    let settings = Settings::Asm {
        text: "text",
        out: "made",
        source: false,
    };
    let status = serve(
        rt,
        alloc,
        &settings,
        &mut folder,
        &NoProgress,
        &mut out,
        &mut err,
    );
    same_status(rt, want, status, 1);
    same_bytes_of(rt, want, "error", err.bytes(), want.as_bytes());
}

#[test]
fn tells_a_full_folder(rt: HostRuntime) {
    for row in &FULL {
        compare_full(&rt, rt.alloc(), row.0, row.1);
    }
}
