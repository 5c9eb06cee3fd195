//! The faults that commands print, and their explanations.

ghost use Rattle.std.specs.Prelude.{◌≡◌, true};
ghost use Rattle.faults.specs.Explanations.{is_fault};

use super::{Wanted, compare};
use crate::asserting::{holds_of, same_text};
use audit::AuditFault;
use conntrack::SteerFault;
use control::ControlFault;
use disasm::AsmFault;
use ebpf_decode::DecodeFault;
use faults::{Explanation, Fields};
use folders::{FolderFault, MemoryFolder};
use image_shape::ShapeFault;
use ipip::IpipFault;
use journals::FileFault;
use machine::Stop;
use maglev::RingFault;
use mistakes::explained;
use replay::ReplayFault;
use runs::RunFault;
use semantics::JournalFull;
use shards::{OpenFault, PassFault};
use source_form::{Problem, SourceFault};
use std::alloc::Global;
use std::fmt::Display;
use std::process::Abort;
use verifier::Reject;
use wire::{CaptureFault, FrameFault};
use xlb_commands::{Fault, fault_line};

/// The faults that commands print.
#[rattlefmt::skip]
static FAULTS: [Fault; 74] = [
    Fault::Folder(FolderFault::Device),
    Fault::Folder(FolderFault::Memory),
    Fault::Output,
    Fault::Memory,
    Fault::Frame(FrameFault::FrameTooLong),
    Fault::Frame(FrameFault::Memory),
    Fault::Frame(FrameFault::ShortFrame),
    Fault::Decode(DecodeFault::BadHead),
    Fault::Decode(DecodeFault::BadMap { map: 3 }),
    Fault::Decode(DecodeFault::Empty),
    Fault::Decode(DecodeFault::NotWhole),
    Fault::Decode(DecodeFault::TooLong),
    Fault::Decode(DecodeFault::Memory),
    Fault::Decode(DecodeFault::UnknownOpcode { slot: 3 }),
    Fault::Decode(DecodeFault::NotInProfile { slot: 3 }),
    Fault::Decode(DecodeFault::BadRegister { slot: 3 }),
    Fault::Decode(DecodeFault::FieldNotZero { slot: 3 }),
    Fault::Decode(DecodeFault::WideCut { slot: 3 }),
    Fault::Text(AsmFault::BadLine { line: 3 }),
    Fault::Text(AsmFault::Image(DecodeFault::Empty)),
    Fault::Text(AsmFault::Memory),
    Fault::Program(Reject::JumpBackward { slot: 3 }),
    Fault::Program(Reject::JumpOutside { slot: 3 }),
    Fault::Program(Reject::JumpIntoWide { slot: 3 }),
    Fault::Program(Reject::FallsOff { slot: 3 }),
    Fault::Program(Reject::Unreachable { slot: 3 }),
    Fault::Program(Reject::UnsetRegister { slot: 3, register: 1 }),
    Fault::Program(Reject::WrongKind { slot: 3, register: 1 }),
    Fault::Program(Reject::PacketBounds { slot: 3 }),
    Fault::Program(Reject::StackBounds { slot: 3 }),
    Fault::Program(Reject::StackUnset { slot: 3 }),
    Fault::Program(Reject::ValueBounds { slot: 3 }),
    Fault::Program(Reject::Misaligned { slot: 3 }),
    Fault::Program(Reject::ContextAccess { slot: 3 }),
    Fault::Program(Reject::ReadOnlyFp { slot: 3 }),
    Fault::Program(Reject::UnknownHelper { slot: 3 }),
    Fault::Program(Reject::BadArgument { slot: 3, register: 1 }),
    Fault::Program(Reject::PointerLeak { slot: 3 }),
    Fault::Program(Reject::UnknownMap { slot: 3 }),
    Fault::Program(Reject::NotArrayMap { slot: 3 }),
    Fault::Program(Reject::Memory),
    Fault::Options(OpenFault::BadOptions),
    Fault::Options(OpenFault::Memory),
    Fault::Run(Stop::JournalFull { shard: 3 }),
    Fault::Journals(FileFault::Device),
    Fault::Journals(FileFault::Memory),
    Fault::Journals(FileFault::BadJournalFile { line: 3 }),
    Fault::Audit(AuditFault::Memory),
    Fault::Audit(AuditFault::Illegal { shard: 0, place: 3 }),
    Fault::Source(SourceFault::BadLine { line: 70_000, problem: Problem::NoNumber }),
    Fault::Source(SourceFault::Image(DecodeFault::TooLong)),
    Fault::Source(SourceFault::Memory),
    Fault::Steering(SteerFault::BadSize),
    Fault::Steering(SteerFault::Memory),
    Fault::Script(ControlFault::BadSize),
    Fault::Script(ControlFault::BadLine { line: 70_000 }),
    Fault::Script(ControlFault::UnknownBackend),
    Fault::Script(ControlFault::BackendTwice),
    Fault::Script(ControlFault::Refused { answer: -7 }),
    Fault::Script(ControlFault::JournalFull),
    Fault::Script(ControlFault::Memory),
    Fault::Capture(CaptureFault::BadMagic),
    Fault::Capture(CaptureFault::BadVersion),
    Fault::Capture(CaptureFault::BadLink),
    Fault::Capture(CaptureFault::CutHead { record: 0 }),
    Fault::Capture(CaptureFault::CutFrame { record: 5_000_000_000 }),
    Fault::Capture(CaptureFault::FrameTooLong { record: 3 }),
    Fault::Capture(CaptureFault::Device),
    Fault::Capture(CaptureFault::Memory),
    Fault::Replay(ReplayFault::BadOptions),
    Fault::Replay(ReplayFault::Memory),
    Fault::Replay(ReplayFault::NoThread),
    Fault::Replay(ReplayFault::Refused { place: 1, answer: -7 }),
    Fault::Replay(ReplayFault::Full { place: 1 }),
];

/// The number behind the word `fault` of a fault's text.
fn number_in(text: &str) -> u32 {
    match text.split(' ').nth(1) {
        Some(word) => word.parse::<u32>().unwrap_or(0),
        None => 0,
    }
}

/// Holds that the name in a fault's line is the one that its number is explained under.
fn compare_name<R: Abort>(rt: &R, alloc: Global, fault: Fault) {
    let line = fault_line(alloc, fault).expect(rt, "a line");
    let text = format!(in alloc; "{line} ").expect(rt, "a line");
    let number = number_in(&text);
    let name = Explanation::of(number).map(|row| row.name).unwrap_or("");
    let wanted = format!(in alloc; "fault {number} {name} ").expect(rt, "a line");
    let is_so = text.as_str().starts_with(wanted.as_str());
    holds_of(rt, &line, "name", is_so);
}

#[test]
fn faults_are_explained_under_their_names(rt: HostRuntime) {
    for fault in &FAULTS {
        compare_name(&rt, rt.alloc(), *fault);
    }
}

/// The text of a fault of one crate.
fn text_of<R: Abort, T: Display>(rt: &R, alloc: Global, fault: &T) -> String {
    format!(in alloc; "{fault}").expect(rt, "a text")
}

/// The text that the fault's own crate prints.
fn own_text<R: Abort>(rt: &R, alloc: Global, fault: Fault) -> String {
    match fault {
        Fault::Folder(fault) => text_of(rt, alloc, &fault),
        Fault::Decode(fault) => text_of(rt, alloc, &fault),
        Fault::Text(fault) => text_of(rt, alloc, &fault),
        Fault::Source(fault) => text_of(rt, alloc, &fault),
        Fault::Program(fault) => text_of(rt, alloc, &fault),
        Fault::Frame(fault) => text_of(rt, alloc, &fault),
        Fault::Options(fault) => text_of(rt, alloc, &fault),
        Fault::Run(fault) => text_of(rt, alloc, &fault),
        Fault::Journals(fault) => text_of(rt, alloc, &fault),
        Fault::Audit(fault) => text_of(rt, alloc, &fault),
        Fault::Steering(fault) => text_of(rt, alloc, &fault),
        Fault::Script(fault) => text_of(rt, alloc, &fault),
        Fault::Capture(fault) => text_of(rt, alloc, &fault),
        Fault::Replay(fault) => text_of(rt, alloc, &fault),
        Fault::Output => text_of(rt, alloc, &"fault 7 Device"),
        Fault::Memory => text_of(rt, alloc, &"fault 8 Memory"),
    }
}

/// Holds a fault's line against the text that its own crate prints.
fn compare_text<R: Abort>(rt: &R, alloc: Global, fault: Fault) {
    let line = fault_line(alloc, fault).expect(rt, "a line");
    let text = own_text(rt, alloc, fault);
    same_text(rt, "a line", line.as_str(), text.as_str());
}

#[test]
fn lines_are_the_texts_of_the_crates(rt: HostRuntime) {
    for fault in &FAULTS {
        compare_text(&rt, rt.alloc(), *fault);
    }
}

/// Holds the line of a fault that no command prints against the text that its own crate prints.
fn compare_line<R: Abort, T: Display>(rt: &R, alloc: Global, fault: &T, number: u8, fields: Fields)
    requires { is_fault number ≡ true }
{
    let line = faults::fault_line(alloc, number, fields).expect(rt, "a line");
    let text = text_of(rt, alloc, fault);
    same_text(rt, "a line", line.as_str(), text.as_str());
}

/// The faults of lookup tables.
const RINGS: [RingFault; 5] = [
    RingFault::NoBackend,
    RingFault::Twice,
    RingFault::TooMany,
    RingFault::BadSize,
    RingFault::Memory,
];

#[test]
fn lines_of_lookup_tables(rt: HostRuntime) {
    for fault in &RINGS {
        compare_line(&rt, rt.alloc(), fault, fault.number(), Fields::Empty);
    }
}

/// The faults of encapsulations.
const TUNNELS: [IpipFault; 4] = [
    IpipFault::TtlZero,
    IpipFault::TooLong,
    IpipFault::NoRoom,
    IpipFault::NotPlainIpv4,
];

#[test]
fn lines_of_encapsulations(rt: HostRuntime) {
    for fault in &TUNNELS {
        compare_line(&rt, rt.alloc(), fault, fault.number(), Fields::Empty);
    }
}

/// The faults of passes.
const PASSES: [PassFault; 3] = [
    PassFault::BadOptions,
    PassFault::Memory,
    PassFault::PassTaken,
];

#[test]
fn lines_of_passes(rt: HostRuntime) {
    for fault in &PASSES {
        compare_line(&rt, rt.alloc(), fault, fault.number(), Fields::Empty);
    }
}

/// The faults of a program's structure.
const SHAPES: [ShapeFault; 5] = [
    ShapeFault::JumpBackward { slot: 3 },
    ShapeFault::JumpOutside { slot: 3 },
    ShapeFault::JumpIntoWide { slot: 3 },
    ShapeFault::FallsOff { slot: 3 },
    ShapeFault::Unreachable { slot: 3 },
];

#[test]
fn lines_of_structure(rt: HostRuntime) {
    for fault in &SHAPES {
        compare_line(&rt, rt.alloc(), fault, fault.number(), fault.fields());
    }
}

/// The faults of a single run.
const RUNS: [RunFault; 3] = [
    RunFault::Open(OpenFault::BadOptions),
    RunFault::Refused {
        place: 1,
        answer: -7,
    },
    RunFault::Full { place: 1 },
];

#[test]
fn lines_of_single_runs(rt: HostRuntime) {
    for fault in &RUNS {
        compare_line(&rt, rt.alloc(), fault, fault.number(), fault.fields());
    }
}

#[test]
fn line_of_a_full_journal(rt: HostRuntime) {
    let fault = JournalFull { shard: 3 };
    compare_line(&rt, rt.alloc(), &fault, fault.number(), fault.fields());
}

const EXPLAINED: &str = "fault 33 FallsOff
The last instruction goes on past the end.
Usual causes: The program does not end with `exit`.
For example: `mov r0, 2` as the whole program.
";

/// Faults, and the line below their paragraphs: the numbers of the others that have the name.
#[rattlefmt::skip]
static NAMESAKES: [(u32, &str); 8] = [
    (8,  "Other faults of this name: 20 23 48 52 74 95\n"),
    (14, "Other faults of this name: 81\n"),
    (21, "Other faults of this name: 90\n"),
    (33, ""),
    (50, "Other faults of this name: 60 94\n"),
    (60, "Other faults of this name: 50 94\n"),
    (90, "Other faults of this name: 21\n"),
    (95, "Other faults of this name: 8 20 23 48 52 74\n"),
];

/// Compares what is printed of a fault.
fn compare_namesakes(rt: &impl Abort, alloc: Global, number: u32, line: &str) {
    let row = Explanation::of(number).expect(rt, "a row");
    let mut wanted = row.text(alloc).expect(rt, "memory");
    wanted.push_str(line).expect(rt, "memory");
    let text = explained(alloc, &row).expect(rt, "memory");
    same_text(rt, row.name, text.as_str(), wanted.as_str());
}

#[test]
fn other_faults_of_a_name_are_named(rt: HostRuntime) {
    for (number, line) in &NAMESAKES {
        compare_namesakes(&rt, rt.alloc(), *number, *line);
    }
}

const TWO_TOO_LONG: &str = "fault 14 TooLong
The program has more than 4096 slots.
Usual causes: A loop was unrolled too often.
For example: 4096 times `mov r0, 1`, and `exit`.
Other faults of this name: 81
";

#[test]
fn explains_a_name_of_two_faults(rt: HostRuntime) {
    let wanted = Wanted {
        status: 0,
        out: TWO_TOO_LONG,
        err: "",
    };
    let folder = MemoryFolder::new(rt.alloc());
    compare(
        &rt,
        rt.alloc(),
        "TooLong",
        folder,
        "xlb explain TooLong",
        wanted,
    );
}

#[test]
fn explains_a_fault(rt: HostRuntime) {
    let alloc = rt.alloc();
    let wanted = Wanted {
        status: 0,
        out: EXPLAINED,
        err: "",
    };
    compare(
        &rt,
        alloc,
        "fault 33",
        MemoryFolder::new(alloc),
        "xlb explain 33",
        wanted,
    );
}
