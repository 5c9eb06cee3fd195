//! Why a command was refused.

ghost use Rattle.std.specs.Prelude.{◌≡◌};

use audit::AuditFault;
use conntrack::SteerFault;
use control::ControlFault;
use disasm::AsmFault;
use ebpf_decode::DecodeFault;
use folders::FolderFault;
use journals::FileFault;
use machine::Stop;
use replay::ReplayFault;
use shards::OpenFault;
use source_form::SourceFault;
use std::alloc::AllocError;
use verifier::Reject;
use wire::{CaptureFault, FrameFault};

/// Why a command was refused: the fault of the crate that found it. `fault_line` gives the line that is printed of it.
#[derive(Clone, Copy, Debug, PartialEq, Eq)]
pub enum Fault {
    /// 7 or 8: a file was not read or written.
    Folder(FolderFault),
    /// 10 to 20: bytes that are no image.
    Decode(DecodeFault),
    /// 21 to 23: a text that spells no image.
    Text(AsmFault),
    /// 21 to 23: a text in the source form that spells no image.
    Source(SourceFault),
    /// 30 to 49: a program that may not run.
    Program(Reject),
    /// 6, 8 or 9: bytes that are no frame.
    Frame(FrameFault),
    /// 51 or 52: options that no run is opened with, or no memory for its maps.
    Options(OpenFault),
    /// 60: a run was stopped.
    Run(Stop),
    /// 52 or 55: bytes that are no file of journals of the image's maps.
    Journals(FileFault),
    /// 52 or 53: journals that are not legal.
    Audit(AuditFault),
    /// 73 or 74: the lookup table of the shipped program has no size that is served, or there is no memory for the program.
    Steering(SteerFault),
    /// 90 or 95: bytes that are no script. 93 or 94: an update of a run that its map refused, or whose journal was full.
    Script(ControlFault),
    /// 1 to 8: bytes that are no capture.
    Capture(CaptureFault),
    /// 51, 52 or 56: a replay that was given up. 93 or 94: an update before its first frame that its map refused, or whose journal was
    /// full.
    Replay(ReplayFault),
    /// 7: what was to be printed could not be.
    Output,
    /// 8: memory was refused.
    Memory,
}

/// A fault, with notes on it for people.
#[derive(Drop)]
pub struct Refusal {
    pub fault: Fault,
    /// Lines that go below the fault's.
    pub notes: Option<String>,
}

impl Refusal {
    /// A fault with a note; without one where there is no memory for it.
    pub fn noted(fault: Fault, note: Result<String, AllocError>) -> Refusal
        ensures { result.fault ≡ fault }
    {
        Refusal {
            fault,
            notes: note.ok(),
        }
    }

    /// A fault with what is to be printed about it, if there is memory for that.
    pub fn hinted(fault: Fault, hint: Result<Option<String>, AllocError>) -> Refusal
        ensures { result.fault ≡ fault }
    {
        match hint {
            Ok(notes) => Refusal { fault, notes },
            Err(_) => Refusal { fault, notes: None },
        }
    }
}

impl From<Fault> for Refusal {
    ghost use Rattle.std.specs.Prelude.{◌≡◌};

    ghost from_gives = { λ fault refusal. refusal.fault ≡ fault };

    fn from(fault: Fault) -> Refusal {
        Refusal { fault, notes: None }
    }
}

impl From<AllocError> for Refusal {
    ghost use Rattle.std.specs.Prelude.{◌≡◌};
    ghost use Rattle.xlb_commands.specs.declared.fault.Fault.TheVariants.{Memory};

    ghost from_gives = { λ _ refusal. refusal.fault ≡ Memory };

    fn from(_error: AllocError) -> Refusal {
        Refusal {
            fault: Fault::Memory,
            notes: None,
        }
    }
}

impl From<AllocError> for Fault {
    ghost use Rattle.std.specs.Prelude.{◌≡◌};
    ghost use Rattle.xlb_commands.specs.declared.fault.Fault.TheVariants.{Memory};

    ghost from_gives = { λ _ fault. fault ≡ Memory };

    fn from(_error: AllocError) -> Fault {
        Fault::Memory
    }
}
