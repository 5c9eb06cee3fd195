//! What a replay takes of the records of a capture that is read in pieces: all, or those of a part.

ghost use Rattle.std.specs.Prelude.{◌≡◌, ◌↔◌, ◌∷◌, [], true, ℕ, List, Ok, Option, Some, None, if◌then◌else◌, length};
ghost use Rattle.std.specs.Prelude.{IfErr, IfNone, IfOk, IfSome, OnErr, OnOk};
ghost use Rattle.wire.specs.declared.records.Sent.{Sent as Record};
ghost use Rattle.fleet.specs.declared.part.Part.{Part as OnePart};
ghost use Rattle.control.specs.Renumbering.{at_frames};
ghost use Rattle.xlb_commands.specs.Parts.{command_frames};
ghost use Rattle.xlb_commands.specs.Taking.{AreNumbers, AreRecordsTaken, CanPass, GoesPast, HasPassed, IsBehindSome, IsBehindSomeOf, knows_numbers};

use crate::fault::{Fault, Refusal};
use crate::files::unserved;
use crate::parts::frames_of;
use control::{Script, commands_never_fall};
use fleet::{Numbering, Part};
use folders::{Folder, FolderFault};
use std::alloc::{AllocError, Global};

/// What is taken of the records of a capture.
#[derive(Drop)]
pub(crate) enum Taking {
    All,
    /// Those of a part, in which the commands of the script get other numbers.
    Of {
        /// The numbers that the commands have in the whole capture.
        frames: Vec<u32>,
        numbering: Numbering,
    },
}

/// The commands of a script at their numbers in a part.
#[derive(Drop)]
pub(crate) struct Numbered {
    pub numbers: Vec<u32>,
    pub script: Script,
}

impl Taking {
    /// Before the first record of a capture with this script. It fails only for lack of memory.
    pub(crate) fn before_all(
        alloc: Global,
        part: Option<Part>,
        script: &Script,
    ) -> Result<Taking, AllocError>
        ensures { IfOk result (HasPassed part (command_frames script.now) []) }
    {
        match part {
            None => Ok(Taking::All),
            Some(part) => {
                commands_never_fall(script);
                let frames = frames_of(alloc, script)?;
                let numbering = Numbering::new(alloc, part);
                Ok(Taking::Of { frames, numbering })
            }
        }
    }

    /// Goes past the next record of the capture, of which this is the frame, and says whether it is taken. It fails only for lack of memory.
    #[inline(always)]
    pub(crate) fn pass(&mut self, frame: &[u8]) -> Result<bool, AllocError>
        requires { CanPass self.old }
        ensures past { OnOk result ((sent : Record) → sent.bytes.items ≡ frame.now → GoesPast self.old self.new (sent ∷ [])) }
        ensures taken { IfOk result (λ taken. (sent : Record) → sent.bytes.items ≡ frame.now →
            AreRecordsTaken self.old (sent ∷ []) (if taken then sent ∷ [] else [])) }
    {
        match self {
            Taking::All => Ok(true),
            Taking::Of { frames, numbering } => numbering.pass(frames, frame),
        }
    }

    /// Whether all commands have their numbers: no further record changes them.
    #[inline(always)]
    pub(crate) fn knows_numbers(&self) -> bool
        ensures { result ≡ knows_numbers self.now }
    {
        match self {
            Taking::All => true,
            Taking::Of { frames, numbering } => numbering.numbers.len() == frames.len(),
        }
    }

    /// Behind the last record of the capture: whether the commands have these numbers in the part; yes where all records are taken. It fails
    /// only for lack of memory.
    pub(crate) fn has_numbers(self, numbers: &[u32]) -> Result<bool, AllocError>
        requires { IsBehindSome self }
        ensures { IfOk result (λ has. (part : Option OnePart) (frames : List ℕ) (past : List Record) → HasPassed part frames past self →
            (has ≡ true ↔ AreNumbers part frames past numbers.now)) }
    {
        match self {
            Taking::All => Ok(true),
            Taking::Of { frames, numbering } => {
                let found = numbering.finish(&frames)?;
                Ok(found.as_slice() == numbers)
            }
        }
    }

    /// Behind the last record of the capture: the script's commands at their numbers in the part; none where all records are taken. It fails
    /// only for lack of memory.
    pub(crate) fn numbered(
        self,
        alloc: Global,
        script: &Script,
    ) -> Result<Option<Numbered>, AllocError>
        requires { IsBehindSomeOf script.now self }
        ensures script { IfOk result (λ found. IfSome found (λ it. it.script ≡ at_frames it.numbers.items script.now)) }
        ensures numbers { IfOk result (λ found. IfSome found (λ it. (part : Option OnePart) (past : List Record) →
            HasPassed part (command_frames script.now) past self → AreNumbers part (command_frames script.now) past it.numbers.items)) }
        ensures of_part { IfOk result (λ found. IfSome found (λ it. (part : Option OnePart) (frames : List ℕ) (past : List Record) →
            HasPassed part frames past self → (one : OnePart) × (part ≡ Some one))) }
        ensures all { IfOk result (λ found. IfNone found ((part : Option OnePart) (frames : List ℕ) (past : List Record) →
            HasPassed part frames past self → part ≡ None)) }
        ensures refused { OnErr result ((part : Option OnePart) (frames : List ℕ) (past : List Record) →
            HasPassed part frames past self → (one : OnePart) × (part ≡ Some one)) }
    {
        match self {
            Taking::All => Ok(None),
            Taking::Of { frames, numbering } => {
                commands_never_fall(script);
                let numbers = numbering.finish(&frames)?;
                let script = script.at_frames(alloc, &numbers)?;
                Ok(Some(Numbered { numbers, script }))
            }
        }
    }
}

/// What was done, or the refusal for lack of memory.
#[inline(always)]
fn or_unserved<D: Folder, T>(
    alloc: Global,
    folder: &D,
    name: &str,
    done: Result<T, AllocError>,
) -> Result<T, Refusal>
    ensures done { IfOk result (λ value. done ≡ Ok value) }
    ensures refused { IfErr result (λ refusal. refusal.fault ≡ Fault.Folder FolderFault.Memory) }
{
    match done {
        Ok(value) => Ok(value),
        Err(_) => Err(unserved(alloc, folder, name, FolderFault::Memory)),
    }
}

/// Goes past the next record of a capture, of which this is the frame, and says whether it is taken.
#[inline(always)]
pub(crate) fn go_past<D: Folder>(
    alloc: Global,
    folder: &D,
    name: &str,
    taking: &mut Taking,
    frame: &[u8],
) -> Result<bool, Refusal>
    requires { CanPass taking.old }
    ensures past { OnOk result ((sent : Record) → sent.bytes.items ≡ frame.now → GoesPast taking.old taking.new (sent ∷ [])) }
    ensures taken { IfOk result (λ taken. (sent : Record) → sent.bytes.items ≡ frame.now →
        AreRecordsTaken taking.old (sent ∷ []) (if taken then sent ∷ [] else [])) }
    ensures refused { IfErr result (λ refusal. refusal.fault ≡ Fault.Folder FolderFault.Memory) }
{
    or_unserved(alloc, folder, name, taking.pass(frame))
}

/// What is taken of the records of a capture, before the first of them.
pub(crate) fn before_all<D: Folder>(
    alloc: Global,
    folder: &D,
    name: &str,
    part: Option<Part>,
    script: &Script,
) -> Result<Taking, Refusal>
    ensures passed { IfOk result (HasPassed part (command_frames script.now) []) }
    ensures refused { IfErr result (λ refusal. refusal.fault ≡ Fault.Folder FolderFault.Memory) }
{
    or_unserved(alloc, folder, name, Taking::before_all(alloc, part, script))
}

/// Whether the commands have the same numbers in the part as when the capture was read first.
pub(crate) fn has_numbers<D: Folder>(
    alloc: Global,
    folder: &D,
    name: &str,
    taking: Taking,
    numbers: &[u32],
) -> Result<bool, Refusal>
    requires { IsBehindSome taking }
    ensures same { IfOk result (λ same. (part : Option OnePart) (frames : List ℕ) (past : List Record) → HasPassed part frames past taking →
        (same ≡ true ↔ AreNumbers part frames past numbers.now)) }
    ensures refused { IfErr result (λ refusal. refusal.fault ≡ Fault.Folder FolderFault.Memory) }
{
    or_unserved(alloc, folder, name, taking.has_numbers(numbers))
}
