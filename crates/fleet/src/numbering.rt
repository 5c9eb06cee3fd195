//! The numbers that a script's commands have in a part of a capture. The commands' own numbers count the records of the whole capture.

ghost use Rattle.std.specs.Prelude.{◌≡◌, ◌+◌, ◌≤◌, ◌<◌, ◌^◌, ◌++◌, ◌∷◌, [], ℕ, List, true, false};
ghost use Rattle.std.specs.Prelude.{IfOk, OnOk, length, map, slice_index};
ghost use Rattle.wire.specs.declared.records.Sent.{Sent as Record};
ghost use Rattle.fleet.specs.Parts.{is_in_part, number_in_part};
ghost use Rattle.fleet.specs.Numbers.{AreNumbered, IsNumbering, NeverFall};

use crate::part::Part;
use std::alloc::{AllocError, Global};
use wire::Sent;

/// The numbers of a script's first commands in a part of a capture that is read piece by piece.
#[derive(Drop)]
pub struct Numbering {
    pub part: Part,
    /// The numbers, in the part, of the commands that are due by now.
    pub numbers: Vec<u32>,
    /// How many records of the capture were read.
    pub passed: usize,
    /// How many of them are in the part.
    pub taken: usize,
}

impl Numbering {
    /// Before the first record.
    pub fn new(alloc: Global, part: Part) -> Numbering
        ensures start { (frames : List ℕ) → NeverFall 0 frames → AreNumbered frames [] result }
        ensures part { result.part ≡ part }
        ensures passed { result.passed ≡ 0 }
    {
        Numbering {
            part,
            numbers: Vec::new(alloc),
            passed: 0,
            taken: 0,
        }
    }

    /// Whether the next command is due before the next record.
    #[inline(always)]
    fn is_due(&self, frames: &[u32]) -> bool
        requires { IsNumbering frames.now self.now }
        ensures due { result ≡ true → (length self.now.numbers.items < length frames.now)
            × (slice_index frames.now (length self.now.numbers.items) ≡ self.now.passed) × (self.now.passed < 2 ^ 32) }
        ensures later { result ≡ false → length self.now.numbers.items < length frames.now →
            self.now.passed < slice_index frames.now (length self.now.numbers.items) }
    {
        let next = self.numbers.len();
        next < frames.len() && frames[next] as usize == self.passed
    }

    /// Goes past the next record of the capture, before which no command is due, and says whether it is in the part.
    #[inline(always)]
    fn go_past(&mut self, frame: &[u8]) -> bool
        requires fits { self.old.passed + 1 < 2 ^ 64 }
        requires few { self.old.taken ≤ self.old.passed }
        ensures past { (frames : List ℕ) (past : List Record) (sent : Record) → sent.bytes.items ≡ frame.now → AreNumbered frames past self.old →
            (length self.old.numbers.items < length frames → self.old.passed < slice_index frames (length self.old.numbers.items)) →
            AreNumbered frames (past ++ sent ∷ []) self.new }
        ensures has { (sent : Record) → sent.bytes.items ≡ frame.now →
            result ≡ is_in_part self.old.part.of self.old.part.lost self.old.part.number self.old.passed sent }
        ensures part { self.new.part ≡ self.old.part }
        ensures passed { self.new.passed ≡ self.old.passed + 1 }
    {
        let has = self.part.has(self.passed, frame);
        self.taken += usize::from(has);
        self.passed += 1;
        has
    }

    /// Notes the number of the next command, which is due.
    fn note(&mut self) -> Result<(), AllocError>
        requires small { self.old.taken < 2 ^ 32 }
        ensures noted { OnOk result ((frames : List ℕ) (past : List Record) → AreNumbered frames past self.old →
            length self.old.numbers.items < length frames → slice_index frames (length self.old.numbers.items) ≡ self.old.passed →
            AreNumbered frames past self.new) }
        ensures part { self.new.part ≡ self.old.part }
        ensures passed { self.new.passed ≡ self.old.passed }
        ensures more { OnOk result (length self.new.numbers.items ≡ length self.old.numbers.items + 1) }
    {
        self.numbers.push(self.taken as u32)?;
        Ok(())
    }

    /// Notes the numbers of all commands that are due before the next record. It is called for few records, so it stands apart from the others.
    #[inline(never)]
    fn note_due(&mut self, frames: &[u32]) -> Result<(), AllocError>
        requires { IsNumbering frames.now self.old }
        ensures noted { OnOk result ((past : List Record) → AreNumbered frames.now past self.old → AreNumbered frames.now past self.new) }
        ensures later { OnOk result (length self.new.numbers.items < length frames.now →
            self.new.passed < slice_index frames.now (length self.new.numbers.items)) }
        ensures part { self.new.part ≡ self.old.part }
        ensures passed { self.new.passed ≡ self.old.passed }
    {
        'commands: while self.is_due(frames) {
            self.note()?;
        }
        Ok(())
    }

    /// Goes past the next record of the capture, of which this is the frame, and notes the numbers of the commands that are due before it.
    /// Says whether the record is in the part. `frames` are the commands' own numbers, the same in each call. It fails only for lack of
    /// memory.
    #[inline(always)]
    pub fn pass(&mut self, frames: &[u32], frame: &[u8]) -> Result<bool, AllocError>
        requires fits { self.old.passed + 1 < 2 ^ 64 }
        requires numbering { IsNumbering frames.now self.old }
        ensures past { OnOk result ((past : List Record) (sent : Record) → sent.bytes.items ≡ frame.now → AreNumbered frames.now past self.old →
            AreNumbered frames.now (past ++ sent ∷ []) self.new) }
        ensures has { IfOk result (λ has. (sent : Record) → sent.bytes.items ≡ frame.now →
            has ≡ is_in_part self.old.part.of self.old.part.lost self.old.part.number self.old.passed sent) }
        ensures part { self.new.part ≡ self.old.part }
        ensures passed { OnOk result (self.new.passed ≡ self.old.passed + 1) }
    {
        if self.is_due(frames) {
            self.note_due(frames)?;
        }
        Ok(self.go_past(frame))
    }

    /// The numbers, in the part, of all commands, behind the last record of the capture. It fails only for lack of memory.
    pub fn finish(self, frames: &[u32]) -> Result<Vec<u32>, AllocError>
        requires { IsNumbering frames.now self }
        ensures { IfOk result (λ numbers. (past : List Record) → AreNumbered frames.now past self →
            numbers.items ≡ map (number_in_part self.part.of self.part.lost self.part.number past) frames.now) }
    {
        let taken = self.taken;
        let mut numbers = self.numbers;
        'left: for place in numbers.len()..frames.len() {
            numbers.push(last_number(frames[place], taken))?;
        }
        Ok(numbers)
    }
}

/// The number, in a part, of a command behind all records, of which so many are in the part.
fn last_number(frame: u32, taken: usize) -> u32
    requires { taken ≤ frame }
    ensures { result ≡ taken }
{
    let _ = frame;
    taken as u32
}

/// The numbers, in a part of a capture, of commands at these numbers of the whole capture. It fails only for lack of memory.
pub fn numbers_in_part(
    alloc: Global,
    part: Part,
    records: &[Sent],
    frames: &[u32],
) -> Result<Vec<u32>, AllocError>
    requires { NeverFall 0 frames.now }
    ensures { IfOk result (λ numbers. numbers.items ≡ map (number_in_part part.of part.lost part.number records.now) frames.now) }
{
    let mut numbering = Numbering::new(alloc, part);
    'records: for place in 0..records.len() {
        numbering.pass(frames, &records[place].bytes)?;
    }
    numbering.finish(frames)
}
