//! What the summary of a replay counts, while its records come.

use crate::record_report::{is_tx, steps_in, verdict_in};
use control::Script;
use replay::ToldEnd;
use std::alloc::{AllocError, Global};
use traffic::{Choice, FrameTally, LineVerdict, RecordTally};
use wire::Sent;

/// The most records that went elsewhere and have lines of their own.
const MOST_MOVED: usize = 10;

/// What a summary counts. It grows with the number of addresses and of flows, not with that of records.
#[derive(Drop)]
pub(crate) struct Sums {
    pub frames: FrameTally,
    pub records: RecordTally,
    pub moved: Moved,
}

/// The records whose frames went elsewhere than the frame of their flow before.
#[derive(Drop)]
pub(crate) struct Moved {
    /// The first ones, at most ten, counted from 0.
    pub first: Vec<usize>,
    /// How many there are behind them.
    pub more: usize,
    pub by: MovedBy,
    /// How many records were noted.
    passed: usize,
    /// How many of their frames were sent.
    sent: usize,
}

/// How many frames went elsewhere by each choice of their backend, of the shipped program.
#[derive(Drop)]
pub(crate) struct MovedBy {
    /// The backend that is noted for the flow was not up.
    pub note_down: usize,
    /// The flow had no note.
    pub no_note: usize,
    /// The service was without tracking.
    pub untracked: usize,
    /// The backend that is noted for the flow.
    pub noted: usize,
}

/// The summary of a replay whose records come in pieces.
#[derive(Drop)]
pub(crate) enum Summing {
    /// Nobody asked for it.
    Unasked,
    Counted(Sums),
    /// There was no memory for it.
    Lost,
}

/// The verdict of each record.
fn verdicts_of(alloc: Global, ends: &[ToldEnd]) -> Result<Vec<LineVerdict>, AllocError> {
    ends.iter().map(|end| verdict_in(*end)).collect(alloc)
}

impl MovedBy {
    /// One frame more went elsewhere, by this choice.
    fn add(&mut self, choice: Choice) {
        match choice {
            Choice::NoteDown => self.note_down = self.note_down.saturating_add(1),
            Choice::NoNote => self.no_note = self.no_note.saturating_add(1),
            Choice::Untracked => self.untracked = self.untracked.saturating_add(1),
            Choice::Noted => self.noted = self.noted.saturating_add(1),
        }
    }
}

impl Moved {
    /// No record was noted.
    fn none(alloc: Global) -> Moved {
        Moved {
            first: Vec::new(alloc),
            more: 0,
            by: MovedBy {
                note_down: 0,
                no_note: 0,
                untracked: 0,
                noted: 0,
            },
            passed: 0,
            sent: 0,
        }
    }

    /// One record more went elsewhere, whose run ended so.
    fn put(&mut self, record: usize, end: ToldEnd) -> Result<(), AllocError> {
        if let Some(choice) = Choice::of(verdict_in(end), steps_in(end)) {
            self.by.add(choice);
        }
        if self.first.len() < MOST_MOVED {
            self.first.push(record)?;
        } else {
            self.more = self.more.saturating_add(1);
        }
        Ok(())
    }

    /// Notes the next records, of which the frames at these places among all that were ever sent went elsewhere.
    fn note(&mut self, places: &[usize], ends: &[ToldEnd]) -> Result<(), AllocError> {
        let mut next: usize = 0;
        'records: for end in ends {
            if is_tx(verdict_in(*end)) {
                if places.get(next).copied() == Some(self.sent) {
                    next = next.saturating_add(1);
                    self.put(self.passed, *end)?;
                }
                self.sent = self.sent.saturating_add(1);
            }
            self.passed = self.passed.saturating_add(1);
        }
        Ok(())
    }
}

impl Sums {
    /// Before the first record of a replay with this script.
    fn new(alloc: Global, script: &Script) -> Result<Sums, AllocError> {
        Ok(Sums {
            frames: FrameTally::new(alloc)?,
            records: RecordTally::new(alloc, script)?,
            moved: Moved::none(alloc),
        })
    }

    /// Counts the next records, with the frames that were sent of them and their ends.
    fn note(
        &mut self,
        alloc: Global,
        script: &Script,
        records: &[Sent],
        sent: &[Sent],
        ends: &[ToldEnd],
    ) -> Result<(), AllocError> {
        let places = self.frames.note(alloc, records, sent)?;
        let verdicts = verdicts_of(alloc, ends)?;
        self.records.note(alloc, script, records, &verdicts)?;
        self.moved.note(&places, ends)
    }
}

impl Summing {
    /// Before the first record of a replay with this script, where a summary is asked for or not.
    pub(crate) fn new(alloc: Global, is_asked: bool, script: &Script) -> Summing {
        if !is_asked {
            return Summing::Unasked;
        }
        match Sums::new(alloc, script) {
            Ok(sums) => Summing::Counted(sums),
            Err(_) => Summing::Lost,
        }
    }

    /// Counts the next records, with the frames that were sent of them and their ends.
    pub(crate) fn note(
        &mut self,
        alloc: Global,
        script: &Script,
        records: &[Sent],
        sent: &[Sent],
        ends: &[ToldEnd],
    ) {
        let noted = match self {
            Summing::Counted(sums) => sums.note(alloc, script, records, sent, ends),
            Summing::Unasked | Summing::Lost => Ok(()),
        };
        if noted.is_err() {
            *self = Summing::Lost;
        }
    }
}
