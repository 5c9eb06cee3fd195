//! What became of the records, counted and gathered in the capture's order.

ghost use Rattle.std.specs.Prelude.{◌≡◌, ◌<◌, ◌≤◌, ◌+◌, ◌++◌, ℕ, Some, length, IfOk, OnOk, ◌^◌};
ghost use Rattle.actors.specs.Shares.{frames_of, frame_at, worker_of_frame, all_captured};
ghost use Rattle.actors.specs.RunJobs.{records_of};
ghost use Rattle.actors.specs.Accounts.{lists_of, end_at, fate_of, counts_of, frames_in, sent_of, sent_by, AreFatesFrom};
ghost use Rattle.actors.specs.Accounts.{AreRunsOfShares, AreNext, no_counts, counted, verdict_for, record_end, ends_of};

use crate::dispatch::{is_short, worker_of};
use crate::outcome::ToldEnd;
use crate::runner::{FrameFate, Ran, RunEnd};
use semantics::Verdict;
use std::alloc::{AllocError, Global};
use std::mem;
use wire::{Capture, Sent};

/// Puts a frame behind those that are sent, if it is sent.
#[inline(always)]
pub fn send(all: &mut Vec<Sent>, fate: Option<RunEnd>) -> Result<(), AllocError>
    ensures { OnOk result (all_captured all.new.items ≡ all_captured all.old.items ++ sent_by fate) }
{
    match fate {
        Some(
            RunEnd::Exited {
                frame: FrameFate::Sent { sent },
                ..
            },
        ) => Ok(all.push(sent)?),
        _ => Ok(()),
    }
}

/// Takes out how a run ended. Its place then says that it was stopped.
fn taken_out(runs: &mut Vec<Ran>, place: usize) -> RunEnd
    requires { place < length runs.old.items }
    ensures end { Some result ≡ end_at runs.old.items place }
    ensures others { (other : ℕ) → ¬ (other ≡ place) → end_at runs.new.items other ≡ end_at runs.old.items other }
    ensures records { records_of runs.new.items ≡ records_of runs.old.items }
{
    let ran = &mut runs[place];
    mem::replace(&mut ran.end, RunEnd::Stopped)
}

/// The worker of a record's flow.
fn worker_at(capture: &Capture, number: usize, workers: usize) -> usize
    requires number { number < length capture.now.records.items }
    requires workers { 0 < workers }
    ensures worker { result ≡ worker_of_frame (frame_at (frames_of capture.now.records.items) number) workers }
    ensures below { result < workers }
{
    worker_of(&capture.records[number].bytes, workers)
}

/// The verdict by which a frame has its fate.
fn verdict_for(fate: &FrameFate) -> Verdict
    ensures { result ≡ verdict_for fate.now }
{
    match fate {
        FrameFate::Aborted => Verdict::Aborted,
        FrameFate::Dropped => Verdict::Drop,
        FrameFate::Passed => Verdict::Pass,
        FrameFate::Sent { .. } => Verdict::Tx,
    }
}

/// The report on a record of this worker: that it is short, or how its run ended.
pub fn record_end(worker: u8, fate: &Option<RunEnd>) -> ToldEnd
    ensures { result ≡ record_end worker fate.now }
{
    match fate {
        None => ToldEnd::Short,
        Some(RunEnd::Stopped) => ToldEnd::Stopped { worker },
        Some(RunEnd::Exited { steps, frame }) => ToldEnd::Exited {
            worker,
            verdict: verdict_for(frame),
            steps: *steps,
        },
    }
}

/// What became of the next record, which is this worker's: none where it is short, else how the next run of this worker ended, which is
/// taken out. So what is said of the later records stays.
fn next_fate(
    capture: &Capture,
    runs: &mut Vec<Vec<Ran>>,
    next: &mut Vec<usize>,
    number: usize,
    worker: usize,
) -> Option<RunEnd>
    requires number { number < length capture.now.records.items }
    requires worker { (worker ≡ worker_of_frame (frame_at (frames_of capture.now.records.items) number) (length runs.old.items))
        × (worker < length runs.old.items) }
    requires runs { AreRunsOfShares (frames_of capture.now.records.items) (length runs.old.items) (length capture.now.records.items)
        (lists_of runs.old.items) }
    requires next { AreNext (frames_of capture.now.records.items) (length runs.old.items) number next.old.items }
    ensures count { length runs.new.items ≡ length runs.old.items }
    ensures runs { AreRunsOfShares (frames_of capture.now.records.items) (length runs.old.items) (length capture.now.records.items)
        (lists_of runs.new.items) }
    ensures next { AreNext (frames_of capture.now.records.items) (length runs.old.items) (number + 1) next.new.items }
    ensures fate { result ≡ fate_of (frames_of capture.now.records.items) (length runs.old.items) (lists_of runs.old.items) number }
    ensures later { AreFatesFrom (number + 1) (frames_of capture.now.records.items) (length runs.old.items) (lists_of runs.old.items)
        (lists_of
        runs.new.items) }
{
    let sent = &capture.records[number];
    if is_short(sent) {
        return None;
    }
    let place = next[worker];
    let list = &mut runs[worker];
    let end = taken_out(list, place);
    next[worker] = place + 1;
    Some(end)
}

/// Counts all records, and gathers what is sent and the report on each, in the capture's order. Frames are moved from the runs, not
/// copied.
pub fn account(
    alloc: Global,
    capture: &Capture,
    mut runs: Vec<Vec<Ran>>,
) -> Result<(Counts, Vec<Sent>, Vec<ToldEnd>), AllocError>
    requires workers { (0 < length runs.items) × (length runs.items ≤ 8) }
    requires runs { AreRunsOfShares (frames_of capture.now.records.items) (length runs.items) (length capture.now.records.items)
        (lists_of runs.items) }
    ensures counts { IfOk result (λ account. account.0 ≡ counts_of (frames_of capture.now.records.items) (length runs.items) (lists_of
        runs.items)
        (length capture.now.records.items)) }
    ensures frames { IfOk result (λ account. frames_in account.0 ≡ length capture.now.records.items) }
    ensures sent { IfOk result (λ account. all_captured account.1.items ≡ sent_of (frames_of capture.now.records.items) (length
        runs.items) (lists_of runs.items)
        (length capture.now.records.items)) }
    ensures ends { IfOk result (λ account. account.2.items ≡ ends_of (frames_of capture.now.records.items) (length runs.items) (lists_of
        runs.items)
        (length capture.now.records.items)) }
{
    let workers = runs.len();
    let mut next = vec![in alloc; 0; workers]?;
    let mut counts = Counts::none();
    let mut all = Vec::new(alloc);
    let mut ends = Vec::with_capacity(alloc, capture.records.len())?;
    'records: for number in 0..capture.records.len() {
        let worker = worker_at(capture, number, workers);
        let fate = next_fate(capture, &mut runs, &mut next, number, worker);
        counts.count(&fate);
        ends.push(record_end(worker as u8, &fate))?;
        send(&mut all, fate)?;
    }
    Ok((counts, all, ends))
}

/// How many records ended in which way. Each record is counted once.
#[derive(Clone, Copy, Debug, PartialEq, Eq)]
pub struct Counts {
    /// Records of fewer than 14 bytes, which are not run.
    pub short: u64,
    /// Records whose run a full journal stopped.
    pub stopped: u64,
    /// Records whose run came to its end, by its verdict.
    pub aborted: u64,
    pub drop: u64,
    pub pass: u64,
    pub tx: u64,
}

impl Counts {
    /// Nothing was counted.
    pub fn none() -> Counts
        ensures { result ≡ no_counts }
    {
        Counts {
            short: 0,
            stopped: 0,
            aborted: 0,
            drop: 0,
            pass: 0,
            tx: 0,
        }
    }

    /// How many records were counted.
    pub fn frames(self) -> u64
        requires { frames_in self < 2 ^ 64 }
        ensures { result ≡ frames_in self }
    {
        self.short + self.stopped + self.aborted + self.drop + self.pass + self.tx
    }

    /// Counts one record: a short one, or what became of it.
    pub fn count(&mut self, fate: &Option<RunEnd>)
        requires { frames_in self.old + 1 < 2 ^ 64 }
        ensures counted { self.new ≡ counted self.old fate.now }
        ensures one_more { frames_in self.new ≡ frames_in self.old + 1 }
    {
        match fate {
            None => self.short += 1,
            Some(RunEnd::Stopped) => self.stopped += 1,
            Some(RunEnd::Exited { frame, .. }) => match frame {
                FrameFate::Aborted => self.aborted += 1,
                FrameFate::Dropped => self.drop += 1,
                FrameFate::Passed => self.pass += 1,
                FrameFate::Sent { .. } => self.tx += 1,
            },
        }
    }
}
