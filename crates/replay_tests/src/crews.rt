//! What no clause says: that threads start and calls return where there is memory, each once at least; and rows worked out elsewhere.

ghost use Rattle.std.specs.Prelude.{◌≡◌, ◌<◌, ◌≤◌};

use crate::asserting::{holds, same};
use crate::replays::{capture, one_record, segment};
use replay::{Actor, ActorEnded, FrameFate, Handled, RunEnd, Runner, Setting, run_all};
use rx_queues::{Job, Queues, TakePass};
use std::alloc::Global;
use std::process::Abort;
use std::sync::Wait;
use std::sync::atomic::{AtomicU64, Ordering};
use std::test::Fail;
use std::thread::Threads;
use wire::{Capture, Sent};

/// The end of a run that takes no step and passes its frame.
fn passed() -> RunEnd {
    RunEnd::Exited {
        steps: 0,
        frame: FrameFate::Passed,
    }
}

/// Passes each frame, and counts in a worker's state how many it has run.
#[derive(Drop)]
struct Passing;

impl Runner<u64> for Passing {
    ghost use Rattle.std.specs.Prelude.{⊤};

    ghost is_new = { λ _ _ _. ⊤ };

    ghost is_idle = { λ _ _ _. ⊤ };

    ghost runs = { λ _ _ _ _ _ _. ⊤ };

    fn run(&self, alloc: Global, worker: u8, sent: &Sent, state: &mut u64) -> Option<RunEnd> {
        let _ = alloc;
        let _ = worker;
        let _ = sent;
        *state = state.wrapping_add(1);
        Some(passed())
    }
}

/// Passes each frame, except that one worker is refused memory at one of its runs, counted from 1.
#[derive(Drop)]
struct Refusing {
    worker: u8,
    run: u64,
    /// How many frames that worker was asked to run.
    asked: AtomicU64,
}

impl Runner<u64> for Refusing {
    ghost use Rattle.std.specs.Prelude.{⊤};

    ghost is_new = { λ _ _ _. ⊤ };

    ghost is_idle = { λ _ _ _. ⊤ };

    ghost runs = { λ _ _ _ _ _ _. ⊤ };

    fn run(&self, alloc: Global, worker: u8, sent: &Sent, state: &mut u64) -> Option<RunEnd> {
        let _ = alloc;
        let _ = sent;
        *state = state.wrapping_add(1);
        if worker == self.worker {
            self.asked.fetch_add(1, Ordering::SeqCst);
            if *state == self.run {
                return None;
            }
        }
        Some(passed())
    }
}

/// What an actor was handed: the command that comes next where all came in order, and how many rounds it was asked for.
#[derive(Clone, Copy, Debug, PartialEq, Eq)]
struct Heard {
    next: usize,
    rounds: u64,
}

/// Listens to its jobs.
#[derive(Drop)]
struct Hearing {
    first: usize,
    is_refused: bool,
}

impl Actor<Heard> for Hearing {
    ghost use Rattle.std.specs.Prelude.{⊤};

    ghost is_ready = { λ _ _ _. ⊤ };

    ghost gives = { λ _ _ _. ⊤ };

    fn until_end<R: Wait>(
        self,
        rt: &R,
        alloc: Global,
        queues: &Queues,
        mut take: TakePass,
    ) -> ActorEnded<Heard> {
        let _ = alloc;
        let mut given = Heard {
            next: self.first,
            rounds: 0,
        };
        'jobs: for _ in rt.forever() {
            match queues.take_waiting(rt, &mut take) {
                Job::End => break,
                Job::Note => given.rounds = given.rounds.wrapping_add(1),
                Job::Command(number) if number == given.next => {
                    given.next = number.wrapping_add(1)
                }
                _ => {}
            }
        }
        ActorEnded {
            take,
            given,
            is_refused: self.is_refused,
        }
    }
}

/// One that has memory.
fn actor_with_memory(first: usize) -> Hearing {
    Hearing {
        first,
        is_refused: false,
    }
}

/// This many records of 40 flows in turn, each hundredth one of 13 bytes only.
fn records<R: Abort>(rt: &R, alloc: Global, count: u32) -> Vec<Sent> {
    let mut records = Vec::new(alloc);
    for number in 0..count {
        let bytes = segment(40000 + (number % 40) as u16);
        let bytes = if number % 100 == 99 {
            &[0; 13]
        } else {
            bytes.as_slice()
        };
        records
            .push(one_record(alloc, number, bytes).expect(rt, "a record"))
            .expect(rt, "room");
    }
    records
}

/// The capture of this many of these records.
fn capture_of<R: Abort>(rt: &R, alloc: Global, count: u32) -> Capture {
    let records = records(rt, alloc, count);
    capture(rt, alloc, &records)
}

/// How many records, over how many workers; how many runs each worker makes, and how many rounds are asked for.
#[derive(Clone, Copy)]
struct Row<'a> {
    records: u32,
    workers: usize,
    runs: &'a [u64],
    rounds: u64,
}

// The workers' runs are as a separate program computed them from the hashes of the flows.
#[rattlefmt::skip]
const ROWS: [Row; 5] = [
    Row { records: 0,    workers: 1, runs: &[0],      rounds: 0 },
    Row { records: 63,   workers: 1, runs: &[63],     rounds: 0 },
    Row { records: 64,   workers: 2, runs: &[32, 32], rounds: 1 },
    Row { records: 1000, workers: 1, runs: &[990],    rounds: 15 },
    Row { records: 1000, workers: 4, runs: &[250, 240, 250, 250], rounds: 15 },
];

/// After how many records each command comes. The first one was applied before.
const STARTS: [u32; 5] = [0, 0, 64, 500, 4_000_000_000];

/// Compares how often each worker ran, by its runs and by what it counted.
fn are_runs(rt: &impl Abort, workers: &[Handled<u64>], want: &[u64]) {
    same(rt, "workers", &workers.len(), &want.len());
    for (worker, runs) in workers.iter().zip(want) {
        same(rt, "runs of a worker", &(worker.runs.len() as u64), runs);
        same(rt, "what a worker counted", &worker.state, runs);
    }
}

/// Runs the row with a controller and a reclaimer, and compares.
fn run_beside<R: Abort + Threads + Wait + Sync>(
    rt: &R,
    alloc: Global,
    row: &Row<'_>,
) -> Result<(), Fail>
    requires { (0 < row.now.workers) × (row.now.workers ≤ 8) }
{
    let states = vec![in alloc; 0; row.workers]?;
    let capture = capture_of(rt, alloc, row.records);
    let (queues, put, takes) = Queues::open(
        alloc,
        row.workers,
        capture.records.len(),
        STARTS.len(),
    )?;
    let setting = Setting {
        rt,
        alloc,
        queues: &queues,
        capture: &capture,
        starts: &STARTS,
        first: 1,
        runner: &Passing,
    };
    let ended = run_all(
        setting,
        actor_with_memory(1),
        actor_with_memory(0),
        put,
        takes,
        states,
    );
    let ended = ended.ok().expect(rt, "an end");
    are_runs(rt, &ended.workers, row.runs);
    same(
        rt,
        "controller",
        &ended.controller,
        &Heard { next: 5, rounds: 0 },
    );
    let rounds = Heard {
        next: 0,
        rounds: row.rounds,
    };
    same(rt, "reclaimer", &ended.reclaimer, &rounds);
    Ok(())
}

#[test]
fn each_record_is_run_once(rt: HostRuntime) -> Result<(), Fail> {
    for row in &ROWS {
        holds(&rt, "a worker", 0 < row.workers);
        holds(&rt, "no more than eight", row.workers <= 8);
        run_beside(&rt, rt.alloc(), row)?;
    }
    Ok(())
}

/// Which worker is refused memory at which of its runs (0: at none), whether the controller and the reclaimer are, the fault (0: none), and
/// how many frames that worker is asked to run. Of 1000 frames by four workers the first one runs 250, so that its queue is full several
/// times after it was refused.
type RefusalRow = (&'static str, u8, u64, bool, bool, u8, u64);

#[rattlefmt::skip]
const REFUSALS: [RefusalRow; 8] = [
    ("nobody",                          0, 0,   false, false, 0,  250),
    ("the first worker at once",        0, 1,   false, false, 52, 1),
    ("a middle worker at once",         1, 1,   false, false, 52, 1),
    ("the last worker at once",         3, 1,   false, false, 52, 1),
    ("the first worker at the last",    0, 250, false, false, 52, 250),
    ("a middle worker on the way",      2, 100, false, false, 52, 100),
    ("the controller",                  0, 0,   true,  false, 52, 250),
    ("the reclaimer",                   0, 0,   false, true,  52, 250),
];

/// Runs 1000 frames by four workers, and refuses memory to one of them or to an actor: the number of the fault, and how many frames that
/// worker was asked to run.
fn refused<R: Abort + Threads + Wait + Sync>(
    rt: &R,
    alloc: Global,
    refusal: &RefusalRow,
) -> Result<(u8, u64), Fail> {
    let (_, worker, run, controller, reclaimer, ..) = *refusal;
    let states = vec![in alloc; 0; 4]?;
    let capture = capture_of(rt, alloc, 1000);
    let (queues, put, takes) = Queues::open(alloc, 4, capture.records.len(), STARTS.len())?;
    let runner = Refusing {
        worker,
        run,
        asked: AtomicU64::new(0),
    };
    let controller = Hearing {
        first: 1,
        is_refused: controller,
    };
    let reclaimer = Hearing {
        first: 0,
        is_refused: reclaimer,
    };
    let setting = Setting {
        rt,
        alloc,
        queues: &queues,
        capture: &capture,
        starts: &STARTS,
        first: 1,
        runner: &runner,
    };
    let ended = run_all(setting, controller, reclaimer, put, takes, states);
    let fault = match ended {
        Ok(_) => 0,
        Err(abandoned) => abandoned.fault.number(),
    };
    Ok((fault, runner.asked.load(Ordering::SeqCst)))
}

/// Compares a refusal's fault and runs.
fn is_refused<R: Abort + Threads + Wait + Sync>(
    rt: &R,
    alloc: Global,
    refusal: &RefusalRow,
) -> Result<(), Fail> {
    let (name, _, _, _, _, fault, asked) = *refusal;
    let found = refused(rt, alloc, refusal)?;
    same(rt, name, &found, &(fault, asked));
    Ok(())
}

#[test]
fn an_actor_that_is_refused_memory_takes_its_jobs_to_the_end(rt: HostRuntime) -> Result<(), Fail> {
    for refusal in &REFUSALS {
        is_refused(&rt, rt.alloc(), refusal)?;
    }
    Ok(())
}
