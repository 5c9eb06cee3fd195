//! What no clause says: rows worked out elsewhere, and that jobs come through.

ghost use Rattle.std.specs.Prelude.{◌≡◌, ◌<◌, ◌≤◌, ◌+◌, length, IfSome};
ghost use Rattle.rx_queues.specs.Passes.{HasQueue, FitsAt, workers_of, record_count_of, command_count_of, queue_of, IsPutPassOf, IsTakePassOf};
ghost use Rattle.rx_queues.specs.Passes.{TakeAtTheirPlaces};

use crate::asserting::{holds, same, same_at};
use rx_queues::{Caller, Job, OpenFault, PutPass, Queues, TakePass, spread};
use std::alloc::Global;
use std::process::Abort;
use std::sync::Wait;
use std::thread;
use std::thread::Threads;
use wire::{FlowKey, Ipv4Address, Transport};

fn flow(source_port: u16, destination_port: u16, transport: Transport) -> FlowKey {
    FlowKey {
        source: Ipv4Address([198, 51, 100, 7]),
        destination: Ipv4Address([203, 0, 113, 1]),
        source_port,
        destination_port,
        transport,
    }
}

/// What a row shows, both ports, the protocol, how many workers there are, and the worker.
type Row = (&'static str, u16, u16, Transport, usize, usize);

// The workers are as a separate program computed them from the hash of the sixteen bytes.
#[rattlefmt::skip]
const SPREADS: [Row; 12] = [
    ("another destination port",             40000, 443, Transport::Tcp, 3, 1),
    ("another protocol",                     40000, 80,  Transport::Udp, 2, 1),
    ("one worker takes all",                 40001, 80,  Transport::Tcp, 1, 0),
    ("seven workers",                        40000, 80,  Transport::Tcp, 7, 5),
    ("eight flows, each another worker: 1",  40192, 80,  Transport::Tcp, 8, 5),
    ("eight flows, each another worker: 2",  40193, 80,  Transport::Tcp, 8, 6),
    ("eight flows, each another worker: 3",  40194, 80,  Transport::Tcp, 8, 7),
    ("eight flows, each another worker: 4",  40195, 80,  Transport::Tcp, 8, 0),
    ("eight flows, each another worker: 5",  40196, 80,  Transport::Tcp, 8, 1),
    ("eight flows, each another worker: 6",  40197, 80,  Transport::Tcp, 8, 2),
    ("eight flows, each another worker: 7",  40198, 80,  Transport::Tcp, 8, 3),
    ("eight flows, each another worker: 8",  40199, 80,  Transport::Tcp, 8, 4),
];

/// Compares the worker of each row's flow.
fn are_spread(rt: &impl Abort, rows: &[Row]) {
    for (name, source_port, destination_port, transport, workers, want) in rows {
        let key = flow(*source_port, *destination_port, *transport);
        holds(rt, name, *workers > 0);
        same(rt, name, &spread(Some(&key), *workers), want);
    }
}

#[test]
fn flows_spread_over_workers(rt: HostRuntime) {
    are_spread(&rt, &SPREADS);
    same(&rt, "no flow", &spread(None, 8), &0);
}

const WORKERS: [(usize, u8); 4] = [(0, 51), (1, 0), (8, 0), (9, 51)];

/// The number of the refusal to open queues, or 0.
fn refusal_of(alloc: Global, workers: usize) -> u8 {
    match Queues::open(alloc, workers, 0, 0) {
        Ok(_) => 0,
        Err(fault) => fault.number(),
    }
}

#[test]
fn one_to_eight_workers_have_queues(rt: HostRuntime) {
    for (workers, want) in WORKERS {
        let found = refusal_of(rt.alloc(), workers);
        same_at(&rt, "queues of workers:", workers as u64, &found, &want);
    }
}

// The last of the rights to take.
fn last_of(queues: &Queues, takes: &mut Vec<TakePass>) -> Option<TakePass>
    requires { TakeAtTheirPlaces queues.now takes.old.items }
    ensures others { TakeAtTheirPlaces queues.now takes.new.items }
    ensures last { IfSome result (λ take. IsTakePassOf queues.now take × (length takes.old.items ≡ length takes.new.items + 1)) }
{
    takes.pop()
}

// The caller whose queue is at a place.
fn caller_at(workers: usize, place: usize) -> Caller
    requires few { workers < 9 }
    requires there { place < workers + 2 }
    ensures queue { HasQueue workers result }
    ensures place { queue_of workers result ≡ place }
{
    if place < workers {
        Caller::Worker {
            number: place as u8,
        }
    } else if place == workers {
        Caller::Controller
    } else {
        Caller::Reclaimer
    }
}

// A job for the caller: the frame or the command of this number, or a note.
fn job_for(queues: &Queues, who: Caller, number: usize) -> Job
    requires queue { HasQueue (workers_of queues.now) who }
    requires number { (number < record_count_of queues.now) × (number < command_count_of queues.now) }
    ensures { FitsAt queues.now (queue_of (workers_of queues.now) who) result }
{
    let _ = queues;
    match who {
        Caller::Worker { .. } => Job::Frame(number),
        Caller::Controller => Job::Command(number),
        Caller::Reclaimer => Job::Note,
    }
}

// Whether the job has this number, if its kind has numbers.
fn is_numbered(job: Job, number: usize) -> bool {
    match job {
        Job::Frame(it) => it == number,
        Job::Command(it) => it == number,
        Job::Note => true,
        Job::End => false,
    }
}

// Puts the caller's jobs from 0 on, and the end.
fn put_jobs<R: Wait>(
    rt: &R,
    queues: &Queues,
    who: Caller,
    mut pass: PutPass,
    count: usize,
) -> PutPass
    requires queue { HasQueue (workers_of queues.now) who }
    requires count { (count ≤ record_count_of queues.now) × (count ≤ command_count_of queues.now) }
    requires pass { IsPutPassOf queues.now pass }
    ensures { IsPutPassOf queues.now result }
{
    'puts: for number in 0..count {
        queues.put_waiting(rt, who, job_for(queues, who, number), &mut pass);
    }
    queues.put_waiting(rt, who, Job::End, &mut pass);
    pass
}

// Takes jobs up to the end, and returns how many came in order from 0 on.
fn take_jobs<R: Wait>(rt: &R, queues: &Queues, mut pass: TakePass) -> (TakePass, usize)
    requires { IsTakePassOf queues.now pass }
    ensures { IsTakePassOf queues.now result.0 }
{
    let mut next = 0;
    'takes: for _ in rt.forever() {
        if !is_numbered(queues.take_waiting(rt, &mut pass), next) || next >= 1_000_000 {
            return (pass, next);
        }
        next += 1;
    }
    unreachable!()
}

// Sends jobs through one queue from one thread to another.
fn pass_through<R: Threads + Wait + Sync>(
    rt: &R,
    queues: &Queues,
    who: Caller,
    put: PutPass,
    take: TakePass,
    count: usize,
) -> (PutPass, usize)
    requires queue { HasQueue (workers_of queues.now) who }
    requires count { (count ≤ record_count_of queues.now) × (count ≤ command_count_of queues.now) }
    requires put { IsPutPassOf queues.now put }
    requires take { IsTakePassOf queues.now take }
    ensures { IsPutPassOf queues.now result.0 }
{
    let (mut put, (take, came)) = thread::join(
        rt,
        move ||
            requires queue { HasQueue (workers_of queues.now) who }
            requires count { (count ≤ record_count_of queues.now) × (count ≤ command_count_of queues.now) }
            requires put { IsPutPassOf queues.now put }
            ensures { IsPutPassOf queues.entry.now result }
        { put_jobs(rt, queues, who, put, count) },
        move ||
            requires { IsTakePassOf queues.now take }
            ensures { IsTakePassOf queues.entry.now result.0 }
        { take_jobs(rt, queues, take) },
    );
    queues.settle(&mut put, take);
    (put, came)
}

#[test]
fn a_thousand_jobs_go_through_each_queue(rt: HostRuntime) -> Result<(), OpenFault> {
    let (queues, mut put, mut takes) = Queues::open(rt.alloc(), 8, 1000, 1000)?;
    'queues: while let Some(take) = last_of(&queues, &mut takes) {
        let place = takes.len();
        let (back, came) = pass_through(&rt, &queues, caller_at(8, place), put, take, 1000);
        put = back;
        same_at(&rt, "jobs through queue", place as u64, &came, &1000);
    }
    Ok(())
}

// Puts a job of the caller's and takes it again, this many times. Returns how often it came at once.
fn in_lockstep<R: Wait>(
    rt: &R,
    queues: &Queues,
    who: Caller,
    put: &mut PutPass,
    take: &mut TakePass,
    count: usize,
) -> usize
    requires queue { HasQueue (workers_of queues.now) who }
    requires count { (count ≤ record_count_of queues.now) × (count ≤ command_count_of queues.now) }
    requires put { IsPutPassOf queues.now put.old }
    requires take { IsTakePassOf queues.now take.old }
    ensures put { IsPutPassOf queues.now put.new }
    ensures take { IsTakePassOf queues.now take.new }
{
    'turns: for number in 0..count {
        let job = job_for(queues, who, number);
        if queues.put(rt, who, job, put).is_err() || queues.take(rt, take) != Some(job) {
            return number;
        }
    }
    count
}

/// No question for a job, whichever it is, is answered with none while there is one.
#[test]
fn each_of_300_takes_finds_the_job(rt: HostRuntime) -> Result<(), OpenFault> {
    let (queues, mut put, mut takes) = Queues::open(rt.alloc(), 2, 300, 300)?;
    'queues: while let Some(mut take) = last_of(&queues, &mut takes) {
        let who = caller_at(2, takes.len());
        let count = in_lockstep(&rt, &queues, who, &mut put, &mut take, 300);
        same(&rt, "jobs in lockstep", &count, &300);
    }
    Ok(())
}
