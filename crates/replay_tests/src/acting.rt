//! What no clause says: that the actors work where there is memory, for what the gate is called, and rows worked out elsewhere.

ghost use Rattle.std.specs.Prelude.{◌≡◌, ◌≤◌, ◌+◌, [], IfOk};
ghost use Rattle.semantics.specs.declared.call.Caller.TheVariants.{Controller as TheController, Reclaimer};
ghost use Rattle.maglev.specs.RingSize.{IsRingSize};
ghost use Rattle.actors.specs.Commands.{ServesScript};
ghost use Rattle.actors.specs.ActorJobs.{IsForCommands};
ghost use Rattle.actors.specs.Actors.{IsUnused};
ghost use Rattle.rx_queues.specs.Passes.{HasQueue, IsTakePassOf, jobs_taken, place_taken_from, queue_of, workers_of, command_count_of};
ghost use Rattle.shards.specs.NewShards.{IsNamed};

use crate::asserting::{holds_of, same_fact};
use conntrack::{maps, table_size};
use control::{Command, parse_script};
use ebpf_decode::{Image, Insn, Version};
use journals::Journals;
use replay::{
    Actor, ActorEnded, Applied, Commanded, Commander, Reclaiming, ReplayFault, set_first,
};
use rx_queues::{Job, OpenFault, Queues, TakePass};
use semantics::{Caller, Options};
use shard_port::{Gate, NoGate};
use shards::{Naming, Opened, Pass, Shards};
use std::alloc::Global;
use std::cell::Cell;
use std::marker::Brand;
use std::process::Abort;
use std::sync::Wait;
use std::test::Fail;

/// A gate that keeps how often it was called for a reply, and the last number.
#[derive(Drop)]
struct CountingGate {
    times: Cell<u64>,
    last: Cell<u64>,
}

impl Gate for CountingGate {
    fn replied(&self, _who: Caller, nth: u64) {
        self.times.set(self.times.get().wrapping_add(1));
        self.last.set(nth);
    }
}

fn new_gate() -> CountingGate {
    CountingGate {
        times: Cell::new(0),
        last: Cell::new(0),
    }
}

/// The six maps of steering, for a lookup table of seven slots.
fn opened<R: Abort>(rt: &R, alloc: Global, row: &Row<'_>) -> Opened {
    let mut code = Vec::new(alloc);
    code.push(Insn::Exit).expect(rt, "code");
    let maps = maps(alloc, 7).expect(rt, "maps");
    let image = Image::of(Version::V1, maps, code).expect(rt, "an image");
    let options = Options {
        workers: 1,
        shards: row.shards,
        journal: row.journal,
    };
    Opened::open(alloc, &image, options).expect(rt, "shards")
}

/// A script over new shards, or this many rounds of the reclaimer: the number of each command's fault (0: none), for how many answers the
/// gate was called, and how many entries each shard's journal has.
#[derive(Clone, Copy)]
struct Row<'a> {
    name: &'a str,
    shards: u32,
    journal: u32,
    text: &'a str,
    rounds: usize,
    faults: &'a [u8],
    gate_calls: u64,
    lengths: &'a [usize],
}

/// One shard for each map, with room for 16 entries.
const SMALL: Row<'static> = Row {
    name: "",
    shards: 1,
    journal: 16,
    text: "",
    rounds: 0,
    faults: &[],
    gate_calls: 0,
    lengths: &[],
};

fn faults_are(noted: &[Applied], want: &[u8]) -> bool {
    noted
        .iter()
        .map(|one| match one.fault {
            Some(fault) => fault.number(),
            None => 0,
        })
        .eq(want.iter().copied())
}

fn length_of(journals: &Journals, number: usize) -> usize {
    if number < journals.count() {
        journals.len(number)
    } else {
        0
    }
}

fn lengths_are(journals: &Journals, want: &[usize]) -> bool {
    (0..journals.count())
        .map(|number| length_of(journals, number))
        .eq(want.iter().copied())
}

/// Closes the shards, and compares how many entries each journal has.
fn close<B: Naming, R: Abort + Wait>(
    rt: &R,
    alloc: Global,
    shards: Shards<B>,
    pass: Pass<B>,
    row: &Row<'_>,
) {
    let mut passes = Vec::with_capacity(alloc, 1).expect(rt, "a list");
    passes.push(pass).expect(rt, "room");
    let journals = shards.close(rt, passes);
    let are_so = lengths_are(&journals, row.lengths);
    holds_of(rt, row.name, "the lengths of the journals", are_so);
}

/// Applies the row's script, and compares.
fn applied<B: Naming, R: Abort + Wait>(
    rt: &R,
    alloc: Global,
    opened: Opened,
    row: &Row<'_>,
) -> Result<(), Fail>
    requires { IsNamed B.count B.table B.plan B.order opened }
{
    let (shards, mut dealer) = opened.share::<B>(alloc).expect(rt, "shared shards");
    let pass = dealer.pass(alloc, Caller::Controller)?;
    let script = parse_script(alloc, row.text.as_bytes()).expect(rt, "a script");
    let gate = new_gate();
    let size = table_size(shards.maps());
    holds_of(rt, row.name, "the size of the table", size.is_some());
    let Some(size) = size else {
        return Ok(());
    };
    let pass = match set_first(rt, &shards, pass, &gate, &[]) {
        Ok(pass) => pass,
        Err(_) => {
            holds_of(rt, row.name, "no update", false);
            return Ok(());
        }
    };
    let mut commander = Commander::over(
        alloc,
        rt,
        &shards,
        pass,
        &gate,
        &[],
        script.commands(),
        size,
    );
    for number in 0..script.commands().len() {
        if number < commander.script().len() {
            commander.apply(alloc, number).expect(rt, "a note");
        }
    }
    let (pass, noted) = commander.finish();
    holds_of(rt, row.name, "the faults", faults_are(&noted, row.faults));
    let called = (gate.times.get(), gate.last.get());
    same_fact(
        rt,
        row.name,
        "the replies",
        &called,
        &(row.gate_calls, row.gate_calls),
    );
    close(rt, alloc, shards, pass, row);
    Ok(())
}

/// The same over new shards.
fn applied_to_new<R: Abort + Wait>(rt: &R, alloc: Global, row: &Row<'_>) -> Result<(), Fail> {
    let opened = opened(rt, alloc, row);
    applied::<Brand, R>(rt, alloc, opened, row)
}

/// Slots 0, 2, 4 and 6 are one shard's, the odd ones the other's. A refused command asks nothing, and the gate is not called for it; later
/// ones go on. In the last row the third table meets a full journal at its third slot: the record and two slots remain, and every later
/// command is refused.
#[rattlefmt::skip]
const SCRIPTS: [Row<'static>; 4] = [
    Row {
        name: "up and down", text: "0 up 0 192.0.2.1\n0 down 0\n",
        faults: &[0, 0], gate_calls: 16, lengths: &[0, 0, 14, 2, 0, 0], ..SMALL
    },
    Row {
        name: "up and down over two shards", shards: 2, journal: 64, text: "0 up 1 192.0.2.1\n7 down 1\n",
        faults: &[0, 0], gate_calls: 16, lengths: &[0, 0, 0, 0, 8, 6, 0, 2, 0, 0, 0, 0], ..SMALL
    },
    Row {
        name: "refused commands",
        text: "0 down 3\n0 up 7 10.0.0.1\n0 gateway 10.0.0.9 02:00:00:00:00:0a 02:00:00:00:00:0b\n0 up 0 10.0.0.1\n0 up 0 10.0.0.1\n9 vip 203.0.113.1 80 udp\n",
        faults: &[91, 91, 0, 0, 92, 0], gate_calls: 10, lengths: &[1, 0, 7, 1, 1, 0], ..SMALL
    },
    Row {
        name: "a full journal", text: "0 up 0 192.0.2.1\n0 down 0\n0 up 0 192.0.2.1\n0 down 0\n0 vip 203.0.113.1 80 udp\n",
        faults: &[0, 0, 94, 94, 94], gate_calls: 19, lengths: &[0, 0, 16, 3, 0, 0], ..SMALL
    },
];

#[test]
fn scripts_are_applied(rt: HostRuntime) -> Result<(), Fail> {
    for row in &SCRIPTS {
        applied_to_new(&rt, rt.alloc(), row)?;
    }
    Ok(())
}

/// Makes the row's rounds, and compares for how many Reclaims the gate was called, and how many entries each shard's journal has.
fn reclaimed<B: Naming, R: Abort + Wait>(
    rt: &R,
    alloc: Global,
    opened: Opened,
    row: &Row<'_>,
) -> Result<(), Fail>
    requires { IsNamed B.count B.table B.plan B.order opened }
{
    let (shards, mut dealer) = opened.share::<B>(alloc).expect(rt, "shared shards");
    let pass = dealer.pass(alloc, Caller::Reclaimer)?;
    let gate = new_gate();
    let mut reclaiming = Reclaiming::over(rt, &shards, pass, &gate);
    for _ in 0..row.rounds {
        reclaiming.round();
    }
    let pass = reclaiming.finish();
    same_fact(
        rt,
        row.name,
        "the replies",
        &gate.times.get(),
        &row.gate_calls,
    );
    close(rt, alloc, shards, pass, row);
    Ok(())
}

/// The same over new shards.
fn reclaimed_in_new<R: Abort + Wait>(rt: &R, alloc: Global, row: &Row<'_>) -> Result<(), Fail> {
    let opened = opened(rt, alloc, row);
    reclaimed::<Brand, R>(rt, alloc, opened, row)
}

/// A hash and an LRU map are asked, once in each shard; the arrays are not.
#[rattlefmt::skip]
const ROUNDS: [Row<'static>; 2] = [
    Row {
        name: "three rounds over two shards", shards: 2, rounds: 3, gate_calls: 12, lengths: &[3, 3, 3, 3, 0, 0, 0, 0, 0, 0, 0, 0], ..SMALL
    },
    Row { name: "rounds over full journals", rounds: 20, gate_calls: 32, lengths: &[16, 16, 0, 0, 0, 0], ..SMALL },
];

#[test]
fn rounds_reclaim(rt: HostRuntime) -> Result<(), Fail> {
    for row in &ROUNDS {
        reclaimed_in_new(&rt, rt.alloc(), row)?;
    }
    Ok(())
}

/// Queues of one worker, with this many jobs in the caller's, which is at this place, and then the end; and the right to take from it.
fn filled<R: Wait>(
    rt: &R,
    alloc: Global,
    who: Caller,
    place: usize,
    count: usize,
) -> Result<(Queues, TakePass), OpenFault>
    requires who { HasQueue 1 who }
    requires place { (place ≡ queue_of 1 who) × (place ≤ 2) }
    ensures take { IfOk result
        (λ filled. IsTakePassOf filled.0 filled.1 × (place_taken_from filled.1 ≡ place) × (jobs_taken filled.1 ≡ [])) }
    ensures jobs { IfOk result (λ filled. (workers_of filled.0 ≡ 1) × (command_count_of filled.0 ≡ count)) }
{
    let (queues, mut put, mut takes) = Queues::open(alloc, 1, count, count)?;
    let take = takes.remove(place);
    'puts: for number in 0..count {
        let job = match who {
            Caller::Worker { .. } => Job::Frame(number),
            Caller::Controller => Job::Command(number),
            Caller::Reclaimer => Job::Note,
        };
        queues.put_waiting(rt, who, job, &mut put);
    }
    queues.put_waiting(rt, who, Job::End, &mut put);
    Ok((queues, take))
}

/// A controller takes its jobs to the end.
fn taken_to_the_end<'a, B: Naming, R: Abort + Wait>(
    rt: &'a R,
    alloc: Global,
    queues: &Queues,
    take: TakePass,
    shards: &'a Shards<B>,
    pass: Pass<B>,
    commands: &'a [Command],
    size: u32,
) -> Result<ActorEnded<Commanded<B>>, ReplayFault>
    requires take { IsTakePassOf queues.now take × (jobs_taken take ≡ []) }
    requires jobs { IsForCommands commands.now queues.now (place_taken_from take) }
    requires who { pass.who ≡ TheController }
    requires unused { IsUnused pass }
    requires size { IsRingSize size }
    requires serves { ServesScript shards.now.maps size commands.now }
{
    let pass = match set_first(rt, shards, pass, &NoGate, &[]) {
        Ok(pass) => pass,
        Err(unset) => return Err(unset.fault),
    };
    let commander = Commander::over(alloc, rt, shards, pass, &NoGate, &[], commands, size);
    Ok(commander.until_end(rt, alloc, queues, take))
}

/// Hands the commands of the row's script over to the controller, lets it take them to the end, and compares.
fn commanded<B: Naming, R: Abort + Wait>(
    rt: &R,
    alloc: Global,
    opened: Opened,
    row: &Row<'_>,
) -> Result<(), Fail>
    requires { IsNamed B.count B.table B.plan B.order opened }
{
    let (shards, mut dealer) = opened.share::<B>(alloc).expect(rt, "shared shards");
    let pass = dealer.pass(alloc, Caller::Controller)?;
    let script = parse_script(alloc, row.text.as_bytes()).expect(rt, "a script");
    let size = table_size(shards.maps());
    holds_of(rt, row.name, "the size of the table", size.is_some());
    let Some(size) = size else {
        return Ok(());
    };
    let count = script.commands().len();
    let (queues, take) = filled(rt, alloc, Caller::Controller, 1, count)?;
    let ended = taken_to_the_end(
        rt,
        alloc,
        &queues,
        take,
        &shards,
        pass,
        script.commands(),
        size,
    );
    let ActorEnded {
        given,
        is_refused,
        ..
    } = ended.expect(rt, "an end");
    let Commanded { pass, noted } = given;
    let are_so = !is_refused && faults_are(&noted, row.faults);
    holds_of(
        rt,
        row.name,
        "the faults, with memory for each note",
        are_so,
    );
    close(rt, alloc, shards, pass, row);
    Ok(())
}

#[test]
fn commands_until_their_end(rt: HostRuntime) -> Result<(), Fail> {
    let row = Row {
        name: "commands until their end",
        text: "0 vip 203.0.113.1 80 udp\n0 up 0 192.0.2.1\n1 down 9\n1 down 0\n",
        faults: &[0, 0, 91, 0],
        lengths: &[1, 0, 14, 2, 0, 0],
        ..SMALL
    };
    let opened = opened(&rt, rt.alloc(), &row);
    commanded::<Brand, HostRuntime>(&rt, rt.alloc(), opened, &row)
}

/// A reclaimer takes its jobs to the end, and gives its pass back.
fn rounds_taken<'a, B: Naming, R: Abort + Wait>(
    rt: &'a R,
    alloc: Global,
    queues: &Queues,
    take: TakePass,
    shards: &'a Shards<B>,
    pass: Pass<B>,
) -> Pass<B>
    requires take { IsTakePassOf queues.now take × (jobs_taken take ≡ []) }
    requires place { place_taken_from take ≡ workers_of queues.now + 1 }
    requires who { pass.who ≡ Reclaimer }
    requires unused { IsUnused pass }
{
    let reclaiming = Reclaiming::over(rt, shards, pass, &NoGate);
    let ended = reclaiming.until_end(rt, alloc, queues, take);
    ended.given.finish()
}

/// Asks the reclaimer for the row's rounds, lets it make them to the end, and compares.
fn asked<B: Naming, R: Abort + Wait>(
    rt: &R,
    alloc: Global,
    opened: Opened,
    row: &Row<'_>,
) -> Result<(), Fail>
    requires { IsNamed B.count B.table B.plan B.order opened }
{
    let (shards, mut dealer) = opened.share::<B>(alloc).expect(rt, "shared shards");
    let pass = dealer.pass(alloc, Caller::Reclaimer)?;
    let (queues, take) = filled(rt, alloc, Caller::Reclaimer, 2, row.rounds)?;
    let pass = rounds_taken(rt, alloc, &queues, take, &shards, pass);
    close(rt, alloc, shards, pass, row);
    Ok(())
}

#[test]
fn rounds_until_their_end(rt: HostRuntime) -> Result<(), Fail> {
    let row = Row {
        name: "rounds until their end",
        rounds: 4,
        lengths: &[4, 4, 0, 0, 0, 0],
        ..SMALL
    };
    let opened = opened(&rt, rt.alloc(), &row);
    asked::<Brand, HostRuntime>(&rt, rt.alloc(), opened, &row)
}
