//! Rows that call a port of a worker's pass, and the journals that they leave.

ghost use Rattle.std.specs.Prelude.{◌≡◌, ◌<◌, IsTrue, IfOk};
ghost use Rattle.shards.specs.NewShards.{IsNamed};
ghost use Rattle.shard_tests.specs.ExampleMaps.{example_maps};
ghost use Rattle.shard_port.specs.PassPorts.{is_worker_below};

use super::{
    ANSWERS, Entered, FIFTEEN_LOOKUPS, KEYS, Made, ONE_SHARD, ONE_SHARD_SAYS, Row, SECOND_IS_FULL,
    SIXTEEN_SAY, Says, TWO_SHARDS, TWO_SHARDS_SAY, answers, entry_of, example_image, key_of,
    options_of,
};
use crate::asserting::{holds, same};
use journals::Journals;
use map_port::MapPort;
use semantics::{Caller, CellRef, Entry, JournalFull, Reply};
use shard_port::port::ShardPort;
use shard_port::{NoGate, Tally};
use shards::{Naming, Opened, Pass, Shards};
use std::alloc::Global;
use std::marker::Brand;
use std::process::Abort;
use std::sync::Wait;
use std::test::Fail;

fn opened<R: Abort>(rt: &R, alloc: Global, journal: u32) -> Result<Opened, Fail>
    ensures maps { IfOk result (λ opened. opened.maps ≡ example_maps) }
    ensures workers { IfOk result (λ opened. opened.options.workers ≡ 2) }
{
    let image = example_image(rt, alloc)?;
    Ok(Opened::open(alloc, &image, options_of(journal))?)
}

/// A tally of worker 1, which calls no hook.
fn tally_of_worker() -> Tally<'static, NoGate> {
    Tally::new(&NoGate, Caller::Worker { number: 1 }, 0)
}

/// One run: the calls of the rows, up to the first that is refused.
fn run<B: Naming, R: Abort + Wait>(
    rt: &R,
    shards: &Shards<B>,
    pass: &mut Pass<B>,
    rows: &[Row],
) -> Option<JournalFull>
    requires maps { shards.now.maps ≡ example_maps }
    requires worker { IsTrue (is_worker_below shards.now.options.workers pass.old.who) }
{
    let mut port = ShardPort::over(rt, shards, pass, tally_of_worker());
    let refused = answers(rt, &mut port, rows);
    let _tally = port.finish();
    refused
}

/// An entry of a shard's journal; None past its end.
fn entry_at(journals: &Journals, number: u32, place: usize) -> Option<Entry> {
    if number as usize >= journals.count() || !journals.keeps_rows() {
        return None;
    }
    let journal = journals.journal(number as usize);
    if place < journal.len() {
        Some(journal.entry(place))
    } else {
        None
    }
}

/// Compares all entries of the journals, each as what worker 1 asked and what it was replied.
fn say(rt: &impl Abort, journals: &Journals, entries: &[Says]) {
    for (name, number, want) in entries {
        says(rt, journals, name, *number, want);
    }
}

/// Compares all entries of a shard's journal.
fn says(rt: &impl Abort, journals: &Journals, name: &str, number: u32, want: &[Entered]) {
    holds(rt, name, (number as usize) < journals.count());
    let mut place: usize = 0;
    for (times, made, reply) in want {
        for _ in 0..*times {
            let wanted = entry_of(number, *made, *reply);
            same(rt, name, &entry_at(journals, number, place), &Some(wanted));
            place = place.saturating_add(1);
        }
    }
    same(rt, name, &entry_at(journals, number, place), &None);
}

/// The journals when the shards are closed.
fn closed<B: Naming, R: Abort + Wait>(
    rt: &R,
    alloc: Global,
    shards: Shards<B>,
    pass: Pass<B>,
) -> Journals {
    let mut passes = Vec::with_capacity(alloc, 1).expect(rt, "a list");
    passes.push(pass).expect(rt, "room");
    shards.close(rt, passes)
}

/// One run of worker 1 with these rows: compares what it is refused, and returns the journals when it has ended.
fn session<B: Naming, R: Abort + Wait>(
    rt: &R,
    alloc: Global,
    opened: Opened,
    rows: &[Row],
    refused: Option<JournalFull>,
) -> Result<Journals, Fail>
    requires named { IsNamed B.count B.table B.plan B.order opened }
    requires maps { opened.maps ≡ example_maps }
    requires workers { opened.options.workers ≡ 2 }
{
    let (shards, mut dealer) = opened.share::<B>(alloc)?;
    let mut pass = dealer.pass(alloc, Caller::Worker { number: 1 })?;
    let found = run(rt, &shards, &mut pass, rows);
    same(rt, "what is refused", &found, &refused);
    Ok(closed(rt, alloc, shards, pass))
}

/// One run of worker 1 on new shards: compares what it is refused, and the entries that it leaves.
fn one_run<R: Abort + Wait>(
    rt: &R,
    alloc: Global,
    journal: u32,
    rows: &[Row],
    refused: Option<JournalFull>,
    entries: &[Says],
) -> Result<(), Fail> {
    let opened = opened(rt, alloc, journal)?;
    let journals = session::<Brand, R>(rt, alloc, opened, rows, refused)?;
    say(rt, &journals, entries);
    Ok(())
}

#[test]
fn one_session_in_one_shard(rt: HostRuntime) -> Result<(), Fail> {
    one_run(&rt, rt.alloc(), 64, &ONE_SHARD, None, &ONE_SHARD_SAYS)
}

#[test]
fn one_session_in_each_shard(rt: HostRuntime) -> Result<(), Fail> {
    one_run(&rt, rt.alloc(), 64, &TWO_SHARDS, None, &TWO_SHARDS_SAY)
}

/// With one run inside, the sixteenth entry is its Leave's: the fifteenth call is refused with the shard's number.
#[test]
fn last_entry_is_the_leave(rt: HostRuntime) -> Result<(), Fail> {
    one_run(
        &rt,
        rt.alloc(),
        16,
        &FIFTEEN_LOOKUPS,
        Some(SECOND_IS_FULL),
        &SIXTEEN_SAY,
    )
}

#[test]
fn answers_of_an_array(rt: HostRuntime) -> Result<(), Fail> {
    one_run(&rt, rt.alloc(), 64, &ANSWERS, None, &[])
}

#[test]
fn answers_of_a_hash_map(rt: HostRuntime) -> Result<(), Fail> {
    one_run(&rt, rt.alloc(), 64, &KEYS, None, &[])
}

/// One run that looks index 0 of the first map up.
fn look_once<B: Naming, R: Abort + Wait>(
    rt: &R,
    shards: &Shards<B>,
    pass: &mut Pass<B>,
) -> Result<u64, JournalFull>
    requires maps { shards.now.maps ≡ example_maps }
    requires worker { IsTrue (is_worker_below shards.now.options.workers pass.old.who) }
    ensures who { pass.new.who ≡ pass.old.who }
{
    let mut port = ShardPort::over(rt, shards, pass, tally_of_worker());
    let result = port.lookup(0, &key_of(0));
    let _tally = port.finish();
    result
}

/// Three runs of one lookup each, one after the other: what the last one's reply is.
fn look_three_times<B: Naming, R: Abort + Wait>(
    rt: &R,
    shards: &Shards<B>,
    pass: &mut Pass<B>,
) -> Result<u64, JournalFull>
    requires maps { shards.now.maps ≡ example_maps }
    requires worker { IsTrue (is_worker_below shards.now.options.workers pass.old.who) }
    ensures who { pass.new.who ≡ pass.old.who }
{
    let _ = look_once(rt, shards, pass);
    let _ = look_once(rt, shards, pass);
    look_once(rt, shards, pass)
}

/// Six runs of one lookup each, one after the other: compares what the last one's reply is, and returns the journals.
fn six<B: Naming, R: Abort + Wait>(rt: &R, alloc: Global, opened: Opened) -> Result<Journals, Fail>
    requires named { IsNamed B.count B.table B.plan B.order opened }
    requires maps { opened.maps ≡ example_maps }
    requires workers { opened.options.workers ≡ 2 }
{
    let (shards, mut dealer) = opened.share::<B>(alloc)?;
    let mut pass = dealer.pass(alloc, Caller::Worker { number: 1 })?;
    let _ = look_three_times(rt, &shards, &mut pass);
    let last = look_three_times(rt, &shards, &mut pass);
    same(rt, "the last run", &last, &Err(JournalFull { shard: 0 }));
    Ok(closed(rt, alloc, shards, pass))
}

/// Six runs on new shards, and what the first shard's journal says then.
fn six_runs<R: Abort + Wait>(
    rt: &R,
    alloc: Global,
    journal: u32,
    entries: &[Says],
) -> Result<(), Fail> {
    let opened = opened(rt, alloc, journal)?;
    let journals = six::<Brand, R>(rt, alloc, opened)?;
    say(rt, &journals, entries);
    Ok(())
}

const FOUND: Reply = Reply::Cell {
    cell: CellRef { shard: 0, id: 0 },
};

#[rattlefmt::skip]
const FIVE_RUNS: [Entered; 15] = [
    (1, Made::Enter, Reply::Entered), (1, Made::Look(0), FOUND), (1, Made::Leave, Reply::Left),
    (1, Made::Enter, Reply::Entered), (1, Made::Look(0), FOUND), (1, Made::Leave, Reply::Left),
    (1, Made::Enter, Reply::Entered), (1, Made::Look(0), FOUND), (1, Made::Leave, Reply::Left),
    (1, Made::Enter, Reply::Entered), (1, Made::Look(0), FOUND), (1, Made::Leave, Reply::Left),
    (1, Made::Enter, Reply::Entered), (1, Made::Look(0), FOUND), (1, Made::Leave, Reply::Left),
];

#[rattlefmt::skip]
const FIVE_RUNS_AND_ONE_WITHOUT_CALLS: [Entered; 17] = [
    (1, Made::Enter, Reply::Entered), (1, Made::Look(0), FOUND), (1, Made::Leave, Reply::Left),
    (1, Made::Enter, Reply::Entered), (1, Made::Look(0), FOUND), (1, Made::Leave, Reply::Left),
    (1, Made::Enter, Reply::Entered), (1, Made::Look(0), FOUND), (1, Made::Leave, Reply::Left),
    (1, Made::Enter, Reply::Entered), (1, Made::Look(0), FOUND), (1, Made::Leave, Reply::Left),
    (1, Made::Enter, Reply::Entered), (1, Made::Look(0), FOUND), (1, Made::Leave, Reply::Left),
    (1, Made::Enter, Reply::Entered),                            (1, Made::Leave, Reply::Left),
];

const FIVE_SAY: [Says; 1] = [("the first shard", 0, &FIVE_RUNS)];

const SIX_SAY: [Says; 1] = [("the first shard", 0, &FIVE_RUNS_AND_ONE_WITHOUT_CALLS)];

/// Each run has a session of its own. A sixth finds no room for its Enter in a journal of 16, and leaves nothing there.
#[test]
fn sessions_up_to_a_refused_enter(rt: HostRuntime) -> Result<(), Fail> {
    six_runs(&rt, rt.alloc(), 16, &FIVE_SAY)
}

/// In a journal of 17 it has room for the Enter but not for the call: the Enter remains, and its Leave.
#[test]
fn sessions_up_to_a_refused_call(rt: HostRuntime) -> Result<(), Fail> {
    six_runs(&rt, rt.alloc(), 17, &SIX_SAY)
}
