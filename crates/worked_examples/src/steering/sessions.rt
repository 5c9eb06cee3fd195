//! Runs by a worker's pass over shards that a controller changes between them.

ghost use Rattle.std.specs.Prelude.{◌≡◌, ◌<◌, ℕ, IsTrue};
ghost use Rattle.shards.specs.NewShards.{IsNamed};
ghost use Rattle.shard_port.specs.PassPorts.{is_worker_below, worker_number};
ghost use Rattle.shard_port.specs.PassSessions.{IsOutsideAt};
ghost use Rattle.semantics.specs.declared.call.Caller.TheVariants.{Worker};

use crate::asserting::{holds, same, same_bytes};
use crate::frames::{DATAGRAM, part};
use crate::maps::in_turn::entries_of;
use conntrack::table_size;
use control::{Script, parse_script};
use disasm::assemble;
use journals::{Journals, write_journals};
use machine::{Exit, Moment, Stop};
use replay::{Commander, set_first};
use runs::run_frame;
use semantics::{Caller, Options, Verdict};
use shard_port::NoGate;
use shards::{Dealer, Naming, Opened, Pass, Shards};
use std::alloc::Global;
use std::marker::Brand;
use std::process::Abort;
use std::sync::Wait;
use steer::shipped;
use test_support::files::SERVICE;
use verifier::{Verified, verify};
use wire::{Frame, MemorySink};

const MOMENT: Moment = Moment {
    now_ns: 0,
    worker: 0,
};

/// The pass of worker 0, which is outside of all shards.
fn worker_pass<B: Naming>(rt: &impl Abort, alloc: Global, dealer: &mut Dealer<B>) -> Pass<B>
    ensures who { result.who ≡ Worker 0 }
    ensures outside { (number : ℕ) → number < B.count → IsOutsideAt (worker_number result.who) result number }
{
    let pass = dealer.pass(alloc, Caller::Worker { number: 0 });
    pass.expect(rt, "a pass")
}

/// Runs a program on a frame of these bytes, over the port of a worker's pass: how the run ended, and the frame that it left.
fn run_by<B: Naming, R: Abort + Wait>(
    rt: &R,
    alloc: Global,
    verified: &Verified,
    shards: &Shards<B>,
    pass: &mut Pass<B>,
    bytes: &[u8],
) -> (Result<Exit, Stop>, Frame)
    requires served { shards.now.maps ≡ verified.now.maps }
    requires worker { IsTrue (is_worker_below shards.now.options.workers pass.old.who) }
    requires outside { (number : ℕ) → number < B.count → IsOutsideAt (worker_number pass.old.who) pass.old number }
    ensures same_caller { pass.new.who ≡ pass.old.who }
    ensures outside { (number : ℕ) → number < B.count → IsOutsideAt (worker_number pass.old.who) pass.new number }
{
    let mut frame = Frame::of(alloc, bytes).expect(rt, "a frame");
    let mut replies = 0;
    let ended = run_frame(
        rt,
        verified,
        &mut frame,
        &MOMENT,
        shards,
        pass,
        &NoGate,
        &mut replies,
    );
    (ended, frame)
}

/// One shard for each map, with room for this many entries.
fn opened(rt: &impl Abort, alloc: Global, verified: &Verified, journal: u32) -> Opened
    ensures maps { result.maps ≡ verified.now.maps }
    ensures workers { result.options.workers ≡ 1 }
{
    let options = Options {
        workers: 1,
        shards: 1,
        journal,
    };
    Opened::open(alloc, verified.image(), options).expect(rt, "shards")
}

/// The journals when the shards are closed.
fn closed<B: Naming, R: Abort + Wait>(
    rt: &R,
    alloc: Global,
    shards: Shards<B>,
    pass: Pass<B>,
) -> Journals {
    let mut passes = Vec::with_capacity(alloc, 1).expect(rt, "a list");
    passes.push(pass).expect(rt, "room");
    shards.close(rt, passes)
}

/// A run of a program on 14 zeros: how it ended, and how many entries the first journal has.
fn ran_once<B: Naming, R: Abort + Wait>(
    rt: &R,
    alloc: Global,
    verified: &Verified,
    opened: Opened,
) -> (Result<Exit, Stop>, usize)
    requires named { IsNamed B.count B.table B.plan B.order opened }
    requires maps { opened.maps ≡ verified.now.maps }
    requires workers { opened.options.workers ≡ 1 }
{
    let (shards, mut dealer) = opened.share::<B>(alloc).expect(rt, "shared shards");
    let mut pass = worker_pass(rt, alloc, &mut dealer);
    let (ended, _frame) = run_by(rt, alloc, verified, &shards, &mut pass, &[0; 14]);
    let journals = closed(rt, alloc, shards, pass);
    (ended, entries_of(&journals))
}

/// The same of a program's text over new shards, with room for this many entries.
pub(crate) fn run_over_new_shards<R: Abort + Wait>(
    rt: &R,
    alloc: Global,
    text: &str,
    journal: u32,
) -> (Result<Exit, Stop>, usize) {
    let image = assemble(alloc, text).expect(rt, "an image");
    let verified = verify(alloc, image).expect(rt, "an accepted program");
    let opened = opened(rt, alloc, &verified, journal);
    ran_once::<Brand, R>(rt, alloc, &verified, opened)
}

/// The datagram is sent to the backend at 192.0.2.0 and this number.
fn goes_to<B: Naming, R: Abort + Wait>(
    rt: &R,
    alloc: Global,
    verified: &Verified,
    shards: &Shards<B>,
    pass: &mut Pass<B>,
    backend: u8,
)
    requires served { shards.now.maps ≡ verified.now.maps }
    requires worker { IsTrue (is_worker_below shards.now.options.workers pass.old.who) }
    requires outside { (number : ℕ) → number < B.count → IsOutsideAt (worker_number pass.old.who) pass.old number }
    ensures same_caller { pass.new.who ≡ pass.old.who }
    ensures outside { (number : ℕ) → number < B.count → IsOutsideAt (worker_number pass.old.who) pass.new number }
{
    let (ended, frame) = run_by(rt, alloc, verified, shards, pass, &DATAGRAM);
    let verdict = ended.map(|exit| exit.verdict);
    same(rt, "the verdict", &verdict, &Ok(Verdict::Tx));
    let target = part(frame.bytes(), 30, 34);
    same_bytes(rt, "the backend's address", target, &[192, 0, 2, backend]);
}

/// Applies the commands of these numbers.
fn applies<B: Naming, R: Wait>(
    rt: &impl Abort,
    alloc: Global,
    commander: &mut Commander<'_, B, R, NoGate>,
    from: usize,
    to: usize,
) {
    for number in from..to {
        if number < commander.script().len() {
            commander.apply(alloc, number).expect(rt, "a note");
        }
    }
}

/// What is asked of the flow in the third run, and all that follows it in its journal.
const NOTED_ANEW: &str = "1 w0 update c6336407cb0071019c40005011000000 0100000000000000 0 answer 0
1 w0 leave ok
";

/// The journals as a file have this part.
fn have(rt: &impl Abort, alloc: Global, journals: &Journals, part: &str) {
    let mut file = MemorySink::new(alloc);
    holds(rt, "rows", journals.keeps_rows());
    write_journals(alloc, &mut file, journals).expect(rt, "a file");
    let part = part.as_bytes();
    let has = !part.is_empty() && file.bytes().windows(part.len()).any(|found| found == part);
    holds(rt, "the flow's value", has);
}

/// The service's flow goes to backend 0, stays there when backend 1 comes up, and goes to that when backend 0 goes down.
fn steered<B: Naming, R: Abort + Wait>(
    rt: &R,
    alloc: Global,
    verified: &Verified,
    opened: Opened,
    script: &Script,
)
    requires named { IsNamed B.count B.table B.plan B.order opened }
    requires maps { opened.maps ≡ verified.now.maps }
    requires workers { opened.options.workers ≡ 1 }
{
    let (shards, mut dealer) = opened.share::<B>(alloc).expect(rt, "shared shards");
    let mut pass = worker_pass(rt, alloc, &mut dealer);
    let controller = dealer.pass(alloc, Caller::Controller);
    let controller = controller.expect(rt, "a pass");
    let size = table_size(shards.maps());
    holds(rt, "the maps of steering", size.is_some());
    let Some(size) = size else {
        return;
    };
    let controller = match set_first(rt, &shards, controller, &NoGate, &[]) {
        Ok(controller) => controller,
        Err(_) => {
            holds(rt, "no update", false);
            return;
        }
    };
    let mut commander = Commander::over(
        alloc,
        rt,
        &shards,
        controller,
        &NoGate,
        &[],
        script.commands(),
        size,
    );
    applies(rt, alloc, &mut commander, 0, 3);
    goes_to(rt, alloc, verified, &shards, &mut pass, 1);
    applies(rt, alloc, &mut commander, 3, 4);
    goes_to(rt, alloc, verified, &shards, &mut pass, 1);
    applies(rt, alloc, &mut commander, 4, 5);
    goes_to(rt, alloc, verified, &shards, &mut pass, 2);
    let (_controller, noted) = commander.finish();
    let are_made = noted.iter().all(|one| one.fault.is_none());
    holds(rt, "five commands are made", noted.len() == 5 && are_made);
    let journals = closed(rt, alloc, shards, pass);
    have(rt, alloc, &journals, NOTED_ANEW);
}

/// The same over new shards, with a script of five commands.
fn steered_over_new_shards<R: Abort + Wait>(
    rt: &R,
    alloc: Global,
    verified: &Verified,
    text: &str,
) {
    let opened = opened(rt, alloc, verified, 1024);
    let script = parse_script(alloc, text.as_bytes()).expect(rt, "a script");
    steered::<Brand, R>(rt, alloc, verified, opened, &script);
}

#[test]
fn a_flow_keeps_its_backend_while_that_is_up(rt: HostRuntime) {
    let alloc = rt.alloc();
    let image = shipped(alloc, 251).expect(&rt, "an image");
    let verified = verify(alloc, image).expect(&rt, "an accepted program");
    let text = format!(in alloc; "{SERVICE}0 up 1 192.0.2.2\n0 down 0\n").expect(&rt, "a script");
    steered_over_new_shards(&rt, alloc, &verified, &text);
}
