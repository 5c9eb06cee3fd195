//! A caller that knows what its passes have seen, by the contracts alone.

ghost use Rattle.std.specs.Prelude.{◌≡◌, ◌<◌, ◌∷◌, ℕ, [], IfOk, length};
ghost use Rattle.semantics.specs.declared.call.Caller.TheVariants.{Controller, Reclaimer, Worker};
ghost use Rattle.journals.specs.JournalsView.{entries_at};
ghost use Rattle.shards.specs.CallerView.{nothing_seen};
ghost use Rattle.shards.specs.NewShards.{IsNamed};
ghost use Rattle.shards.specs.Passes.{own_at, view_at};
ghost use Rattle.worked_examples.specs.TwoWorkers.{one_element, for_two, its_plan, HasFoundAndLoaded, AreBothDone, AreTheFour};

use crate::asserting::{holds, same};
use crate::maps::in_turn::entries_of;
use ebpf_decode::{Image, Insn, MapDef, MapKind, Version};
use journal::CellRange;
use journals::Journals;
use semantics::{Caller, JournalFull, Options};
use shards::laws::all_entries_are_somebodys;
use shards::{Naming, Opened, Pass, Shards};
use std::alloc::{AllocError, Global};
use std::marker::Brand;
use std::process::Abort;
use std::sync::Wait;
use std::test::Fail;

/// The shards are the one that is spoken of.
fn planned<B: Naming>(shards: &Shards<B>)
    requires maps { shards.now.maps ≡ one_element ∷ [] }
    requires options { shards.now.options ≡ for_two }
    ensures count { 0 < B.count }
    ensures plan { B.plan 0 ≡ its_plan }
{
    shards.planned();
}

/// Worker 0 enters, finds index 0 and loads what is there: its pass knows these three entries as its own, and has seen the history up
/// to the Load, whatever others do. The number that it loads, if the journal has room.
fn enter_find_load<B: Naming>(
    rt: &impl Wait,
    shards: &Shards<B>,
    pass: &mut Pass<B>,
) -> Result<u64, JournalFull>
    requires maps { shards.now.maps ≡ one_element ∷ [] }
    requires options { shards.now.options ≡ for_two }
    requires who { pass.old.who ≡ Worker 0 }
    requires nothing { view_at pass.old 0 ≡ nothing_seen }
    ensures who { pass.new.who ≡ Worker 0 }
    ensures loaded { IfOk result (λ word. HasFoundAndLoaded (view_at pass.new 0) word) }
{
    planned(shards);
    shards.enter(rt, pass, 0)?;
    let Some(cell) = shards.lookup(rt, pass, 0, &[0; 4])? else {
        unreachable!()
    };
    let range = CellRange {
        cell,
        offset: 0,
        size: 8,
    };
    shards.load(rt, pass, 0, &range)
}

/// Worker 1 enters before worker 0 leaves: what worker 0's pass knows is then as it was, and after its Leave it knows a fourth entry of its
/// own and has seen the history up to the Leave.
fn two_workers<B: Naming>(
    rt: &impl Wait,
    shards: &Shards<B>,
    first: &mut Pass<B>,
    second: &mut Pass<B>,
) -> Result<u64, JournalFull>
    requires maps { shards.now.maps ≡ one_element ∷ [] }
    requires options { shards.now.options ≡ for_two }
    requires first { (first.old.who ≡ Worker 0) × (view_at first.old 0 ≡ nothing_seen) }
    requires second { (second.old.who ≡ Worker 1) × (view_at second.old 0 ≡ nothing_seen) }
    ensures who { (first.new.who ≡ Worker 0) × (second.new.who ≡ Worker 1) }
    ensures row { IfOk result (λ word. AreBothDone (view_at first.new 0) (view_at second.new 0) word) }
{
    let word = enter_find_load(rt, shards, first)?;
    planned(shards);
    shards.enter(rt, second, 0)?;
    shards.leave(rt, first, 0);
    Ok(word)
}

/// The passes of all callers, by their places.
fn all_four<B: Naming>(
    alloc: Global,
    controller: Pass<B>,
    reclaimer: Pass<B>,
    first: Pass<B>,
    second: Pass<B>,
) -> Result<Vec<Pass<B>>, AllocError>
    requires controller { (controller.who ≡ Controller) × (own_at controller 0 ≡ []) }
    requires reclaimer { (reclaimer.who ≡ Reclaimer) × (own_at reclaimer 0 ≡ []) }
    requires first { (first.who ≡ Worker 0) × (length (own_at first 0) ≡ 4) }
    requires second { (second.who ≡ Worker 1) × (length (own_at second 0) ≡ 1) }
    ensures { IfOk result (λ passes. AreTheFour passes.items) }
{
    let mut passes = Vec::with_capacity(alloc, 4)?;
    passes.push_reserved(controller);
    passes.push_reserved(reclaimer);
    passes.push_reserved(first);
    passes.push_reserved(second);
    Ok(passes)
}

/// The journal, when the shards are closed: five entries, since each is of one of the four callers.
fn closed<B: Naming>(rt: &impl Wait, shards: Shards<B>, passes: Vec<Pass<B>>) -> Journals
    requires maps { shards.maps ≡ one_element ∷ [] }
    requires options { shards.options ≡ for_two }
    requires passes { AreTheFour passes.items }
    ensures { length (entries_at result 0) ≡ 5 }
{
    planned(&shards);
    all_entries_are_somebodys();
    shards.close(rt, passes)
}

/// The shard of one array of one element.
fn opened<R: Abort>(rt: &R, alloc: Global) -> Result<Opened, Fail>
    ensures maps { IfOk result (λ opened. opened.maps ≡ one_element ∷ []) }
    ensures options { IfOk result (λ opened. opened.options ≡ for_two) }
{
    let mut maps = Vec::new(alloc);
    maps.push(MapDef {
        kind: MapKind::Array,
        key_size: 4,
        value_size: 8,
        max_entries: 1,
    })?;
    let mut code = Vec::new(alloc);
    code.push(Insn::Exit).expect(rt, "code");
    let image = Image::of(Version::V1, maps, code)?;
    let options = Options {
        workers: 2,
        shards: 1,
        journal: 16,
    };
    Ok(Opened::open(alloc, &image, options)?)
}

/// The row, from the opening on.
fn row<B: Naming, R: Abort + Wait>(rt: &R, alloc: Global, opened: Opened) -> Result<(), Fail>
    requires named { IsNamed B.count B.table B.plan B.order opened }
    requires maps { opened.maps ≡ one_element ∷ [] }
    requires options { opened.options ≡ for_two }
{
    let (shards, mut dealer) = opened.share::<B>(alloc)?;
    let controller = dealer.pass(alloc, Caller::Controller)?;
    let reclaimer = dealer.pass(alloc, Caller::Reclaimer)?;
    let mut first = dealer.pass(alloc, Caller::Worker { number: 0 })?;
    let mut second = dealer.pass(alloc, Caller::Worker { number: 1 })?;
    match two_workers(rt, &shards, &mut first, &mut second) {
        Ok(word) => {
            let passes = all_four(alloc, controller, reclaimer, first, second)?;
            let journals = closed(rt, shards, passes);
            same(rt, "the number that was loaded", &word, &0);
            same(rt, "how many entries", &entries_of(&journals), &5);
        }
        Err(_full) => holds(rt, "there is room", false),
    }
    Ok(())
}

#[test]
fn a_caller_knows_its_own_entries(rt: HostRuntime) -> Result<(), Fail> {
    let opened = opened(&rt, rt.alloc())?;
    row::<Brand, HostRuntime>(&rt, rt.alloc(), opened)
}
