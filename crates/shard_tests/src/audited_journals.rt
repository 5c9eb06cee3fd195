//! Short journals that are legal, and others with one entry that is not.

ghost use Rattle.std.specs.Prelude.{IfOk};
ghost use Rattle.semantics.specs.ShardPlan.{KeepsRows};

use crate::asserting::same;
use audit::{AuditFault, audit};
use ebpf_decode::{MapDef, MapKind};
use journals::{EntryList, Journals};
use semantics::{Call, Caller, CellRef, Entry, Options, Reply};
use std::alloc::Global;
use std::process::Abort;
use std::test::Fail;

fn entry(worker: u8, call: Call, reply: Reply) -> Entry {
    let who = Caller::Worker { number: worker };
    Entry { who, call, reply }
}

/// Two workers enter, and one may load from a cell that it did not look up.
fn entries_of<R: Abort>(rt: &R, alloc: Global, is_loaded: bool) -> EntryList {
    let shard = 0;
    let mut entries = EntryList::new(alloc);
    entries
        .push(&entry(1, Call::Enter { shard }, Reply::Entered))
        .expect(rt, "room");
    entries
        .push(&entry(0, Call::Enter { shard }, Reply::Entered))
        .expect(rt, "room");
    if is_loaded {
        let load = Call::Load {
            cell: CellRef { shard, id: 0 },
            offset: 0,
            size: 8,
        };
        entries
            .push(&entry(1, load, Reply::Word { value: 0 }))
            .expect(rt, "room");
    }
    entries
}

/// The journals of one array of one value, with these entries.
fn journals<R: Abort>(rt: &R, alloc: Global, is_loaded: bool) -> Result<Journals, Fail>
    ensures { IfOk result (λ journals. KeepsRows journals.options.journal) }
{
    let mut maps = Vec::new(alloc);
    maps.push(MapDef {
        kind: MapKind::Array,
        key_size: 4,
        value_size: 8,
        max_entries: 1,
    })?;
    let options = Options {
        workers: 2,
        shards: 1,
        journal: 16,
    };
    let mut lists = Vec::new(alloc);
    lists.push(entries_of(rt, alloc, is_loaded))?;
    Ok(Journals::listed(maps, options, lists))
}

/// What the audit says of these journals.
fn audited<R: Abort>(
    rt: &R,
    alloc: Global,
    is_loaded: bool,
) -> Result<Result<(), AuditFault>, Fail> {
    let journals = journals(rt, alloc, is_loaded)?;
    Ok(audit(alloc, &journals))
}

#[test]
fn first_illegal_entries(rt: HostRuntime) -> Result<(), Fail> {
    let wanted = Err(AuditFault::Illegal { shard: 0, place: 2 });
    same(
        &rt,
        "two runs enter",
        &audited(&rt, rt.alloc(), false)?,
        &Ok(()),
    );
    same(
        &rt,
        "a Load of no cell",
        &audited(&rt, rt.alloc(), true)?,
        &wanted,
    );
    Ok(())
}
