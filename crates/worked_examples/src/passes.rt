//! What a caller's pass knows, and a shard that is held.

mod holding;
mod two_workers;

ghost use Rattle.shards.specs.NewShards.{IsNamed};

use crate::asserting::same;
use crate::maps::in_turn::{Call, make, opened};
use ebpf_decode::MapKind;
use semantics::{Caller, CellRef, Reply};
use shards::{Naming, Opened, Pass, PassFault, Shards};
use std::alloc::Global;
use std::marker::Brand;
use std::process::Abort;
use std::sync::Wait;

const WORKER_0: Caller = Caller::Worker { number: 0 };

const WORKER_1: Caller = Caller::Worker { number: 1 };

const CELL: CellRef = CellRef { shard: 0, id: 0 };

/// Makes a call, and compares its reply, and whether its caller is inside then and holds the first cell.
fn knows<B: Naming, R: Abort + Wait>(
    rt: &R,
    shards: &Shards<B>,
    pass: &mut Pass<B>,
    call: Call,
    reply: Reply,
    is_inside: bool,
    holds_cell: bool,
) {
    crate::asserting::holds(rt, "there is a shard", 0 < shards.count());
    let told = make(rt, shards, pass, &call.of(0));
    same(rt, "the reply", &told, &Ok(reply));
    same(rt, "who is inside", &pass.is_inside(0), &is_inside);
    same(rt, "who holds the cell", &pass.holds(&CELL), &holds_cell);
}

fn asked<B: Naming, R: Abort + Wait>(rt: &R, alloc: Global, opened: Opened)
    requires { IsNamed B.count B.table B.plan B.order opened }
{
    let (shards, mut dealer) = opened.share::<B>(alloc).expect(rt, "shared shards");
    let mut first = dealer.pass(alloc, WORKER_0).expect(rt, "a pass");
    let again = dealer.pass(alloc, WORKER_0).err();
    same(rt, "a second pass", &again, &Some(PassFault::PassTaken));
    let mut second = dealer.pass(alloc, WORKER_1).expect(rt, "a pass");
    let entered = Reply::Entered;
    knows(rt, &shards, &mut first, Call::Enter, entered, true, false);
    let found = Reply::Cell { cell: CELL };
    let look = Call::Look { key: 0 };
    knows(rt, &shards, &mut first, look, found, true, true);
    let zero = Reply::Word { value: 0 };
    let load = Call::Load { id: 0 };
    knows(rt, &shards, &mut first, load, zero, true, true);
    knows(rt, &shards, &mut second, Call::Enter, entered, true, false);
    knows(rt, &shards, &mut first, load, zero, true, true);
    let left = Reply::Left;
    knows(rt, &shards, &mut first, Call::Leave, left, false, false);
    knows(rt, &shards, &mut first, Call::Enter, entered, true, false);
}

#[test]
fn a_worker_holds_what_it_found_until_it_leaves(rt: HostRuntime) {
    let opened = opened(&rt, rt.alloc(), MapKind::Array, 1);
    asked::<Brand, HostRuntime>(&rt, rt.alloc(), opened);
}
