//! A frame, what the maps hold when it comes, and what distinguishes a run on it from the rule.

ghost use Rattle.std.specs.Prelude.{◌≡◌};
ghost use Rattle.semantics.specs.ShardPlan.{AreOptions};
ghost use Rattle.shard_port.specs.PortView.{ServesMaps};
ghost use Rattle.replay_tests.specs.SessionOptions.{session_options};

use super::asked::AllAsked;
use super::endings::Ending;
use super::frames::Drawn;
use super::numbers::Numbers;
use super::sessions::{put_session, run_session};
use super::worlds::{Keys, World};
use crate::asserting::holds_of;
use conntrack::{Choice, SteeringMap, choose, index_key, steer};
use isa::AtomicOp;
use semantics::{Call, CellRef, Key, Value};
use shards::PlainShards;
use std::alloc::Global;
use std::process::Abort;
use std::test::Fail;
use verifier::Verified;
use wire::{FlowKey, Frame, flow_of};

/// In what a run differs from the rule.
#[derive(Clone, Copy, Debug, PartialEq, Eq)]
pub(super) enum Difference {
    Verdict,
    /// The frame that it leaves.
    Frame,
    /// What it notes for the flow.
    Note,
    /// What it counts.
    Count,
    /// It changes a map that is only read.
    Change,
    /// How many calls it makes.
    Calls,
}

/// A frame, and what the maps hold when it comes.
#[derive(Clone, Copy, Debug)]
pub(super) struct Case {
    world: World,
    drawn: Drawn,
}

impl Case {
    pub(super) fn of(numbers: &mut Numbers) -> Case {
        Case {
            world: World::of(numbers),
            drawn: Drawn::of(numbers),
        }
    }

    fn keys(&self) -> Keys {
        Keys::of(self.drawn.bytes())
    }

    fn flow(&self) -> Option<FlowKey> {
        flow_of(self.drawn.bytes())
    }

    fn choice(&self, frame: &Frame) -> Choice {
        choose(frame, &self.world.records(&self.keys()))
    }

    /// Where the rule ends.
    pub(super) fn ending(&self) -> Ending {
        let records = self.world.records(&self.keys());
        Ending::of(self.drawn.bytes(), &records)
    }

    /// Puts the records and runs the program on the frame: verdict and frame have to be those of the rule.
    pub(super) fn steering_difference(
        &self,
        rt: &impl Abort,
        alloc: Global,
        verified: &Verified,
        shards: &mut PlainShards,
    ) -> Result<Option<Difference>, Fail>
        requires options { AreOptions verified.now.maps session_options }
        requires shards { ServesMaps verified.now.maps session_options shards.old }
        ensures { ServesMaps verified.now.maps session_options shards.new }
    {
        let bytes = self.drawn.bytes();
        let mut frame = Frame::of(alloc, bytes)?;
        let mut wanted = Frame::of(alloc, bytes)?;
        let choice = steer(&mut wanted, &self.world.records(&self.keys()));
        let is_put = put_session(verified.image(), shards, &self.world, &self.keys());
        holds_of(rt, "a case", "the records", is_put == Ok(true));
        let exit = run_session(verified, shards, &mut frame).expect(rt, "an end");
        Ok(if exit.verdict != choice.verdict() {
            Some(Difference::Verdict)
        } else if frame.bytes() != wanted.bytes() {
            Some(Difference::Frame)
        } else {
            None
        })
    }

    /// What the run asked has to be what the rule says: the changes are these and no others, and this many calls are made in all.
    pub(super) fn calls_difference(
        &self,
        alloc: Global,
        asked: &AllAsked,
    ) -> Result<Option<Difference>, Fail> {
        let frame = Frame::of(alloc, self.drawn.bytes())?;
        let choice = self.choice(&frame);
        Ok(if !is_noted(asked, choice, self.flow().as_ref()) {
            Some(Difference::Note)
        } else if !is_counted(asked, choice) {
            Some(Difference::Count)
        } else if changes_more(asked) {
            Some(Difference::Change)
        } else if asked.calls() != self.ending().calls() {
            Some(Difference::Calls)
        } else {
            None
        })
    }
}

/// What the rule says of the flows: the Update that notes the backend.
fn note_of(choice: Choice, flow: Option<&FlowKey>) -> Option<Call> {
    let (key, value) = choice.flow_update(flow?)?;
    Some(Call::Update {
        shard: SteeringMap::Flows.place(),
        key: Key::of(&key)?,
        value: Value::of(&value)?,
        flags: 0,
    })
}

/// The run changed the flows as the rule says.
fn is_noted(asked: &AllAsked, choice: Choice, flow: Option<&FlowKey>) -> bool {
    let flows = asked.of_map(SteeringMap::Flows);
    let note = note_of(choice, flow);
    flows.changes == u64::from(note.is_some()) && flows.change == note
}

/// What the rule says of the counts: 1 is added in one step.
fn count_at(cell: CellRef) -> Call {
    Call::Atomic {
        cell,
        offset: 0,
        size: 8,
        op: u64::from(AtomicOp::AtomicAdd.code()),
        value: 1,
        expected: 0,
    }
}

/// The run changed the counts as the rule says: that of its verdict.
fn is_counted(asked: &AllAsked, choice: Choice) -> bool {
    let stats = asked.of_map(SteeringMap::Stats);
    stats.key == Key::of(&index_key(choice.counted()))
        && stats.found.is_some()
        && stats.change == stats.found.map(count_at)
        && stats.changes == 1
}

/// The maps that a run only reads.
const READ: [SteeringMap; 4] = [
    SteeringMap::Vips,
    SteeringMap::Ring,
    SteeringMap::Backends,
    SteeringMap::Ctl,
];

fn changes_more(asked: &AllAsked) -> bool {
    READ.iter().any(|map| asked.of_map(*map).changes > 0)
}
