//! The reclaimer of a replay: a round of Reclaims for each note of its queue until the end, and the last one behind all that the others do.

ghost use Rattle.std.specs.Prelude.{◌≡◌, ◌<◌, ◌+◌, ◌∷◌, ◌++◌, [], ℕ};
ghost use Rattle.rx_queues.specs.Passes.{IsTakePassOf, jobs_taken, place_taken_from, workers_of};
ghost use Rattle.semantics.specs.declared.call.Caller.TheVariants.{Reclaimer};
ghost use Rattle.shards.specs.Passes.{IsElsewhereSame};
ghost use Rattle.shards.specs.Deeds.{deeds_of, AreFirst};
ghost use Rattle.shards.specs.declared.deeds.OrderPart.TheVariants.{ByCaller};
ghost use Rattle.actors.specs.ActorJobs.{AreRoundsMade, round_job};
ghost use Rattle.actors.specs.Actors.{HasEndLast, IsUnused};
ghost use Rattle.actors.specs.Rounds.{AreReclaimed, HasMadeRound, IsReclaimedAt, IsReclaimAsked, HasAsked, HasTurned};
ghost use Rattle.semantics.specs.Replay.{is_keyed};

use crate::actor::{Actor, ActorEnded};
use ebpf_decode::MapKind;
use rx_queues::{Job, Queues, TakePass};
use semantics::Caller;
use shard_port::{Gate, Tally};
use shards::{First, Naming, Pass, Shards};
use std::alloc::Global;
use std::marker::Model;
use std::sync::Wait;

/// The reclaimer of a replay: in each round it asks every hash and LRU shard once to free the retired cells that no run can hold.
/// Contracts see the maps, the options and the reclaimer's pass.
#[derive(Drop)]
pub struct Reclaiming<'a, B: Naming, W: Wait, G: Gate> {
    rt: &'a W,
    shards: &'a Shards<B>,
    pass: Pass<B>,
    tally: Tally<'a, G>,
}

impl<'a, B: Naming, W: Wait, G: Gate> Model for Reclaiming<'a, B, W, G> {
    ghost use Rattle.shards.specs.Passes.{PassView};
    ghost use Rattle.actors.specs.Rounds.{IsReclaimersPort};

    ghost Value = { PassView };

    ghost view = { λ r. r.pass };

    ghost invariant = { λ r. IsReclaimersPort B.count B.plan r.shards.now.maps r.shards.now.options r.pass };
}

impl<'a, B: Naming, W: Wait, G: Gate> Reclaiming<'a, B, W, G> {
    /// The reclaimer with its pass. Each reply goes through the gate.
    pub fn over(
        rt: &'a W,
        shards: &'a Shards<B>,
        pass: Pass<B>,
        gate: &'a G,
    ) -> Reclaiming<'a, B, W, G>
        requires { pass.who ≡ Reclaimer }
        ensures { result ≡ pass }
    {
        shards.planned();
        Reclaiming {
            rt,
            shards,
            pass,
            tally: Tally::new(gate, Caller::Reclaimer, 0),
        }
    }

    /// Gives the pass back.
    pub fn finish(self) -> Pass<B>
        ensures pass { result ≡ self.entry }
        ensures who { result.who ≡ Reclaimer }
    {
        let Reclaiming { pass, .. } = self;
        pass
    }

    /// The last round, behind all that was done so far, with which the one order of all deeds begins; this begins with what was known to come
    /// first. Gives the pass back.
    pub fn last_round(mut self, earlier: First<B>) -> (First<B>, Pass<B>)
        ensures later { AreFirst earlier result.0 }
        ensures last { HasMadeRound B.plan B.count (deeds_of (ByCaller Reclaimer) result.0) result.1.deeds }
        ensures rounds { (rounds : ℕ) → AreReclaimed B.plan B.count rounds self.entry → AreReclaimed B.plan B.count (rounds + 1) result.1 }
        ensures who { result.1.who ≡ Reclaimer }
    {
        let so_far = self.shards.so_far(&mut self.pass, earlier);
        self.round();
        (so_far, self.finish())
    }

    /// One round, from the lowest shard up: each hash and LRU shard is asked once. A Reclaim that a full journal refuses is passed over.
    pub fn round(&mut self)
        ensures rounds { (rounds : ℕ) → AreReclaimed B.plan B.count rounds self.old → AreReclaimed B.plan B.count (rounds + 1) self.new }
        ensures did { HasMadeRound B.plan B.count self.old.deeds self.new.deeds }
    {
        'shards: for number in 0..self.shards.count() as u32 {
            self.turn(number);
        }
    }

    /// A shard's part of a round.
    fn turn(&mut self, number: u32)
        requires { number < B.count }
        ensures others { IsElsewhereSame number self.old self.new }
        ensures here { (rounds : ℕ) → IsReclaimedAt B.plan rounds self.old number → IsReclaimedAt B.plan (rounds + 1) self.new number }
        ensures did { HasTurned (is_keyed (B.plan number).definition.kind) number self.old self.new }
    {
        if self.is_keyed(number) {
            self.reclaim(number);
        }
    }

    /// Whether the shard's map is a hash or LRU map, in which cells are retired.
    fn is_keyed(&self, number: u32) -> bool
        requires { number < B.count }
        ensures keyed { result ≡ is_keyed (B.plan number).definition.kind }
        ensures who { self.now.who ≡ Reclaimer }
    {
        let place = number / self.shards.options().shards;
        is_keyed(self.shards.maps()[place as usize].kind)
    }

    /// One Reclaim.
    fn reclaim(&mut self, number: u32)
        requires { number < B.count }
        ensures others { IsElsewhereSame number self.old self.new }
        ensures here { IsReclaimAsked (B.plan number) number self.old self.new }
        ensures did { HasAsked number self.old self.new }
    {
        match self.shards.reclaim(self.rt, &mut self.pass, number) {
            Ok(_freed) => self.tally.replied(),
            Err(_full) => {}
        }
    }
}

/// Whether cells of a map of this kind are retired.
pub fn is_keyed(kind: MapKind) -> bool
    ensures { result ≡ is_keyed kind }
{
    match kind {
        MapKind::Array => false,
        MapKind::Hash => true,
        MapKind::LruHash => true,
    }
}

impl<'a, B: Naming, W: Wait, G: Gate> Actor<Reclaiming<'a, B, W, G>> for Reclaiming<'a, B, W, G> {
    ghost use Rattle.std.specs.Prelude.{◌≡◌, ◌+◌};
    ghost use Rattle.rx_queues.specs.Passes.{workers_of};
    ghost use Rattle.actors.specs.Actors.{IsUnused};
    ghost use Rattle.actors.specs.ActorJobs.{AreRoundsMade};

    ghost is_ready = { λ actor queues place. IsUnused actor × (place ≡ workers_of queues + 1) };

    ghost gives = { λ actor jobs given. AreRoundsMade B.plan B.count jobs given };

    fn until_end<R: Wait>(
        self,
        rt: &R,
        alloc: Global,
        queues: &Queues,
        take: TakePass,
    ) -> ActorEnded<Reclaiming<'a, B, W, G>> {
        let _ = alloc;
        rounds_until_end(rt, queues, take, self)
    }
}

/// Makes a round for each note that the reclaimer is handed, until the end. Waits while the queue is empty.
fn rounds_until_end<'a, B: Naming, W: Wait, G: Gate, R: Wait>(
    rt: &R,
    queues: &Queues,
    mut take: TakePass,
    mut reclaiming: Reclaiming<'a, B, W, G>,
) -> ActorEnded<Reclaiming<'a, B, W, G>>
    requires take { IsTakePassOf queues.now take × (jobs_taken take ≡ []) }
    requires unused { IsUnused reclaiming }
    requires notes { place_taken_from take ≡ workers_of queues.now + 1 }
    ensures take { IsTakePassOf queues.now result.take × (place_taken_from result.take ≡ place_taken_from take) }
    ensures ended { HasEndLast (jobs_taken result.take) }
    ensures rounds { AreRoundsMade B.plan B.count (jobs_taken result.take) result.given }
{
    'jobs: for _ in rt.forever() {
        if !next_note(rt, queues, &mut take) {
            break;
        }
        reclaiming.round();
    }
    ActorEnded {
        take,
        given: reclaiming,
        is_refused: false,
    }
}

/// Whether a note comes next, and not the end.
fn next_note<W: Wait>(rt: &W, queues: &Queues, take: &mut TakePass) -> bool
    requires take { IsTakePassOf queues.now take.old }
    requires of_reclaimer { place_taken_from take.old ≡ workers_of queues.now + 1 }
    ensures take { IsTakePassOf queues.now take.new × (place_taken_from take.new ≡ place_taken_from take.old) }
    ensures taken { jobs_taken take.new ≡ jobs_taken take.old ++ round_job result ∷ [] }
{
    match queues.take_waiting(rt, take) {
        Job::Note => true,
        Job::End => false,
        Job::Frame(_) => unreachable!(),
        Job::Command(_) => unreachable!(),
    }
}
