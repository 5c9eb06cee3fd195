//! What takes jobs beside the workers: the controller and the reclaimer, each on a thread.

ghost use Rattle.std.specs.Prelude.{◌≡◌, false, [], IfSome};
ghost use Rattle.rx_queues.specs.Passes.{IsPutPassOf, IsTakePassOf, place_taken_from, jobs_taken, jobs_put};
ghost use Rattle.actors.specs.Actors.{HasEndLast, EndsOnce};
ghost use Rattle.actors.specs.Puts.{put_at};

use rx_queues::{PutPass, Queues, TakePass};
use std::alloc::Global;
use std::snapshot::Snapshot;
use std::sync::Wait;
use std::thread::{Promise, PromisedHandle, Scope, Threads};

/// What an actor's thread hands back: its right to take, what it made of its jobs, and whether it was refused memory.
#[derive(Drop)]
pub struct ActorEnded<E> {
    pub take: TakePass,
    pub given: E,
    pub is_refused: bool,
}

/// The controller or the reclaimer of a replay, on whichever thread: it takes the jobs of its queue until the end.
pub trait Actor<E: Drop> {
    ghost use Rattle.std.specs.Prelude.{ℕ, List, []};
    ghost use Rattle.rx_queues.specs.declared.job.Job.{Job as Work};
    ghost use Rattle.rx_queues.specs.declared.passes.Queues.{Queues as AllQueues};
    ghost use Rattle.rx_queues.specs.Passes.{IsTakePassOf, place_taken_from, jobs_taken};
    ghost use Rattle.actors.specs.Actors.{HasEndLast};

    /// What is known of it, and of the queue at the place from which it takes, before it begins.
    ghost is_ready: { Self → AllQueues → ℕ → Type 0 };

    /// What it hands back for these jobs.
    ghost gives: { Self → List Work → E → Type 0 };

    /// Takes the jobs of its queue until the end. Where it was refused memory, it takes the later jobs without doing them.
    fn until_end<R: Wait>(
        self,
        rt: &R,
        alloc: Global,
        queues: &Queues,
        take: TakePass,
    ) -> ActorEnded<E>
        requires take { IsTakePassOf queues.now take × (jobs_taken take ≡ []) }
        requires ready { is_ready self queues.now (place_taken_from take) }
        ensures take { IsTakePassOf queues.now result.take × (place_taken_from result.take ≡ place_taken_from take) }
        ensures ended { HasEndLast (jobs_taken result.take) }
        ensures given { (result.is_refused ≡ false) → gives self (jobs_taken result.take) result.given };
}

/// What an actor's thread is to do.
#[derive(Drop)]
pub struct Part<'a, C> {
    pub queues: &'a Queues,
    pub place: usize,
    pub actor: Snapshot<C>,
}

impl<'a, E: Drop, C: Actor<E>> Promise<ActorEnded<E>> for Part<'a, C> {
    ghost use Rattle.std.specs.Prelude.{◌≡◌, false};
    ghost use Rattle.rx_queues.specs.Passes.{IsTakePassOf, place_taken_from, jobs_taken};
    ghost use Rattle.actors.specs.Actors.{HasEndLast};

    ghost kept_by = { λ part ended. IsTakePassOf part.queues.now ended.take × (place_taken_from ended.take ≡ part.place)
        × HasEndLast (jobs_taken ended.take)
        × ((ended.is_refused ≡ false) → C.gives part.actor.value (jobs_taken ended.take) ended.given) };
}

/// The thread of an actor, and what it promises.
pub type ActorThread<'a, E, C> = PromisedHandle<ActorEnded<E>, Part<'a, C>>;

/// Starts an actor on the queue at a place. None where no thread can be made.
pub fn start_actor<'s, X, E: Drop + Send + 's, C: Actor<E> + Drop + Send + 's, R: Wait + Sync>(
    scope: &Scope<'s, X>,
    rt: &'s R,
    alloc: Global,
    queues: &'s Queues,
    actor: C,
    place: usize,
    take: TakePass,
) -> Option<ActorThread<'s, E, C>>
    requires take { IsTakePassOf queues.now take × (place_taken_from take ≡ place) × (jobs_taken take ≡ []) }
    requires ready { C.is_ready actor queues.now (place_taken_from take) }
    ensures { IfSome result (λ thread. (thread.promise.queues.now ≡ queues.now) × (thread.promise.place ≡ place) ×
        (thread.promise.actor.value ≡ actor)) }
{
    let part = Part {
        queues,
        place,
        actor: Snapshot::of(&actor),
    };
    scope
        .spawn_with(
            part,
            move || -> ActorEnded<E>
                requires take { IsTakePassOf queues.now take × (jobs_taken take ≡ []) }
                requires ready { C.is_ready actor queues.now (place_taken_from take) }
                ensures take { IsTakePassOf queues.entry.now result.take × (place_taken_from result.take ≡ place_taken_from take) }
                ensures ended { HasEndLast (jobs_taken result.take) }
                ensures given { (result.is_refused ≡ false) → C.gives actor (jobs_taken result.take) result.given }
            { actor.until_end(rt, alloc, queues, take) },
        )
        .ok()
}

/// Joins an actor, and holds what it took against what was put for it. None where it was refused memory.
pub fn settled_actor<E: Drop, C: Actor<E>, R: Threads + Wait>(
    rt: &R,
    queues: &Queues,
    put: &mut PutPass,
    thread: ActorThread<E, C>,
) -> Option<E>
    requires queues { thread.promise.queues.now ≡ queues.now }
    requires put { IsPutPassOf queues.now put.old }
    requires ends { EndsOnce (put_at (jobs_put put.old) thread.promise.place) }
    ensures put { IsPutPassOf queues.now put.new × (jobs_put put.new ≡ jobs_put put.old) }
    ensures given { IfSome result (λ given. C.gives thread.entry.promise.actor.value (put_at (jobs_put put.old)
        thread.entry.promise.place) given) }
{
    let ActorEnded {
        take,
        given,
        is_refused,
    } = thread.join(rt);
    queues.settle(put, take);
    if is_refused {
        return None;
    }
    Some(given)
}
