//! All threads from their start to their end.

ghost use Rattle.std.specs.Prelude.{◌≡◌, ◌<◌, ◌≤◌, ◌+◌, ◌∷◌, ◌++◌, [], ℕ, length, vec_capacity, IfOk, IfErr, IfSome, IsNone};
ghost use Rattle.rx_queues.specs.declared.job.Job.TheVariants.{End};
ghost use Rattle.rx_queues.specs.Passes.{IsPutPassOf, IsTakePassOf, TakeAtTheirPlaces, AreTakePasses};
ghost use Rattle.rx_queues.specs.Passes.{place_taken_from, jobs_taken, workers_of, jobs_put};
ghost use Rattle.actors.specs.Actors.{HasNoEnd, EndsOnce, AreAllEnded, AreBothEnded};
ghost use Rattle.replay.specs.Settings.{IsReadyToRun, AreReadyToWork, HaveWorked, WereGivenUp, AreAllDone, WereAbandoned};
ghost use Rattle.actors.specs.Puts.{put_at};

use crate::crew::{Handled, abandon, finish_all, start_all};
use actors::actor::{Actor, ActorThread, settled_actor, start_actor};
use actors::dispatch::{Dispatch, end_all, end_both};
use actors::worker::Lane;
use actors::{ReplayFault, Runner};
use rx_queues::{PutPass, Queues, TakePass};
use std::alloc::{AllocError, Global};
use std::sync::Wait;
use std::thread;
use std::thread::{Scope, Threads};
use wire::Capture;

/// What all threads of a replay share. The queues are for as many records and commands as there are.
pub struct Setting<'x, W, R> {
    pub rt: &'x R,
    pub alloc: Global,
    pub queues: &'x Queues,
    pub capture: &'x Capture,
    /// Of each command, how many records are dispatched before it.
    pub starts: &'x [u32],
    /// How many commands were applied before the threads started.
    pub first: usize,
    pub runner: &'x W,
}

impl<'x, W, R> Copy for Setting<'x, W, R> {}

impl<'x, W, R> Clone for Setting<'x, W, R> {
    ghost is_clone = { λ it copy. copy ≡ it };

    ghost is_infallible = { λ _. Unit {0} };

    fn clone(&self) -> Result<Self, AllocError> {
        Ok(*self)
    }
}

/// What all workers did, and what the controller and the reclaimer handed back.
#[derive(Drop)]
pub struct AllEnded<S: Drop, E: Drop, F: Drop> {
    pub workers: Vec<Handled<S>>,
    pub controller: E,
    pub reclaimer: F,
}

/// Why the threads of a replay were given up, and the right to put with all that was put.
#[derive(Drop)]
pub struct Abandoned {
    pub fault: ReplayFault,
    pub put: PutPass,
}

/// The controller's and the reclaimer's rights to take, away from the workers'.
fn last_two(queues: &Queues, takes: &mut Vec<TakePass>, workers: usize) -> (TakePass, TakePass)
    requires workers { (workers_of queues.now ≡ workers) × (workers ≤ 8) }
    requires takes { AreTakePasses queues.now takes.old.items }
    ensures workers { (length takes.new.items ≡ workers) × TakeAtTheirPlaces queues.now takes.new.items }
    ensures controller { IsTakePassOf queues.now result.0 × (place_taken_from result.0 ≡ workers) × (jobs_taken result.0 ≡ []) }
    ensures reclaimer { IsTakePassOf queues.now result.1 × (place_taken_from result.1 ≡ workers + 1) × (jobs_taken result.1 ≡ []) }
{
    let _ = queues;
    let reclaimer = takes.remove(workers + 1);
    let controller = takes.remove(workers);
    (controller, reclaimer)
}

/// Starts the controller and the reclaimer. None where one of them can't be started; then both were asked to end, and none runs.
fn start_both<
    's,
    X,
    E: Drop + Send + 's,
    F: Drop + Send + 's,
    W,
    C: Actor<E> + Drop + Send + 's,
    D: Actor<F> + Drop + Send + 's,
    R: Threads + Wait + Sync,
>(
    scope: &Scope<'s, X>,
    setting: Setting<'s, W, R>,
    put: &mut PutPass,
    controller: C,
    reclaimer: D,
    workers: usize,
    takes: (TakePass, TakePass),
) -> Option<(ActorThread<'s, E, C>, ActorThread<'s, F, D>)>
    requires workers { workers ≤ 8 }
    requires put { IsPutPassOf setting.queues.now put.old }
    requires of_controller { IsTakePassOf setting.queues.now takes.0 × (place_taken_from takes.0 ≡ workers) × (jobs_taken takes.0 ≡ []) }
    requires of_reclaimer { IsTakePassOf setting.queues.now takes.1 × (place_taken_from takes.1 ≡ workers + 1) ×
        (jobs_taken takes.1 ≡ []) }
    requires ready { C.is_ready controller setting.queues.now (place_taken_from takes.0) ×
        D.is_ready reclaimer setting.queues.now (place_taken_from takes.1) }
    ensures put { IsPutPassOf setting.entry.queues.now put.new }
    ensures puts { IfSome result (λ both. jobs_put put.new ≡ jobs_put put.old) }
    ensures ended { IsNone result → AreBothEnded (workers_of setting.entry.queues.now) (jobs_put put.old) (jobs_put put.new) }
    ensures controller { IfSome result (λ both. (both.0.promise.queues.now ≡ setting.entry.queues.now) × (both.0.promise.place ≡ workers) ×
        (both.0.promise.actor.value ≡ controller)) }
    ensures reclaimer { IfSome result (λ both. (both.1.promise.queues.now ≡ setting.entry.queues.now) ×
        (both.1.promise.place ≡ workers + 1) × (both.1.promise.actor.value ≡ reclaimer)) }
{
    let Setting {
        rt,
        alloc,
        queues,
        ..
    } = setting;
    let (of_controller, of_reclaimer) = takes;
    let Some(commanding) = start_actor(scope, rt, alloc, queues, controller, workers, of_controller)
    else {
        end_both(rt, queues, put);
        return None;
    };
    match start_actor(
        scope,
        rt,
        alloc,
        queues,
        reclaimer,
        workers + 1,
        of_reclaimer,
    ) {
        Some(reclaiming) => Some((commanding, reclaiming)),
        None => {
            end_both(rt, queues, put);
            commanding.join(rt);
            None
        }
    }
}

/// Ends the controller and the reclaimer and joins them. Each is none where it was refused memory.
fn settle_both<E: Drop, F: Drop, C: Actor<E>, D: Actor<F>, R: Threads + Wait>(
    rt: &R,
    queues: &Queues,
    put: &mut PutPass,
    commanding: ActorThread<E, C>,
    reclaiming: ActorThread<F, D>,
) -> (Option<E>, Option<F>)
    requires put { IsPutPassOf queues.now put.old }
    requires controller { (commanding.promise.queues.now ≡ queues.now) × (commanding.promise.place ≡ workers_of queues.now) ×
        HasNoEnd (put_at (jobs_put put.old) (workers_of queues.now)) }
    requires reclaimer { (reclaiming.promise.queues.now ≡ queues.now) × (reclaiming.promise.place ≡ workers_of queues.now + 1) ×
        HasNoEnd (put_at (jobs_put put.old) (workers_of queues.now + 1)) }
    ensures controller { IfSome result.0 (C.gives commanding.entry.promise.actor.value (put_at (jobs_put put.old) (workers_of queues.now)
        ++ End ∷ [])) }
    ensures reclaimer { IfSome result.1 (D.gives reclaiming.entry.promise.actor.value (put_at (jobs_put put.old) (workers_of queues.now
        + 1) ++ End ∷ [])) }
    ensures ended { EndsOnce (put_at (jobs_put put.new) (workers_of queues.now)) ×
        EndsOnce (put_at (jobs_put put.new) (workers_of queues.now + 1)) }
    ensures others { (place : ℕ) → place < workers_of queues.now → put_at (jobs_put put.new) place ≡ put_at (jobs_put put.old) place }
{
    end_both(rt, queues, put);
    let of_controller = settled_actor(rt, queues, put, commanding);
    let of_reclaimer = settled_actor(rt, queues, put, reclaiming);
    (of_controller, of_reclaimer)
}

/// The same. None where one of them was refused memory.
fn close_both<E: Drop, F: Drop, C: Actor<E>, D: Actor<F>, R: Threads + Wait>(
    rt: &R,
    queues: &Queues,
    put: &mut PutPass,
    commanding: ActorThread<E, C>,
    reclaiming: ActorThread<F, D>,
) -> Option<(E, F)>
    requires put { IsPutPassOf queues.now put.old }
    requires controller { (commanding.promise.queues.now ≡ queues.now) × (commanding.promise.place ≡ workers_of queues.now) ×
        HasNoEnd (put_at (jobs_put put.old) (workers_of queues.now)) }
    requires reclaimer { (reclaiming.promise.queues.now ≡ queues.now) × (reclaiming.promise.place ≡ workers_of queues.now + 1) ×
        HasNoEnd (put_at (jobs_put put.old) (workers_of queues.now + 1)) }
    ensures controller { IfSome result (λ given. C.gives commanding.entry.promise.actor.value
        (put_at (jobs_put put.old) (workers_of queues.now) ++ End ∷ []) given.0) }
    ensures reclaimer { IfSome result (λ given. D.gives reclaiming.entry.promise.actor.value
        (put_at (jobs_put put.old) (workers_of queues.now + 1) ++ End ∷ []) given.1) }
    ensures ended { EndsOnce (put_at (jobs_put put.new) (workers_of queues.now)) ×
        EndsOnce (put_at (jobs_put put.new) (workers_of queues.now + 1)) }
    ensures others { (place : ℕ) → place < workers_of queues.now → put_at (jobs_put put.new) place ≡ put_at (jobs_put put.old) place }
{
    let (of_controller, of_reclaimer) = settle_both(rt, queues, put, commanding, reclaiming);
    Some((of_controller?, of_reclaimer?))
}

/// Starts the workers, hands everything over, ends the workers and joins them.
fn work_all<'s, X, S: Drop + Send + 's, W: Runner<S> + Sync + 's, R: Threads + Wait + Sync>(
    scope: &Scope<'s, X>,
    setting: Setting<'s, W, R>,
    put: &mut PutPass,
    lanes: Vec<Lane<'s, S, W>>,
    takes: Vec<TakePass>,
    states: Vec<S>,
) -> Result<Vec<Handled<S>>, ReplayFault>
    requires ready { AreReadyToWork W.is_new W.is_idle setting put.old takes.items states.items }
    requires room { (lanes.items ≡ []) × (length states.items ≤ vec_capacity lanes) }
    ensures put { IsPutPassOf setting.entry.queues.now put.new }
    ensures done { IfOk result (λ all. HaveWorked W.is_new W.runs setting.entry (length states.items) (jobs_put put.new) all.items) }
    ensures given_up { IfErr result (WereGivenUp setting.entry (length states.items) (jobs_put put.new)) }
    ensures ended { AreAllEnded (length states.items) (jobs_put put.new) }
    ensures others { HasNoEnd (put_at (jobs_put put.new) (workers_of setting.entry.queues.now)) ×
        HasNoEnd (put_at (jobs_put put.new) (workers_of setting.entry.queues.now + 1)) }
{
    let workers = states.len();
    match start_all(
        scope,
        setting.rt,
        setting.alloc,
        setting.queues,
        setting.capture,
        setting.runner,
        lanes,
        takes,
        states,
    ) {
        Ok(lanes) => {
            let dispatch = Dispatch {
                queues: setting.queues,
                capture: setting.capture,
                starts: setting.starts,
                first: setting.first,
                workers,
            };
            dispatch.hand_all(setting.rt, put);
            end_all(setting.rt, setting.queues, put, workers);
            match finish_all(
                setting.rt,
                setting.alloc,
                setting.queues,
                setting.capture,
                setting.runner,
                put,
                lanes,
            ) {
                Some(all) => Ok(all),
                None => Err(ReplayFault::Memory),
            }
        }
        Err(lanes) => {
            abandon(setting.rt, setting.queues, put, lanes, workers);
            Err(ReplayFault::NoThread)
        }
    }
}

/// Starts all threads in a scope, hands everything over, ends the threads and joins them. On each way out every thread that was started was
/// asked to end, and the right to put comes back where it is given up. Without memory for the threads' list none is started.
fn run_in<
    's,
    X,
    S: Drop + Send + 's,
    E: Drop + Send + 's,
    F: Drop + Send + 's,
    W: Runner<S> + Sync + 's,
    C: Actor<E> + Drop + Send + 's,
    D: Actor<F> + Drop + Send + 's,
    R: Threads + Wait + Sync,
>(
    scope: &Scope<'s, X>,
    setting: Setting<'s, W, R>,
    controller: C,
    reclaimer: D,
    mut put: PutPass,
    mut takes: Vec<TakePass>,
    states: Vec<S>,
) -> Result<AllEnded<S, E, F>, Abandoned>
    requires ready { IsReadyToRun W.is_new W.is_idle setting put takes.items states.items }
    requires actors { C.is_ready controller setting.queues.now (length states.items) × D.is_ready reclaimer setting.queues.now
        (length states.items + 1) }
    ensures done { IfOk result (AreAllDone W.is_new W.runs (C.gives controller) (D.gives reclaimer) setting.entry (length states.items)) }
    ensures abandoned { IfErr result (WereAbandoned setting.entry (length states.items)) }
{
    let Setting { rt, queues, .. } = setting;
    let workers = states.len();
    let Ok(lanes) = Vec::with_capacity(setting.alloc, workers) else {
        let fault = ReplayFault::Memory;
        return Err(Abandoned { fault, put });
    };
    let last = last_two(queues, &mut takes, workers);
    let Some((commanding, reclaiming)) = start_both(
        scope, setting, &mut put, controller, reclaimer, workers, last,
    ) else {
        end_all(rt, queues, &mut put, workers);
        let fault = ReplayFault::NoThread;
        return Err(Abandoned { fault, put });
    };
    match work_all(scope, setting, &mut put, lanes, takes, states) {
        Ok(handled) => match close_both(rt, queues, &mut put, commanding, reclaiming) {
            Some((controller, reclaimer)) => Ok(AllEnded {
                workers: handled,
                controller,
                reclaimer,
            }),
            None => {
                let fault = ReplayFault::Memory;
                Err(Abandoned { fault, put })
            }
        },
        Err(fault) => {
            end_both(rt, queues, &mut put);
            commanding.join(rt);
            reclaiming.join(rt);
            Err(Abandoned { fault, put })
        }
    }
}

/// Runs all records of a capture, each by the worker of its flow, on a thread for each of the workers' states, and beside them the
/// controller and the reclaimer, each on a thread of its own. The controller is handed the commands from `setting.first` on, each once as
/// many records as `setting.starts` says of it were dispatched and no later than after the last one; the reclaimer is asked for a round
/// after every 64 records.
///
/// Given up with 56 where a thread can't be started, and with 52 for lack of memory: before any thread is started, or where one of them is
/// refused memory. What was put into the queues shows which of these it was. The threads that were started have ended.
pub fn run_all<
    'x,
    S: Drop + Send + 'x,
    E: Drop + Send + 'x,
    F: Drop + Send + 'x,
    W: Runner<S> + Sync + 'x,
    C: Actor<E> + Drop + Send + 'x,
    D: Actor<F> + Drop + Send + 'x,
    R: Threads + Wait + Sync + 'x,
>(
    setting: Setting<'x, W, R>,
    controller: C,
    reclaimer: D,
    put: PutPass,
    takes: Vec<TakePass>,
    states: Vec<S>,
) -> Result<AllEnded<S, E, F>, Abandoned>
    requires ready { IsReadyToRun W.is_new W.is_idle setting put takes.items states.items }
    requires actors { C.is_ready controller setting.queues.now (length states.items) × D.is_ready reclaimer setting.queues.now
        (length states.items + 1) }
    ensures done { IfOk result (AreAllDone W.is_new W.runs (C.gives controller) (D.gives reclaimer) setting.entry (length states.items)) }
    ensures abandoned { IfErr result (WereAbandoned setting.entry (length states.items)) }
{
    thread::scope(
        thread::scope_env(),
        setting.rt,
        |scope| -> Result<AllEnded<S, E, F>, Abandoned>
            requires ready { IsReadyToRun W.is_new W.is_idle setting put takes.items states.items }
            requires actors { C.is_ready controller setting.queues.now (length states.items) × D.is_ready reclaimer setting.queues.now
                (length states.items + 1) }
            ensures done { IfOk result (AreAllDone W.is_new W.runs (C.gives controller) (D.gives reclaimer) setting.entry
                (length states.items)) }
            ensures abandoned { IfErr result (WereAbandoned setting.entry (length states.items)) }
        { run_in(scope, setting, controller, reclaimer, put, takes, states) },
    )
}
