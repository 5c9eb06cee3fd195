//! How far a replay is.

use ebpf_decode::MapKind;
use replay::ROUND_EVERY;
use semantics::{Caller, Options};
use shard_port::Gate;
use std::rt::Clock;
use std::time::Instant;
use verifier::Verified;

/// After how many rounds of the reclaimer a replay reports its progress.
const ROUNDS: u64 = 512;

/// After how many records of a capture that is read in pieces.
const RECORDS: u64 = 32_768;

/// What a replay reports its progress to.
pub trait Progress {
    /// `frames` frames were handed to the workers, of `all`, if it is known how many there are; where a capture is read in pieces, so many of
    /// its frames were gone past.
    fn handed(&self, frames: u64, all: Option<u64>);
}

/// Reports to nobody.
#[derive(Clone, Copy, Debug, PartialEq, Eq)]
pub struct NoProgress;

impl Progress for NoProgress {
    fn handed(&self, _frames: u64, _all: Option<u64>) {}
}

/// Reports to a person at a terminal, on the standard error: how many frames, and how many a second.
#[derive(Drop)]
pub struct TerminalProgress<'a, R> {
    rt: &'a R,
    /// When the program began, if the standard error is a terminal and there is a clock.
    start: Option<Instant>,
}

impl<'a, R: Clock> TerminalProgress<'a, R> {
    /// From now on, if the standard error is a terminal.
    pub fn new(rt: &'a R, is_terminal: bool) -> TerminalProgress<'a, R> {
        let start = if is_terminal {
            Instant::now(rt).ok()
        } else {
            None
        };
        TerminalProgress { rt, start }
    }
}

impl<R: Clock + Eprint> Progress for TerminalProgress<'_, R> {
    fn handed(&self, frames: u64, all: Option<u64>) {
        let Some(start) = self.start else {
            return;
        };
        let Ok(spent) = start.elapsed(self.rt) else {
            return;
        };
        let millis = spent.as_millis();
        let rate = if millis == 0 {
            0
        } else {
            frames as u128 * 1000 / millis
        };
        let _ = match all {
            Some(all) => eprintln!(self.rt; "  {frames} of {all} frames, {rate} a second"),
            None => eprintln!(self.rt; "  {frames} frames, {rate} a second"),
        };
    }
}

/// How far a replay is in a capture that is read in pieces.
#[derive(Clone, Copy)]
pub(crate) struct Distance<'a, P> {
    pub progress: &'a P,
}

impl<P: Progress> Distance<'_, P> {
    /// Behind `passed` records, where it was behind `before` of them when this was called last: reports it, if a multiple of `RECORDS` is
    /// among the new ones.
    pub(crate) fn note(&self, before: u64, passed: u64) {
        if before / RECORDS < passed / RECORDS {
            self.progress.handed(passed, None);
        }
    }
}

/// A gate that holds nobody, and reports a replay's progress by the reclaimer's rounds.
#[derive(Clone, Copy)]
pub(crate) struct Rounds<'a, P> {
    pub progress: &'a P,
    /// How many replies of the reclaimer are a round: one for each shard of a map that is no array, and one in an exact replay.
    pub replies: u64,
    /// How many frames the replay has.
    pub frames: u64,
}

impl<'a, P> Rounds<'a, P> {
    /// The rounds of a replay.
    pub(crate) fn of(
        progress: &'a P,
        verified: &Verified,
        options: &Options,
        exact: bool,
        frames: u64,
    ) -> Rounds<'a, P> {
        let maps = verified.image().maps();
        let keyed = maps.iter().filter(|map| map.kind != MapKind::Array).count() as u64;
        Rounds {
            progress,
            replies: if exact {
                1
            } else {
                keyed.saturating_mul(options.shards as u64)
            },
            frames,
        }
    }
}

impl<P: Progress> Rounds<'_, P> {
    /// The reclaimer has had its `nth` reply.
    #[inline(never)]
    fn reclaimed(&self, nth: u64) {
        if self.replies == 0 || nth % self.replies != 0 {
            return;
        }
        let rounds = nth / self.replies;
        if rounds % ROUNDS == 0 {
            self.progress.handed(rounds.saturating_mul(ROUND_EVERY as u64), Some(self.frames));
        }
    }
}

impl<P: Progress> Gate for Rounds<'_, P> {
    #[inline(always)]
    fn replied(&self, who: Caller, nth: u64) {
        match who {
            Caller::Reclaimer => self.reclaimed(nth),
            _ => {}
        }
    }
}
