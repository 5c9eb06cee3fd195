//! Waiting for other threads, for a limited number of turns.

use std::hint::spin_loop;
use std::sync::atomic::{AtomicU64, Ordering};
use std::thread::yield_now;

/// How often the processor pauses in a turn. Ten million turns take seconds: on a loaded machine a thread may have to wait long for a
/// processor.
const PAUSES: u32 = 40;

/// What threads tell each other: how often it was given.
#[derive(Drop)]
pub(crate) struct Signal {
    given: AtomicU64,
}

impl Signal {
    /// A signal that was never given.
    pub(crate) fn new() -> Signal {
        Signal {
            given: AtomicU64::new(0),
        }
    }

    /// Gives it once more.
    pub(crate) fn give(&self) {
        self.given.fetch_add(1, Ordering::SeqCst);
    }

    /// How often it was given.
    pub(crate) fn count(&self) -> u64 {
        self.given.load(Ordering::SeqCst)
    }
}

/// Waits until a signal was given this often, for so many turns. False where it was not.
pub(crate) fn waits(signal: &Signal, wanted: u64, limit: u32) -> bool {
    for _ in 0..limit {
        if signal.count() >= wanted {
            return true;
        }
        for _ in 0..PAUSES {
            spin_loop();
        }
        yield_now();
    }
    false
}
