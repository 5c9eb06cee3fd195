//! When and where a run happens.

/// When a run happens, and on which worker. This is what the program reads; in whose name maps are called is the port's to say.
#[derive(Clone, Copy, Debug, PartialEq, Eq)]
pub struct Moment {
    /// The time in nanoseconds, as helper 5 returns it.
    pub now_ns: u64,
    /// The worker's number, 0 to 7, as helper 8 and the receive queue's number return it.
    pub worker: u8,
}
