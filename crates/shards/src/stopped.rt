//! Which of two calls was refused.

use semantics::JournalFull;

/// Which of two calls under one hold of a lock was refused because the shard's journal is full.
#[derive(Clone, Copy, Debug, PartialEq, Eq)]
pub enum Stopped {
    /// The Enter: nothing was changed.
    AtEnter { full: JournalFull },
    /// The call after it: the Enter was served.
    AtCall { full: JournalFull },
}
