//! Why a frame is sent to another address than the sent frame of its flow before.

ghost use Rattle.std.specs.Prelude.{◌≡◌};
ghost use Rattle.flows.specs.Stories.{reason_word};
ghost use Rattle.flows.specs.Telling.{rank, reason_at};

/// Why a frame is sent to another address than the sent frame of its flow before.
#[derive(Clone, Copy, Debug, PartialEq, Eq)]
pub enum Reason {
    /// To the same backend, whose address was changed.
    Readdressed,
    /// The backend before is not up.
    Down,
    /// The flow's service is without tracking, or was at the sent frame before, which left no note.
    Untracked,
    /// The backend before is up, and the flow's note is gone.
    Evicted,
    /// The number of the backend before is not known.
    Unknown,
}

impl Reason {
    /// The reason in a word.
    pub fn word(self) -> &'static str
        ensures { result.now ≡ reason_word self }
    {
        match self {
            Reason::Readdressed => "readdressed",
            Reason::Down => "down",
            Reason::Untracked => "untracked",
            Reason::Evicted => "evicted",
            Reason::Unknown => "unknown",
        }
    }

    /// Its place in the order in which reasons are listed, counted from 0.
    pub(crate) fn rank(self) -> usize
        ensures { result ≡ rank self }
    {
        match self {
            Reason::Down => 0,
            Reason::Evicted => 1,
            Reason::Untracked => 2,
            Reason::Readdressed => 3,
            Reason::Unknown => 4,
        }
    }

    /// The reason at a place in the order in which reasons are listed, counted from 0; the last one behind it.
    pub fn at(rank: usize) -> Reason
        ensures { result ≡ reason_at rank }
    {
        match rank {
            0 => Reason::Down,
            1 => Reason::Evicted,
            2 => Reason::Untracked,
            3 => Reason::Readdressed,
            _ => Reason::Unknown,
        }
    }
}
