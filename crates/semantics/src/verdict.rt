//! What a run decides about its frame.

/// What becomes of a frame (the XDP actions of Linux, except redirection).
#[derive(Clone, Copy, Debug, PartialEq, Eq)]
pub enum Verdict {
    /// The run answered a number that is none of the three below.
    Aborted,
    /// The frame is dropped: 1.
    Drop,
    /// The frame goes on to the host: 2.
    Pass,
    /// The frame is sent: 3.
    Tx,
}

impl Verdict {
    ghost use Rattle.std.specs.Prelude.{◌≡◌};
    ghost use Rattle.semantics.specs.Semantics.{verdict_of, verdict_number};

    /// The verdict that a number means: every number but 1, 2 and 3 aborts.
    pub fn of(number: u64) -> Verdict
        ensures { result ≡ verdict_of number }
    {
        if number == 1 {
            Verdict::Drop
        } else if number == 2 {
            Verdict::Pass
        } else if number == 3 {
            Verdict::Tx
        } else {
            Verdict::Aborted
        }
    }

    /// Linux's number of the verdict; 0 where the run aborted.
    pub fn number(self) -> u64
        ensures { result ≡ verdict_number self }
    {
        match self {
            Verdict::Aborted => 0,
            Verdict::Drop => 1,
            Verdict::Pass => 2,
            Verdict::Tx => 3,
        }
    }
}
