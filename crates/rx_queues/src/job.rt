//! What a queue holds.

/// What an actor is handed.
#[derive(Clone, Copy, Debug, PartialEq, Eq)]
pub enum Job {
    /// Run the program on the frame of this record of the capture, counted from 0.
    Frame(usize),
    /// Apply this command of the script, counted from 0.
    Command(usize),
    /// One round of reclaim requests.
    Note,
    /// No job follows.
    End,
}
