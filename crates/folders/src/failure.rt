//! Calls of the system that failed.

use std::alloc::AllocError;
use std::io;

/// What was done with a file when its device failed.
#[derive(Clone, Copy, Debug, PartialEq, Eq)]
pub(crate) enum Step {
    Opening,
    Reading,
    Copying,
    Making,
    Writing,
}

/// A call that failed, and the system's word for why.
#[derive(Clone, Copy, Debug)]
pub(crate) struct Failure {
    pub(crate) step: Step,
    pub(crate) error: io::Error,
}

/// Why a file was not read, or not begun.
#[derive(Clone, Copy, Debug)]
pub(crate) enum Trouble {
    Device(Failure),
    Memory,
}

impl From<AllocError> for Trouble {
    fn from(_: AllocError) -> Trouble {
        Trouble::Memory
    }
}

impl Step {
    /// What could not be done.
    pub(crate) fn word(self) -> &'static str {
        match self {
            Step::Opening => "open",
            Step::Reading => "read",
            Step::Copying => "copy",
            Step::Making => "make",
            Step::Writing => "write",
        }
    }
}

impl From<Failure> for Trouble {
    fn from(failure: Failure) -> Trouble {
        Trouble::Device(failure)
    }
}

/// A call that failed at this step.
pub(crate) fn at_step(step: Step, error: io::Error) -> Failure {
    Failure { step, error }
}

/// The same, in place of a file.
pub(crate) fn failed(step: Step, error: io::Error) -> Trouble {
    Trouble::Device(at_step(step, error))
}
