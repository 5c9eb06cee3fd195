//! A part of a capture, and the loss of one.

ghost use Rattle.std.specs.Prelude.{◌<◌};
ghost use Rattle.fleet.specs.Parts.{CanLose};

/// The loss of a machine.
#[derive(Clone, Copy, Debug, PartialEq, Eq)]
pub struct Loss {
    /// The part that it had, whose records the other parts have from then on.
    pub part: u32,
    /// How many records of the whole capture come before the loss.
    pub from: u32,
}

/// One of `of` parts of a capture. Its number counts from 0.
#[derive(Clone, Copy, Debug, PartialEq, Eq)]
pub struct Part {
    pub number: u32,
    pub of: u32,
    /// The loss of one of the parts, this one or another, if there is one.
    pub lost: Option<Loss>,
    pub ghost within: { number < of },
    pub ghost can_lose: { CanLose of lost },
}
