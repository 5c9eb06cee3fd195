//! The test hook of a replay.

ghost use Rattle.std.specs.Prelude.{◌≡◌};
ghost use Rattle.shard_port.specs.ScheduleHook.{next_count};

use semantics::Caller;

/// What is called for each reply of an actor, and may hold it: for tests that fix a schedule.
pub trait Gate {
    /// The actor has had its `nth` reply, counted from 1 within the replay: to a map's call, to an update or to a Reclaim. It holds no
    /// lock. Neither an Enter, a Leave nor a refusal counts.
    fn replied(&self, who: Caller, nth: u64);
}

/// A gate that holds nobody.
#[derive(Clone, Copy, Debug, PartialEq, Eq)]
pub struct NoGate;

impl Gate for NoGate {
    fn replied(&self, _who: Caller, _nth: u64) {}
}

/// An actor's replies, counted, and the gate that is called for them.
#[derive(Drop)]
pub struct Tally<'a, G: Gate> {
    gate: &'a G,
    pub who: Caller,
    /// How many replies the actor has had.
    pub count: u64,
}

impl<'a, G: Gate> Tally<'a, G> {
    /// An actor that had this many replies.
    pub fn new(gate: &'a G, who: Caller, count: u64) -> Tally<'a, G>
        ensures who { result.who ≡ who }
        ensures count { result.count ≡ count }
    {
        Tally { gate, who, count }
    }

    /// Counts a reply, and calls the gate for it.
    #[inline(always)]
    pub fn replied(&mut self)
        ensures who { self.new.who ≡ self.old.who }
        ensures count { self.new.count ≡ next_count self.old.count }
    {
        self.count = self.count.wrapping_add(1);
        self.gate.replied(self.who, self.count);
    }
}
