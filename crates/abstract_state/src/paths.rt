//! Whole states: where paths meet, and what a fact changes. A state takes two kilobytes, so all is done in place.

ghost use Rattle.std.specs.Prelude.{◌≡◌, map};
ghost use Rattle.abstract_state.specs.Join.{zip_with, join_kind, join_word, join_of};
ghost use Rattle.abstract_state.specs.Facts.{told_kind, told_word, told};

use crate::fact::Fact;
use crate::kind::{Kind, StackWord};
use crate::state::State;
use ebpf_decode::Version;

/// Leaves of the registers what both paths know.
fn join_registers(version: Version, both: &mut [Kind; 11], second: &[Kind; 11])
    ensures { both.new ≡ zip_with (join_kind version) both.old second.now }
{
    'registers: for i in 0..11 {
        both[i] = both[i].join(version, second[i]);
    }
}

/// Leaves of the stack what both paths know.
fn join_stack(version: Version, both: &mut [StackWord; 64], second: &[StackWord; 64])
    ensures { both.new ≡ zip_with (join_word version) both.old second.now }
{
    'words: for i in 0..64 {
        both[i] = both[i].join(version, second[i]);
    }
}

/// Refines each register by a fact.
fn tell_registers(fact: Fact, told: &mut [Kind; 11])
    ensures { told.new ≡ map (told_kind fact) told.old }
{
    'registers: for i in 0..11 {
        told[i] = fact.of_kind(told[i]);
    }
}

/// Refines each word of the stack by a fact.
fn tell_stack(fact: Fact, told: &mut [StackWord; 64])
    ensures { told.new ≡ map (told_word fact) told.old }
{
    'words: for i in 0..64 {
        told[i] = fact.of_word(told[i]);
    }
}

impl State {
    /// What is known where two paths meet: what both know.
    pub fn join(mut self, other: &State) -> State
        ensures { result ≡ join_of self other.now }
    {
        self.join_with(other);
        self
    }

    /// Leaves what is known where another path meets this one.
    #[inline(never)]
    pub fn join_with(&mut self, other: &State)
        ensures { self.new ≡ join_of self.old other.now }
    {
        join_registers(self.version, &mut self.registers, &other.registers);
        join_stack(self.version, &mut self.stack, &other.stack);
        self.start_range = self.start_range.min(other.start_range);
    }

    /// Refines all copies of a pointer by a fact.
    #[inline(never)]
    pub(crate) fn tell(&mut self, fact: Fact)
        ensures { self.new ≡ told fact self.old }
    {
        tell_registers(fact, &mut self.registers);
        tell_stack(fact, &mut self.stack);
        self.start_range = fact.of_start(self.start_range);
    }
}
