//! Laws of the definitions: each is the contract of a function that does nothing.

ghost use Rattle.abstract_state.specs.Soundness.{HoldingMoreIsSound, OpeningIsSound, JoinIsSound, FlowIsSound, StatesAreShaped};

/// More cells may be held than those that a state knows.
pub fn holding_more_is_sound()
    ensures { HoldingMoreIsSound }
{}

/// The state in which a run begins is known soundly.
pub fn opening_is_sound()
    ensures { OpeningIsSound }
{}

/// What both paths know is sound for a run that came by either.
pub fn join_is_sound()
    ensures { JoinIsSound }
{}

/// An instruction that breaks no rule does not trap, and where it leads, what flows there is sound.
pub fn flow_is_sound()
    ensures { FlowIsSound }
{}

/// Every state describes eleven registers and 64 words of eight bytes.
pub fn states_are_shaped()
    ensures { StatesAreShaped }
{}
