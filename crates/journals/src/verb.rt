//! The words that name calls.

ghost use Rattle.std.specs.Prelude.{◌≡◌};
ghost use Rattle.journals.specs.declared.verb.Verb.{Verb as Named};
ghost use Rattle.journals.specs.JournalText.{verb_text, verb_of_call};

use semantics::Call;

/// What is asked of a shard, without its words.
#[derive(Clone, Copy, Debug, PartialEq, Eq)]
pub(crate) enum Verb {
    Enter,
    Leave,
    Lookup,
    Load,
    Store,
    Atomic,
    Update,
    Delete,
    Reclaim,
}

impl Verb {
    /// What the call asks.
    pub(crate) fn of(call: &Call) -> Verb
        ensures { result ≡ verb_of_call call.now }
    {
        match call {
            Call::Enter { .. } => Verb::Enter,
            Call::Leave { .. } => Verb::Leave,
            Call::Lookup { .. } => Verb::Lookup,
            Call::Load { .. } => Verb::Load,
            Call::Store { .. } => Verb::Store,
            Call::Atomic { .. } => Verb::Atomic,
            Call::Update { .. } => Verb::Update,
            Call::Delete { .. } => Verb::Delete,
            Call::Reclaim { .. } => Verb::Reclaim,
        }
    }

    /// The word.
    pub(crate) fn text(self) -> &'static str
        ensures { result.now ≡ verb_text self }
    {
        match self {
            Verb::Enter => "enter",
            Verb::Leave => "leave",
            Verb::Lookup => "lookup",
            Verb::Load => "load",
            Verb::Store => "store",
            Verb::Atomic => "atomic",
            Verb::Update => "update",
            Verb::Delete => "delete",
            Verb::Reclaim => "reclaim",
        }
    }

    /// The verb of a word, or any where it is none's.
    pub(crate) fn read(word: &str) -> Verb
        ensures { (verb : Named) → word.now ≡ verb_text verb → result ≡ verb }
    {
        match word {
            "enter" => Verb::Enter,
            "leave" => Verb::Leave,
            "lookup" => Verb::Lookup,
            "load" => Verb::Load,
            "store" => Verb::Store,
            "atomic" => Verb::Atomic,
            "update" => Verb::Update,
            "delete" => Verb::Delete,
            _ => Verb::Reclaim,
        }
    }
}
