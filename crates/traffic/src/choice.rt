//! How the shipped program chose the backend of a frame that it sent.

ghost use Rattle.std.specs.Prelude.{◌≡◌};
ghost use Rattle.traffic.specs.RecordLines.{choice_of, choice_of_steps, choice_word, word_of_choice};

use crate::record_line::LineVerdict;

/// How the shipped program chose the backend of a frame that it sent.
#[derive(Clone, Copy, Debug, PartialEq, Eq)]
pub enum Choice {
    /// It is noted for the frame's flow, and is up.
    Noted,
    /// By the lookup table: the service is without tracking.
    Untracked,
    /// By the lookup table: the flow has no note.
    NoNote,
    /// By the lookup table: the backend that is noted is not up.
    NoteDown,
}

/// The choice of a frame that was sent in so many steps, if that program sends one in so many.
fn choice_of_steps(steps: u64) -> Option<Choice>
    ensures { result ≡ choice_of_steps steps }
{
    match steps {
        133 | 134 => Some(Choice::Noted),
        182 | 183 => Some(Choice::Untracked),
        194 | 195 => Some(Choice::NoNote),
        201 | 202 | 205 | 206 => Some(Choice::NoteDown),
        _ => None,
    }
}

impl Choice {
    /// The choice of a frame with this verdict, by the steps of its run: none for a frame that was not sent, and for a number of steps in which
    /// the shipped program sends none.
    pub fn of(verdict: LineVerdict, steps: Option<u64>) -> Option<Choice>
        ensures { result ≡ choice_of verdict steps }
    {
        match verdict {
            LineVerdict::Tx => match steps {
                Some(steps) => choice_of_steps(steps),
                None => None,
            },
            _ => None,
        }
    }

    /// The choice in a word.
    pub fn word(self) -> &'static str
        ensures { result.now ≡ word_of_choice self }
    {
        match self {
            Choice::Noted => "noted",
            Choice::Untracked => "untracked",
            Choice::NoNote => "no-note",
            Choice::NoteDown => "note-down",
        }
    }
}

/// The word of the choice of a frame with this verdict, by the steps of its run; empty where there is none.
pub fn choice_word(verdict: LineVerdict, steps: Option<u64>) -> &'static str
    ensures { result.now ≡ choice_word verdict steps }
{
    match Choice::of(verdict, steps) {
        Some(choice) => choice.word(),
        None => "",
    }
}
