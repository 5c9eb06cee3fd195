//! What is told of a flow.

ghost use Rattle.std.specs.Prelude.{◌≡◌, ◌<◌, ◌+◌, ◌^◌, ◌++◌, ◌==◌, not, IfOk, OnOk, Some, string_bytes};
ghost use Rattle.std.specs.Option.{MatchOption};
ghost use Rattle.flows.specs.FlowRecords.{HasRoomForFrame, story_of};
ghost use Rattle.flows.specs.Stories.{after, after_sent, after_unsent, backend_name, story_begun, change_with_reason, flow_of_row, row_has_flow, is_moved_row};
ghost use Rattle.flows.specs.Stories.{has_no_backend, is_dropped_row, is_sent_row, one_if};
ghost use Rattle.flows.specs.Stories.{moment_of_row, move_by, one_if_some, or_else, reason_of_move, step_text, backend_of_row, address_of};
ghost use Rattle.flows.specs.Stories.{down_or, is_chosen, is_untracked_row, reason_of_noted, was_down};
ghost use Rattle.flows.specs.Walking.{KnowsSettings, applied};

use crate::reason::Reason;
use crate::settings::Settings;
use comparison::{columns, field, fields_between};
use std::alloc::{AllocError, Global};

/// The flow as a row spells it.
pub(crate) fn flow_of(row: &str) -> &str
    ensures { result.now ≡ flow_of_row row.now }
{
    fields_between(row, columns::SOURCE, columns::PROTOCOL)
}

/// Whether a row's frame has a flow.
pub(crate) fn has_flow(row: &str) -> bool
    ensures { result ≡ row_has_flow row.now }
{
    !field(row, columns::SOURCE).is_empty()
}

/// Whether a row's frame was sent.
fn is_sent(row: &str) -> bool
    ensures { result ≡ is_sent_row row.now }
{
    field(row, columns::VERDICT) == "TX"
}

/// Whether a row's frame was dropped.
fn is_dropped(row: &str) -> bool
    ensures { result ≡ is_dropped_row row.now }
{
    field(row, columns::VERDICT) == "DROP"
}

/// Whether it was dropped for want of a backend that is up.
fn has_no_backend(row: &str) -> bool
    ensures { result ≡ has_no_backend row.now }
{
    is_dropped(row) && field(row, columns::CASE) == "no-backend"
}

/// Whether this word says how the run chose the backend.
fn is_chosen(row: &str, word: &str) -> bool
    ensures { result ≡ is_chosen word.now row.now }
{
    field(row, columns::CHOICE) == word
}

/// Whether the table chose it, since the service is without tracking.
fn is_untracked(row: &str) -> bool
    ensures { result ≡ is_untracked_row row.now }
{
    is_chosen(row, "untracked")
}

/// 1 where this is so.
fn one_if(is: bool) -> usize
    ensures { result ≡ one_if is }
{
    if is { 1 } else { 0 }
}

/// A word, or another one where it is empty.
fn or_else<'a>(word: &'a str, other: &'a str) -> &'a str
    ensures { result.now ≡ or_else word.now other.now }
{
    if word.is_empty() { other } else { word }
}

/// The backend of a row in a word.
fn backend_name(row: &str) -> &str
    ensures { result.now ≡ backend_name row.now }
{
    or_else(
        field(row, columns::BACKEND),
        or_else(field(row, columns::ADDRESS), "-"),
    )
}

/// 1 for a frame that is moved.
fn one_if_some(moved: Option<Reason>) -> usize
    ensures { result ≡ one_if_some moved }
{
    match moved {
        None => 0,
        Some(_) => 1,
    }
}

/// What is told of a flow.
#[derive(Drop)]
pub(crate) struct Flow<'a> {
    /// Addresses, ports and protocol, as rows spell them.
    pub(crate) flow: &'a str,
    /// The moments of its first and last frame.
    pub(crate) first: &'a str,
    pub(crate) last: &'a str,
    /// How many frames it has, how many of them were sent, how many dropped, and how many of these for want of a backend that is up.
    pub(crate) frames: usize,
    pub(crate) sent: usize,
    pub(crate) dropped: usize,
    pub(crate) no_backend: usize,
    /// Whether a frame was dropped behind a sent one.
    pub(crate) lost: bool,
    /// How many sent frames went to another address than the sent one before.
    pub(crate) changes: usize,
    /// The number of the backend and the address of the last sent frame.
    pub(crate) backend: &'a str,
    pub(crate) address: &'a str,
    /// Whether the flow's service was without tracking at that frame, as its row says.
    pub(crate) untracked: bool,
    /// The backends, with the reason of each change.
    pub(crate) path: String,
}

impl<'a> Flow<'a> {
    /// Before the first frame, which this row is.
    pub(crate) fn begun(alloc: Global, row: &'a str) -> Flow<'a>
        ensures { story_of result ≡ story_begun row.now }
    {
        let moment = field(row, columns::MOMENT);
        Flow {
            flow: flow_of(row),
            first: moment,
            last: moment,
            frames: 0,
            sent: 0,
            dropped: 0,
            no_backend: 0,
            lost: false,
            changes: 0,
            backend: "",
            address: "",
            untracked: false,
            path: String::new(alloc),
        }
    }

    /// Whether the frame is sent to another address than the sent one before.
    fn is_moved(&self, row: &str) -> bool
        ensures { result ≡ is_moved_row (story_of self.now) row.now }
    {
        is_sent(row) && self.sent != 0 && self.address != field(row, columns::ADDRESS)
    }

    /// Whether the backend of the sent frame before is known, and not up.
    fn was_down(&self, settings: &Settings) -> bool
        requires { KnowsSettings settings.now }
        ensures { result ≡ was_down (story_of self.now) (applied settings.now) }
    {
        !self.backend.is_empty() && !settings.is_up(self.backend)
    }

    /// Down, where the backend before is, or this reason.
    fn down_or(&self, other: Reason, settings: &Settings) -> Reason
        requires { KnowsSettings settings.now }
        ensures { result ≡ down_or other (story_of self.now) (applied settings.now) }
    {
        if self.was_down(settings) {
            Reason::Down
        } else {
            other
        }
    }

    /// Why the next frame is sent to another address, where its run followed the flow's note.
    fn reason_of_noted(&self) -> Reason
        ensures { result ≡ reason_of_noted (story_of self.now) }
    {
        if self.untracked {
            Reason::Untracked
        } else {
            Reason::Readdressed
        }
    }

    /// Why the next frame is sent to another address.
    fn reason_of(&self, row: &str, settings: &Settings) -> Reason
        requires { KnowsSettings settings.now }
        ensures { result ≡ reason_of_move (story_of self.now) row.now (applied settings.now) }
    {
        if is_chosen(row, "note-down") {
            Reason::Down
        } else if is_chosen(row, "noted") {
            self.reason_of_noted()
        } else if is_untracked(row) || self.untracked {
            self.down_or(Reason::Untracked, settings)
        } else if is_chosen(row, "no-note") {
            self.down_or(Reason::Evicted, settings)
        } else {
            Reason::Unknown
        }
    }

    /// Why a frame is moved, if it is.
    fn move_by(&self, row: &str, settings: &Settings) -> Option<Reason>
        requires { KnowsSettings settings.now }
        ensures { result ≡ move_by (story_of self.now) row.now (applied settings.now) }
    {
        if self.is_moved(row) {
            Some(self.reason_of(row, settings))
        } else {
            None
        }
    }

    /// What a sent frame adds to the backends in words.
    fn step_text(
        &self,
        alloc: Global,
        row: &str,
        moved: Option<Reason>,
    ) -> Result<String, AllocError>
        ensures { IfOk result (λ text. string_bytes text ≡ step_text (story_of self.now) row.now moved) }
    {
        let name = backend_name(row);
        match moved {
            Some(reason) => change_text(alloc, reason.word(), name),
            None => String::from_str(alloc, if self.sent == 0 { name } else { "" }),
        }
    }

    /// Notes a frame that is not sent.
    fn note_unsent(&mut self, row: &'a str)
        requires { HasRoomForFrame (story_of self.old) }
        ensures { story_of self.new ≡ after_unsent (story_of self.old) row.now }
    {
        let dropped = is_dropped(row);
        self.last = field(row, columns::MOMENT);
        self.frames += 1;
        self.dropped += one_if(dropped);
        self.no_backend += one_if(has_no_backend(row));
        self.lost = self.lost || (dropped && self.sent != 0);
    }

    /// Notes a sent frame, which is moved for this reason, or not.
    fn note_sent(
        &mut self,
        alloc: Global,
        row: &'a str,
        moved: Option<Reason>,
    ) -> Result<(), AllocError>
        requires { HasRoomForFrame (story_of self.old) }
        ensures { OnOk result (story_of self.new ≡ after_sent (story_of self.old) row.now moved) }
    {
        let step = self.step_text(alloc, row, moved)?;
        self.path.push_str(step.as_str())?;
        self.last = field(row, columns::MOMENT);
        self.frames += 1;
        self.sent += 1;
        self.changes += one_if_some(moved);
        self.backend = field(row, columns::BACKEND);
        self.address = field(row, columns::ADDRESS);
        self.untracked = is_untracked(row);
        Ok(())
    }

    /// Notes a frame, and says why it is moved, if it is.
    pub(crate) fn note(
        &mut self,
        alloc: Global,
        row: &'a str,
        settings: &Settings,
    ) -> Result<Option<Reason>, AllocError>
        requires room { HasRoomForFrame (story_of self.old) }
        requires knows { KnowsSettings settings.now }
        ensures after { OnOk result (story_of self.new ≡ after (story_of self.old) row.now (applied settings.now)) }
        ensures moved { IfOk result (λ moved. moved ≡ move_by (story_of self.old) row.now (applied settings.now)) }
    {
        let moved = self.move_by(row, settings);
        if is_sent(row) {
            self.note_sent(alloc, row, moved)?;
        } else {
            self.note_unsent(row);
        }
        Ok(moved)
    }
}

/// A change of the backend, with its reason.
fn change_text(alloc: Global, reason: &str, backend: &str) -> Result<String, AllocError>
    ensures { IfOk result (λ text. string_bytes text ≡ change_with_reason reason.now backend.now) }
{
    format!(in alloc; " >{reason} {backend}")
}
