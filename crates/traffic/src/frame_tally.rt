//! What the summary of a replay's traffic counts, of frames that come in pieces.

ghost use Rattle.std.specs.Prelude.{◌≡◌, ◌++◌, [], IfOk, OnOk, List, map, string_bytes};
ghost use Rattle.wire.specs.declared.records.Sent.{Sent as Frame};
ghost use Rattle.traffic.specs.Counting.{how_many_of_kind};
ghost use Rattle.traffic.specs.Moving.{moved_places};
ghost use Rattle.traffic.specs.SummaryText.{IsSummary, kinds};
ghost use Rattle.traffic.specs.Tallies.{IsFrameTally, kind_counts};

use crate::counts::add_counts;
use crate::kind::FrameKind;
use crate::moves::Moves;
use crate::printing::{KINDS, put_kinds, put_sent};
use crate::tunnels::Targets;
use std::alloc::{AllocError, Global};
use wire::Sent;

/// How many captured frames are of which kind, and how many sent ones went where. It grows with the number of addresses and of flows, not
/// with that of frames.
#[derive(Drop)]
pub struct FrameTally {
    /// Of each kind, by its place.
    kinds: Vec<u64>,
    targets: Targets,
    moves: Moves,
}

/// How many of the frames are of each kind, in the order of the kinds.
fn kinds_in(alloc: Global, frames: &[Sent]) -> Result<Vec<u64>, AllocError>
    ensures { IfOk result (λ counts. counts.items ≡ kind_counts frames.now kinds) }
{
    KINDS
        .iter()
        .map(|kind| kind.count_in(frames) as u64)
        .collect(alloc)
}

impl FrameTally {
    /// Before the first frame. It fails only for lack of memory.
    pub fn new(alloc: Global) -> Result<FrameTally, AllocError>
        ensures { IfOk result (IsFrameTally [] []) }
    {
        let kinds = kinds_in(alloc, &[])?;
        Ok(FrameTally {
            kinds,
            targets: Targets::none(alloc),
            moves: Moves::none(alloc),
        })
    }

    /// Counts the next captured frames and the next sent ones, and returns which of the sent ones went to another address than the last frame
    /// of their flow before them: their places, counted from 0 from the first frame on that was ever sent. It fails for lack of memory, and
    /// where a count would reach 2^64; then the counts are none of anything.
    pub fn note(
        &mut self,
        alloc: Global,
        captured: &[Sent],
        sent: &[Sent],
    ) -> Result<Vec<usize>, AllocError>
        ensures tally { OnOk result ((past past_sent : List Frame) → IsFrameTally past past_sent self.old →
            IsFrameTally (past ++ captured.now) (past_sent ++ sent.now) self.new) }
        ensures moved { IfOk result (λ places. (past past_sent : List Frame) → IsFrameTally past past_sent self.old →
            moved_places (past_sent ++ sent.now) ≡ moved_places past_sent ++ places.items) }
    {
        let kinds = kinds_in(alloc, captured)?;
        add_counts(&mut self.kinds, &kinds)?;
        self.targets.note_all(sent)?;
        let places = self.moves.note(alloc, sent)?;
        Ok(places)
    }

    /// The summary: a line for each kind of frame that there is among the captured ones; a line for each address to which frames were sent, by
    /// rising address; and a line for those that went elsewhere than the frame of their flow before. It fails only for lack of memory.
    pub fn text(&self, alloc: Global) -> Result<String, AllocError>
        ensures { IfOk result (λ text. (captured sent : List Frame) → IsFrameTally captured sent self.now →
            IsSummary captured sent (string_bytes text)) }
    {
        let mut text = String::new(alloc);
        put_kinds(alloc, &mut text, &KINDS, &self.kinds)?;
        put_sent(alloc, &mut text, &self.targets, self.moves.count())?;
        Ok(text)
    }
}

/// What a replay's traffic was: a line for each kind of frame that the capture has; a line for each address to which frames were sent, by
/// rising address; and a line for those that went elsewhere than the frame of their flow before.
pub fn summary(alloc: Global, captured: &[Sent], sent: &[Sent]) -> Result<String, AllocError>
    ensures { IfOk result (λ text. IsSummary captured.now sent.now (string_bytes text)) }
{
    let mut tally = FrameTally::new(alloc)?;
    tally.note(alloc, captured, sent)?;
    let text = tally.text(alloc)?;
    Ok(text)
}
