//! Frames that were sent to another address than the sent frame of their flow before.

ghost use Rattle.std.specs.Prelude.{◌≡◌, ◌++◌, OnOk, map};
ghost use Rattle.flows.specs.FlowRecords.{moved_of};
ghost use Rattle.flows.specs.Telling.{moved_at, moves_for};

use crate::reason::Reason;
use std::alloc::AllocError;

/// A frame that was sent to another address than the sent frame of its flow before.
#[derive(Clone, Copy, Debug)]
pub struct Move<'a> {
    /// The place of its row, counted from 0.
    pub place: usize,
    /// The address to which the sent frame before went.
    pub from: &'a str,
    /// The number of the backend that got it; empty where it is not known.
    pub backend: &'a str,
    pub reason: Reason,
}

/// Appends the move of the row at this place, if there is a reason.
pub(crate) fn put_move<'a>(
    moves: &mut Vec<Move<'a>>,
    place: usize,
    from: &'a str,
    backend: &'a str,
    moved: Option<Reason>,
) -> Result<(), AllocError>
    ensures { OnOk result (map moved_of moves.new.items ≡ map moved_of moves.old.items ++ moved_at place from.now backend.now moved) }
{
    if let Some(reason) = moved {
        moves.push(Move {
            place,
            from,
            backend,
            reason,
        })?;
    }
    Ok(())
}

/// How many frames were moved for the reason of this rank.
pub fn how_many(moves: &[Move], rank: usize) -> usize
    ensures { result ≡ moves_for rank (map moved_of moves.now) }
{
    moves
        .iter()
        .filter(|moved| moved.reason.rank() == rank)
        .count()
}
