//! The flows of a report.

ghost use Rattle.std.specs.Prelude.{◌≡◌, IfErr, IfOk, count_by, length, map, string_bytes};
ghost use Rattle.flows.specs.FlowRecords.{moved_of, stories_in};
ghost use Rattle.flows.specs.FlowTexts.{AreFlows};
ghost use Rattle.flows.specs.Reports.{AreFlowsRefused};
ghost use Rattle.flows.specs.Stories.{is_stopped_row};
ghost use Rattle.flows.specs.Telling.{moves_until, stories_until};

use crate::fault::NoFlows;
use crate::flow_list::FlowList;
use crate::moves::{Move, put_move};
use crate::printing::table_text;
use crate::reading::whole_report;
use crate::settings::Settings;
use crate::summary::summary_text;
use comparison::{columns, field, row_at};
use control::{Command, Script};
use std::alloc::{AllocError, Global};

/// The flows of a report.
#[derive(Drop)]
pub struct Flows {
    /// As CSV: a head, and a line for each flow.
    pub table: String,
    /// Lines for people: how many flows moved and lost frames, how many frames moved, why, and how many were stopped, and the ten flows with
    /// the most changes.
    pub summary: String,
}

/// The flows of rows, and the frames that were moved.
fn told<'a>(
    alloc: Global,
    rows: &[&'a str],
    commands: &[Command],
) -> Result<(FlowList<'a>, Vec<Move<'a>>), AllocError>
    ensures stories { IfOk result (λ told. stories_in told.0 ≡
        stories_until (map (λ row. row.now) rows.now) commands.now (length (map (λ row. row.now) rows.now))) }
    ensures moves { IfOk result (λ told. map moved_of told.1.items ≡
        moves_until (map (λ row. row.now) rows.now) commands.now (length (map (λ row. row.now) rows.now))) }
{
    let mut settings = Settings::new(alloc, commands);
    let mut list = FlowList::new(alloc);
    let mut moves = Vec::new(alloc);
    'rows: for place in 0..rows.len() {
        settings.advance(alloc, place)?;
        let row = row_at(rows, place);
        let from = list.address_of(row);
        let backend = list.backend_of(row);
        let moved = list.tell(alloc, row, &settings)?;
        put_move(&mut moves, place, from, backend, moved)?;
    }
    Ok((list, moves))
}

/// The frames among these rows that were sent to another address than the sent frame of their flow before, and why, where these are the
/// commands of the script. It fails only for lack of memory.
pub fn moved_frames<'a>(
    alloc: Global,
    rows: &[&'a str],
    commands: &[Command],
) -> Result<Vec<Move<'a>>, AllocError>
    ensures { IfOk result (λ moves. map moved_of moves.items ≡
        moves_until (map (λ row. row.now) rows.now) commands.now (length (map (λ row. row.now) rows.now))) }
{
    let (_list, moves) = told(alloc, rows, commands)?;
    Ok(moves)
}

/// Whether a full journal stopped the run of a row's frame.
fn is_stopped(row: &str) -> bool
    ensures { result ≡ is_stopped_row row.now }
{
    field(row, columns::VERDICT) == "STOPPED"
}

/// How many of the rows' frames were stopped.
fn stopped_count(rows: &[&str]) -> usize
    ensures { result ≡ count_by is_stopped_row (map (λ row. row.now) rows.now) }
{
    rows.iter().filter(|row| is_stopped(**row)).count()
}

/// The flows of the report of a replay with this script: of each flow its frames, and the backends that got them, each change with its
/// reason. The report is one of CSV, whose rows are those of records 1, 2, 3 and so on without a gap; a part that is cut off
/// behind does not show.
///
/// The reasons are those of a replay by the shipped program: each run's row says how it chose its backend. Where it found no note, whether the
/// backend before was up is read from the script; on threads a command and a frame may overlap.
///
/// Refused where the file is no such report, with the line that shows it first, and where memory is refused.
pub fn flows_in(alloc: Global, report: &[u8], script: &Script) -> Result<Flows, NoFlows>
    ensures flows { IfOk result (λ flows. AreFlows report.now script.now (string_bytes flows.table) (string_bytes flows.summary)) }
    ensures refused { IfErr result (λ refusal. AreFlowsRefused report.now refusal) }
{
    let rows = whole_report(alloc, report)?;
    let (list, moves) = told(alloc, &rows, script.commands())?;
    let table = table_text(alloc, &list.flows)?;
    let summary = summary_text(alloc, &list.flows, &moves, stopped_count(&rows))?;
    Ok(Flows { table, summary })
}
