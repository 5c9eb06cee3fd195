//! The table of flows as CSV.

ghost use Rattle.std.specs.Prelude.{◌≡◌, ◌++◌, IfOk, OnOk, map, string_bytes};
ghost use Rattle.std.specs.List.{flat_map};
ghost use Rattle.flows.specs.FlowRecords.{story_of};
ghost use Rattle.flows.specs.TableText.{line_back, line_counts, line_front, flow_line, table_head, table_text};

use crate::flow::Flow;
use std::alloc::{AllocError, Global};

/// What comes before the first line.
const HEAD: &str =
    "source,source_port,destination,destination_port,protocol,first,last,frames,sent,dropped,no_backend,changes,backends\n";

/// The front of a line: the flow, and its first and last moment.
fn line_front(alloc: Global, flow: &str, first: &str, last: &str) -> Result<String, AllocError>
    ensures { IfOk result (λ text. string_bytes text ≡ line_front flow.now first.now last.now) }
{
    format!(in alloc; "{flow},{first},{last}")
}

/// The middle of a line: how many frames, how many of them were sent, how many dropped, and of these for want of a backend.
fn line_counts(
    alloc: Global,
    frames: usize,
    sent: usize,
    dropped: usize,
    no_backend: usize,
) -> Result<String, AllocError>
    ensures { IfOk result (λ text. string_bytes text ≡ line_counts frames sent dropped no_backend) }
{
    format!(in alloc; ",{frames},{sent},{dropped},{no_backend}")
}

/// The back of a line: how many changes, and the backends.
fn line_back(alloc: Global, changes: usize, path: &str) -> Result<String, AllocError>
    ensures { IfOk result (λ text. string_bytes text ≡ line_back changes path.now) }
{
    format!(in alloc; ",{changes},{path}\n")
}

/// The line of a flow.
fn line_of(alloc: Global, flow: &Flow) -> Result<String, AllocError>
    ensures { IfOk result (λ text. string_bytes text ≡ flow_line (story_of flow.now)) }
{
    let mut line = line_front(alloc, flow.flow, flow.first, flow.last)?;
    let counts = line_counts(alloc, flow.frames, flow.sent, flow.dropped, flow.no_backend)?;
    line.push_str(counts.as_str())?;
    let back = line_back(alloc, flow.changes, flow.path.as_str())?;
    line.push_str(back.as_str())?;
    Ok(line)
}

/// Appends the lines of flows.
fn put_lines(alloc: Global, text: &mut String, flows: &[Flow]) -> Result<(), AllocError>
    ensures { OnOk result (string_bytes text.new ≡ string_bytes text.old ++ flat_map (λ flow. flow_line (story_of flow)) flows.now) }
{
    'flows: for flow in flows {
        let line = line_of(alloc, flow)?;
        text.push_str(line.as_str())?;
    }
    Ok(())
}

/// The head.
fn head(alloc: Global) -> Result<String, AllocError>
    ensures { IfOk result (λ text. string_bytes text ≡ table_head) }
{
    String::from_str(alloc, HEAD)
}

/// The head, and the line of each flow.
pub(crate) fn table_text(alloc: Global, flows: &[Flow]) -> Result<String, AllocError>
    ensures { IfOk result (λ text. string_bytes text ≡ table_text (map story_of flows.now)) }
{
    let mut text = head(alloc)?;
    put_lines(alloc, &mut text, flows)?;
    Ok(text)
}
