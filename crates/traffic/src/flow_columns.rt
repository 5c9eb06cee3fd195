//! The flow of a record's frame, in columns of a report.

ghost use Rattle.std.specs.Prelude.{◌≡◌, IfOk, string_bytes};
ghost use Rattle.wire.specs.FlowForm.{HasFlow};
ghost use Rattle.traffic.specs.RecordLines.{csv_flow, flow_of_pieces, flow_text, json_flow, known_flow, no_flow, protocol_word};

use crate::kind::FrameKind;
use crate::moves::address_at;
use crate::record_line::{ReportForm, missing, number_text, target_text, word_text};
use std::alloc::{AllocError, Global};
use wire::word_at;

/// A protocol by its number in the IPv4 header.
fn protocol_word(protocol: u8) -> &'static str
    ensures { result.now ≡ protocol_word protocol }
{
    if protocol == 6 { "tcp" } else { "udp" }
}

/// A flow in a line of CSV.
fn csv_flow(
    alloc: Global,
    source: &str,
    source_port: &str,
    destination: &str,
    destination_port: &str,
    protocol: &str,
) -> Result<String, AllocError>
    ensures { IfOk result
        (λ text. string_bytes text ≡ csv_flow source.now source_port.now destination.now destination_port.now protocol.now) }
{
    format!(in alloc; ",{source},{source_port},{destination},{destination_port},{protocol}")
}

/// A flow in a line of JSON.
fn json_flow(
    alloc: Global,
    source: &str,
    source_port: &str,
    destination: &str,
    destination_port: &str,
    protocol: &str,
) -> Result<String, AllocError>
    ensures { IfOk result
        (λ text. string_bytes text ≡ json_flow source.now source_port.now destination.now destination_port.now protocol.now) }
{
    format!(in alloc;
        ",\"source\":{source},\"source_port\":{source_port},\"destination\":{destination},\"destination_port\":{destination_port},\"protocol\":{protocol}"
    )
}

/// A flow with these pieces.
fn flow_of_pieces(
    alloc: Global,
    form: ReportForm,
    source: &str,
    source_port: &str,
    destination: &str,
    destination_port: &str,
    protocol: &str,
) -> Result<String, AllocError>
    ensures { IfOk result (λ text. string_bytes text ≡
        flow_of_pieces form source.now source_port.now destination.now destination_port.now protocol.now) }
{
    match form {
        ReportForm::Csv => csv_flow(
            alloc,
            source,
            source_port,
            destination,
            destination_port,
            protocol,
        ),
        ReportForm::Json => json_flow(
            alloc,
            source,
            source_port,
            destination,
            destination_port,
            protocol,
        ),
    }
}

/// The flow of a frame that has one.
fn known_flow(alloc: Global, form: ReportForm, frame: &[u8]) -> Result<String, AllocError>
    requires { HasFlow frame.now }
    ensures { IfOk result (λ text. string_bytes text ≡ known_flow form frame.now) }
{
    let source = target_text(alloc, form, Some(address_at(frame, 26)))?;
    let source_port = number_text(alloc, form, Some(u64::from(word_at(frame, 34))))?;
    let destination = target_text(alloc, form, Some(address_at(frame, 30)))?;
    let destination_port = number_text(alloc, form, Some(u64::from(word_at(frame, 36))))?;
    let protocol = word_text(alloc, form, protocol_word(frame[23]))?;
    flow_of_pieces(
        alloc,
        form,
        source.as_str(),
        source_port.as_str(),
        destination.as_str(),
        destination_port.as_str(),
        protocol.as_str(),
    )
}

/// What is written for a frame without a flow.
fn no_flow(alloc: Global, form: ReportForm) -> Result<String, AllocError>
    ensures { IfOk result (λ text. string_bytes text ≡ no_flow form) }
{
    let none = missing(form);
    flow_of_pieces(alloc, form, none, none, none, none, none)
}

/// The flow of a frame: source, source port, destination, destination port, protocol. What is not known is empty, or null.
pub(crate) fn flow_text(alloc: Global, form: ReportForm, frame: &[u8]) -> Result<String, AllocError>
    ensures { IfOk result (λ text. string_bytes text ≡ flow_text form frame.now) }
{
    if FrameKind::of(frame).has_flow() {
        known_flow(alloc, form, frame)
    } else {
        no_flow(alloc, form)
    }
}
