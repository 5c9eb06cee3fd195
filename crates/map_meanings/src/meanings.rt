//! What an entry of each map means.

ghost use Rattle.std.specs.Prelude.{◌≡◌, ◌+◌, IfOk, string_bytes};
ghost use Rattle.maglev.specs.Population.{share_of};
ghost use Rattle.map_meanings.specs.Meanings.{backend_meaning, backend_pieces, backend_text, count_meaning, end_pieces, flow_pieces};
ghost use Rattle.map_meanings.specs.Meanings.{flow_text, frames_of, frames_pieces, nobody, note_meaning, owner_text, ready_text, ready_words};
ghost use Rattle.map_meanings.specs.Meanings.{service_meaning, service_of_key, service_pieces, share_of_record, share_pieces, slot_meaning};
ghost use Rattle.map_meanings.specs.Meanings.{slot_pieces};
ghost use Rattle.map_meanings.specs.Meanings.{state_words, tracked_words, tunnel_meaning, tunnel_pieces, tunnel_text, verdict_words};

use crate::form::ContentsForm;
use crate::pieces::{
    address_of, address_text, count_of, dotted, index_of, mac_text, protocol_text, sized,
    truth_text,
};
use conntrack::{BackendRecord, FlowRecord, RingRecord, TunnelRecord, VipRecord};
use std::alloc::{AllocError, Global};
use wire::Ipv4Address;

// ---- services

fn tracked_words(is_notrack: bool) -> &'static str
    ensures { result.now ≡ tracked_words is_notrack }
{
    if is_notrack { " notrack" } else { "" }
}

/// A service, by the texts of its address and protocol.
fn service_pieces(
    alloc: Global,
    form: ContentsForm,
    address: &str,
    port: u32,
    protocol: &str,
    is_notrack: bool,
) -> Result<String, AllocError>
    ensures { IfOk result (λ text. string_bytes text ≡ service_pieces form address.now port protocol.now is_notrack) }
{
    let notrack = tracked_words(is_notrack);
    let tracked = truth_text(!is_notrack);
    match form {
        ContentsForm::Words => format!(in alloc; "vip {address} {port} {protocol}{notrack}"),
        ContentsForm::Json => format!(in alloc;
            "\"service\":\"{address}\",\"port\":{port},\"protocol\":\"{protocol}\",\"tracked\":{tracked}"
        ),
    }
}

/// A service, by its key.
fn service_of_key(
    alloc: Global,
    form: ContentsForm,
    key: &[u8; 8],
    is_notrack: bool,
) -> Result<String, AllocError>
    ensures { IfOk result (λ text. string_bytes text ≡ service_of_key form key.now is_notrack) }
{
    let address = dotted(alloc, key[0], key[1], key[2], key[3])?;
    let port = u32::from(key[4]) * 256 + u32::from(key[5]);
    let protocol = protocol_text(alloc, key[6])?;
    service_pieces(
        alloc,
        form,
        address.as_str(),
        port,
        protocol.as_str(),
        is_notrack,
    )
}

/// An entry of the map of services.
pub(crate) fn service_meaning(
    alloc: Global,
    form: ContentsForm,
    key: &[u8],
    value: &[u8],
) -> Result<String, AllocError>
    ensures { IfOk result (λ text. string_bytes text ≡ service_meaning form key.now value.now) }
{
    let vip = VipRecord::of(&sized::<8>(value));
    service_of_key(alloc, form, &sized::<8>(key), vip.is_notrack)
}

// ---- backends, where flows and slots lead to them

/// A backend, by the text of its address.
fn backend_pieces(
    alloc: Global,
    form: ContentsForm,
    number: u32,
    address: &str,
) -> Result<String, AllocError>
    ensures { IfOk result (λ text. string_bytes text ≡ backend_pieces form number address.now) }
{
    match form {
        ContentsForm::Words => format!(in alloc; "backend {number} {address}"),
        ContentsForm::Json => {
            format!(in alloc; "\"backend\":{number},\"address\":\"{address}\"")
        }
    }
}

/// The backend of this number.
fn backend_text(
    alloc: Global,
    form: ContentsForm,
    addresses: &[Ipv4Address],
    number: u32,
) -> Result<String, AllocError>
    ensures { IfOk result (λ text. string_bytes text ≡ backend_text form addresses.now number) }
{
    let address = address_text(alloc, address_of(addresses, number))?;
    backend_pieces(alloc, form, number, address.as_str())
}

// ---- notes of flows

/// One end of a flow, of this name, by the text of its address.
fn end_pieces(
    alloc: Global,
    form: ContentsForm,
    end: &str,
    address: &str,
    port: u32,
) -> Result<String, AllocError>
    ensures { IfOk result (λ text. string_bytes text ≡ end_pieces form end.now address.now port) }
{
    match form {
        ContentsForm::Words => format!(in alloc; "{address} {port}"),
        ContentsForm::Json => format!(in alloc; "\"{end}\":\"{address}\",\"{end}_port\":{port}"),
    }
}

/// A flow, by the texts of its ends and its protocol.
fn flow_pieces(
    alloc: Global,
    form: ContentsForm,
    source: &str,
    destination: &str,
    protocol: &str,
) -> Result<String, AllocError>
    ensures { IfOk result (λ text. string_bytes text ≡ flow_pieces form source.now destination.now protocol.now) }
{
    match form {
        ContentsForm::Words => format!(in alloc; "flow {source} {destination} {protocol} "),
        ContentsForm::Json => {
            format!(in alloc; "{source},{destination},\"protocol\":\"{protocol}\",")
        }
    }
}

/// A flow, by its key.
fn flow_text(alloc: Global, form: ContentsForm, key: &[u8; 16]) -> Result<String, AllocError>
    ensures { IfOk result (λ text. string_bytes text ≡ flow_text form key.now) }
{
    let source = dotted(alloc, key[0], key[1], key[2], key[3])?;
    let port = u32::from(key[8]) * 256 + u32::from(key[9]);
    let source = end_pieces(alloc, form, "source", source.as_str(), port)?;
    let destination = dotted(alloc, key[4], key[5], key[6], key[7])?;
    let port = u32::from(key[10]) * 256 + u32::from(key[11]);
    let destination = end_pieces(alloc, form, "destination", destination.as_str(), port)?;
    let protocol = protocol_text(alloc, key[12])?;
    flow_pieces(
        alloc,
        form,
        source.as_str(),
        destination.as_str(),
        protocol.as_str(),
    )
}

/// An entry of the map of flows.
pub(crate) fn note_meaning(
    alloc: Global,
    form: ContentsForm,
    addresses: &[Ipv4Address],
    key: &[u8],
    value: &[u8],
) -> Result<String, AllocError>
    ensures { IfOk result (λ text. string_bytes text ≡ note_meaning form addresses.now key.now value.now) }
{
    let mut text = flow_text(alloc, form, &sized::<16>(key))?;
    let note = FlowRecord::of(&sized::<8>(value));
    let backend = backend_text(alloc, form, addresses, note.backend)?;
    text.push_str(backend.as_str())?;
    Ok(text)
}

// ---- slots of the lookup table

/// A slot, by the text of its owner.
fn slot_pieces(
    alloc: Global,
    form: ContentsForm,
    slot: u32,
    owner: &str,
) -> Result<String, AllocError>
    ensures { IfOk result (λ text. string_bytes text ≡ slot_pieces form slot owner.now) }
{
    match form {
        ContentsForm::Words => format!(in alloc; "slot {slot} {owner}"),
        ContentsForm::Json => format!(in alloc; "\"slot\":{slot},{owner}"),
    }
}

fn nobody(form: ContentsForm) -> &'static str
    ensures { result.now ≡ nobody form }
{
    match form {
        ContentsForm::Words => "none",
        ContentsForm::Json => "\"backend\":null,\"address\":null",
    }
}

/// The owner of a slot.
fn owner_text(
    alloc: Global,
    form: ContentsForm,
    addresses: &[Ipv4Address],
    owner: Option<u32>,
) -> Result<String, AllocError>
    ensures { IfOk result (λ text. string_bytes text ≡ owner_text form addresses.now owner) }
{
    match owner {
        None => String::from_str(alloc, nobody(form)),
        Some(number) => backend_text(alloc, form, addresses, number),
    }
}

/// An entry of the lookup table.
pub(crate) fn slot_meaning(
    alloc: Global,
    form: ContentsForm,
    addresses: &[Ipv4Address],
    key: &[u8],
    value: &[u8],
) -> Result<String, AllocError>
    ensures { IfOk result (λ text. string_bytes text ≡ slot_meaning form addresses.now key.now value.now) }
{
    let slot = RingRecord::of(&sized::<8>(value));
    let owner = owner_text(alloc, form, addresses, slot.owner)?;
    slot_pieces(alloc, form, index_of(key), owner.as_str())
}

// ---- backends

fn state_words(is_up: bool) -> &'static str
    ensures { result.now ≡ state_words is_up }
{
    if is_up { "up" } else { "down" }
}

/// How many slots have the word of the backend of this number.
fn share_of(words: &[u32], number: u32) -> usize
    ensures { result ≡ share_of (number + 1) words.now }
{
    let wanted = u64::from(number) + 1;
    words
        .iter()
        .filter(|word| u64::from(**word) == wanted)
        .count()
}

/// A backend and its share, by the text of its address.
fn share_pieces(
    alloc: Global,
    form: ContentsForm,
    number: u32,
    address: &str,
    is_up: bool,
    slots: usize,
) -> Result<String, AllocError>
    ensures { IfOk result (λ text. string_bytes text ≡ share_pieces form number address.now is_up slots) }
{
    let state = state_words(is_up);
    let up = truth_text(is_up);
    match form {
        ContentsForm::Words => {
            format!(in alloc; "backend {number} {address} {state} slots {slots}")
        }
        ContentsForm::Json => format!(in alloc;
            "\"backend\":{number},\"address\":\"{address}\",\"up\":{up},\"slots\":{slots}"
        ),
    }
}

/// The backend of this number, by its record.
fn share_of_record(
    alloc: Global,
    form: ContentsForm,
    words: &[u32],
    number: u32,
    backend: &BackendRecord,
) -> Result<String, AllocError>
    ensures { IfOk result (λ text. string_bytes text ≡ share_of_record form words.now number backend.now) }
{
    let address = address_text(alloc, backend.address)?;
    let slots = share_of(words, number);
    share_pieces(alloc, form, number, address.as_str(), backend.is_up, slots)
}

/// An entry of the map of backends.
pub(crate) fn backend_meaning(
    alloc: Global,
    form: ContentsForm,
    words: &[u32],
    key: &[u8],
    value: &[u8],
) -> Result<String, AllocError>
    ensures { IfOk result (λ text. string_bytes text ≡ backend_meaning form words.now key.now value.now) }
{
    let backend = BackendRecord::of(&sized::<8>(value));
    share_of_record(alloc, form, words, index_of(key), &backend)
}

// ---- the tunnel

fn ready_words(is_ready: bool) -> &'static str
    ensures { result.now ≡ ready_words is_ready }
{
    if is_ready { "ready" } else { "not-ready" }
}

fn ready_text(form: ContentsForm, is_ready: bool) -> &'static str
    ensures { result.now ≡ ready_text form is_ready }
{
    match form {
        ContentsForm::Words => ready_words(is_ready),
        ContentsForm::Json => truth_text(is_ready),
    }
}

/// The tunnel, by the texts of its addresses and its state.
fn tunnel_pieces(
    alloc: Global,
    form: ContentsForm,
    source: &str,
    source_mac: &str,
    destination_mac: &str,
    ready: &str,
) -> Result<String, AllocError>
    ensures { IfOk result (λ text. string_bytes text ≡ tunnel_pieces form source.now source_mac.now destination_mac.now ready.now) }
{
    match form {
        ContentsForm::Words => {
            format!(in alloc; "gateway {source} {source_mac} {destination_mac} {ready}")
        }
        ContentsForm::Json => format!(in alloc;
            "\"source\":\"{source}\",\"source_mac\":\"{source_mac}\",\"destination_mac\":\"{destination_mac}\",\"ready\":{ready}"
        ),
    }
}

/// The tunnel of a record.
fn tunnel_text(
    alloc: Global,
    form: ContentsForm,
    tunnel: &TunnelRecord,
) -> Result<String, AllocError>
    ensures { IfOk result (λ text. string_bytes text ≡ tunnel_text form tunnel.now) }
{
    let source = address_text(alloc, tunnel.source)?;
    let source_mac = mac_text(alloc, tunnel.source_mac)?;
    let destination_mac = mac_text(alloc, tunnel.destination_mac)?;
    tunnel_pieces(
        alloc,
        form,
        source.as_str(),
        source_mac.as_str(),
        destination_mac.as_str(),
        ready_text(form, tunnel.is_ready),
    )
}

/// An entry of the map of the tunnel, of which only the first element is used.
pub(crate) fn tunnel_meaning(
    alloc: Global,
    form: ContentsForm,
    key: &[u8],
    value: &[u8],
) -> Result<String, AllocError>
    ensures { IfOk result (λ text. string_bytes text ≡ tunnel_meaning form key.now value.now) }
{
    if index_of(key) == 0 {
        let tunnel = TunnelRecord::of(&sized::<24>(value));
        return tunnel_text(alloc, form, &tunnel);
    }
    Ok(String::new(alloc))
}

// ---- counts of verdicts

/// The verdict of this number; there are four.
fn verdict_words(index: u32) -> &'static str
    ensures { result.now ≡ verdict_words index }
{
    match index {
        0 => "ABORTED",
        1 => "DROP",
        2 => "PASS",
        3 => "TX",
        _ => "",
    }
}

/// How many frames got a verdict.
fn frames_pieces(
    alloc: Global,
    form: ContentsForm,
    verdict: &str,
    frames: u64,
) -> Result<String, AllocError>
    ensures { IfOk result (λ text. string_bytes text ≡ frames_pieces form verdict.now frames) }
{
    match form {
        ContentsForm::Words => format!(in alloc; "verdict {verdict} frames {frames}"),
        ContentsForm::Json => format!(in alloc; "\"verdict\":\"{verdict}\",\"frames\":{frames}"),
    }
}

/// The same; nothing where there is no verdict.
fn frames_of(
    alloc: Global,
    form: ContentsForm,
    verdict: &str,
    frames: u64,
) -> Result<String, AllocError>
    ensures { IfOk result (λ text. string_bytes text ≡ frames_of form verdict.now frames) }
{
    if verdict.is_empty() {
        return Ok(String::new(alloc));
    }
    frames_pieces(alloc, form, verdict, frames)
}

/// An entry of the counts of verdicts.
pub(crate) fn count_meaning(
    alloc: Global,
    form: ContentsForm,
    key: &[u8],
    value: &[u8],
) -> Result<String, AllocError>
    ensures { IfOk result (λ text. string_bytes text ≡ count_meaning form key.now value.now) }
{
    let verdict = verdict_words(index_of(key));
    frames_of(alloc, form, verdict, count_of(value))
}
