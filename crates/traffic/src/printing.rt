//! The lines of a replay's traffic, for people.

ghost use Rattle.std.specs.Prelude.{◌≡◌, ◌++◌, ◌<◌, ◌^◌, ℕ, IfOk, OnOk, List, string_bytes};
ghost use Rattle.wire.specs.declared.records.Sent.{Sent as Frame};
ghost use Rattle.traffic.specs.Counting.{count_to, how_many_to};
ghost use Rattle.traffic.specs.Moving.{moves_in};
ghost use Rattle.traffic.specs.SummaryText.{address_number_text, count_line, dotted, frames_word, IsSummaryOfSent, line_about};
ghost use Rattle.traffic.specs.SummaryText.{phrase_of, target_line, target_phrase, targets_text};
ghost use Rattle.traffic.specs.Tallies.{kind_line, kind_lines};

use crate::counts::count_at;
use crate::kind::FrameKind;
use crate::tunnels::Targets;
use std::alloc::{AllocError, Global};

/// The kinds, in the order in which they are printed.
pub(crate) const KINDS: [FrameKind; 13] = [
    FrameKind::Short,
    FrameKind::Ipv6,
    FrameKind::Arp,
    FrameKind::Vlan,
    FrameKind::OtherType,
    FrameKind::Malformed,
    FrameKind::Options,
    FrameKind::Fragment,
    FrameKind::Icmp,
    FrameKind::OtherProtocol,
    FrameKind::Expired,
    FrameKind::Large,
    FrameKind::Flow,
];

/// What is said of frames that went elsewhere than the frame of their flow before.
const MOVED: &str = "sent to another address than the frame of their flow before";

/// What a frame of the kind is, in words.
fn phrase_of(kind: FrameKind) -> &'static str
    ensures { result.now ≡ phrase_of kind }
{
    match kind {
        FrameKind::Short => "of fewer than 14 bytes",
        FrameKind::Ipv6 => "of IPv6",
        FrameKind::Arp => "of ARP",
        FrameKind::Vlan => "with a VLAN tag",
        FrameKind::OtherType => "of another Ethernet type",
        FrameKind::Malformed => "of IPv4, cut or with lengths that disagree",
        FrameKind::Options => "of IPv4 with options",
        FrameKind::Fragment => "of IPv4 in fragments",
        FrameKind::Icmp => "of ICMP",
        FrameKind::OtherProtocol => "of another protocol over IPv4",
        FrameKind::Expired => "of TCP or UDP with a time to live of 0",
        FrameKind::Large => "of TCP or UDP in packets of more than 1480 bytes",
        FrameKind::Flow => "of TCP or UDP that fit into a tunnel",
    }
}

/// One frame, or several.
fn frames_word(count: u64) -> &'static str
    ensures { result.now ≡ frames_word count }
{
    if count == 1 { "frame" } else { "frames" }
}

/// The line of this many frames.
fn count_line(alloc: Global, count: u64, word: &str, phrase: &str) -> Result<String, AllocError>
    ensures { IfOk result (λ line. string_bytes line ≡ count_line count word.now phrase.now) }
{
    format!(in alloc; "{count} {word} {phrase}\n")
}

/// Appends the line with this text and the number of such frames, if there are any.
pub(crate) fn put_line(
    alloc: Global,
    text: &mut String,
    count: u64,
    phrase: &str,
) -> Result<(), AllocError>
    ensures { OnOk result (string_bytes text.new ≡ string_bytes text.old ++ line_about count phrase.now) }
{
    if count == 0 {
        return Ok(());
    }
    text.push_str(&count_line(alloc, count, frames_word(count), phrase)?)
}

/// Appends the line of a kind, if there is such a frame.
fn put_kind(
    alloc: Global,
    text: &mut String,
    kind: FrameKind,
    counts: &[u64],
) -> Result<(), AllocError>
    ensures { OnOk result (string_bytes text.new ≡ string_bytes text.old ++ kind_line counts.now kind) }
{
    put_line(alloc, text, count_at(counts, kind.place()), phrase_of(kind))
}

/// Appends a line for each of the kinds that has a frame, by the counts of all kinds in their order.
pub(crate) fn put_kinds(
    alloc: Global,
    text: &mut String,
    kinds: &[FrameKind],
    counts: &[u64],
) -> Result<(), AllocError>
    ensures { OnOk result (string_bytes text.new ≡ string_bytes text.old ++ kind_lines counts.now kinds.now) }
{
    'kinds: for kind in kinds {
        put_kind(alloc, text, *kind, counts)?;
    }
    Ok(())
}

/// Four numbers with points between them.
pub(crate) fn dotted(
    alloc: Global,
    first: u32,
    second: u32,
    third: u32,
    last: u32,
) -> Result<String, AllocError>
    ensures { IfOk result (λ text. string_bytes text ≡ dotted first second third last) }
{
    format!(in alloc; "{first}.{second}.{third}.{last}")
}

/// The text of an address.
pub(crate) fn address_text(alloc: Global, address: u32) -> Result<String, AllocError>
    ensures { IfOk result (λ text. string_bytes text ≡ address_number_text address) }
{
    dotted(
        alloc,
        address / 16_777_216,
        address / 65_536 % 256,
        address / 256 % 256,
        address % 256,
    )
}

/// What is said of frames that were sent to an address.
fn target_phrase(alloc: Global, address: &str) -> Result<String, AllocError>
    ensures { IfOk result (λ phrase. string_bytes phrase ≡ target_phrase address.now) }
{
    format!(in alloc; "sent to {address}")
}

/// Appends the line of an address.
fn put_target(alloc: Global, text: &mut String, address: u32, count: u64) -> Result<(), AllocError>
    ensures { OnOk result (string_bytes text.new ≡ string_bytes text.old ++ target_line (address, count)) }
{
    let name = address_text(alloc, address)?;
    let phrase = target_phrase(alloc, name.as_str())?;
    put_line(alloc, text, count, phrase.as_str())
}

/// Appends the lines of all addresses.
fn put_targets(alloc: Global, text: &mut String, targets: &[(u32, u64)]) -> Result<(), AllocError>
    ensures { OnOk result (string_bytes text.new ≡ string_bytes text.old ++ targets_text targets.now) }
{
    'targets: for target in targets {
        put_target(alloc, text, target.0, target.1)?;
    }
    Ok(())
}

/// Appends what is said of sent frames, of which so many go where, and so many went elsewhere than the frame of their flow before.
pub(crate) fn put_sent(
    alloc: Global,
    text: &mut String,
    counts: &Targets,
    moves: u64,
) -> Result<(), AllocError>
    ensures { OnOk result ((sent : List Frame) → ((address : ℕ) → count_to counts.now address ≡ how_many_to address sent) →
        moves ≡ moves_in sent → IsSummaryOfSent sent (string_bytes text.old) (string_bytes text.new)) }
{
    let targets = counts.list(alloc)?;
    put_targets(alloc, text, &targets)?;
    put_line(alloc, text, moves, MOVED)?;
    Ok(())
}
