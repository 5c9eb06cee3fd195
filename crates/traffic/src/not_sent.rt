//! Which services the frames are for, and why frames of flows were not sent; of another program than the shipped one, what became of them.

ghost use Rattle.std.specs.Prelude.{◌≡◌, ◌++◌, ◌≤◌, IfOk, OnOk, length, slice_get, string_bytes};
ghost use Rattle.traffic.specs.NotSent.{end_phrase, how_many_ended, how_many_for, is_end, is_for, is_not_sent, is_record_not_sent, is_to};
ghost use Rattle.traffic.specs.NotSent.{not_sent_below, reason_phrase, service_named, service_phrase, words_of_service};
ghost use Rattle.traffic.specs.Tallies.{counted_end, counted_ends, counted_line, counted_lines, counted_reasons, place_of_end, place_of_reason};
ghost use Rattle.traffic.specs.Tallies.{reason_line};

use crate::counts::count_at;
use crate::kind::FrameKind;
use crate::moves::one_if;
use crate::printing::{dotted, put_line};
use crate::record_line::LineVerdict;
use conntrack::Service;
use control::{Action, Command, transport_text};
use std::alloc::{AllocError, Global};
use wire::{Sent, word_at};

/// Why a frame of a flow was not sent, by the steering rule.
#[derive(Clone, Copy, Debug, PartialEq, Eq)]
pub enum NotSent {
    /// It is for no service: it passes.
    NoService,
    /// It is for a service, and its time to live is 0: it is dropped.
    Expired,
    /// It is for a service, and too large for a tunnel: it is dropped.
    Large,
    /// It is for a service, and no tunnel is set up, or neither the backend that is noted for its flow nor the one that its slot of the
    /// ring names is up: it is dropped.
    NoBackend,
}

/// The reasons, in the order in which they are printed.
pub(crate) const REASONS: [NotSent; 4] = [
    NotSent::NoService,
    NotSent::Expired,
    NotSent::Large,
    NotSent::NoBackend,
];

impl NotSent {
    /// Whether a frame of this kind, whose run came to this verdict, was not sent for this reason.
    pub fn applies(self, kind: FrameKind, verdict: LineVerdict) -> bool
        ensures { result ≡ is_not_sent self kind verdict }
    {
        match verdict {
            LineVerdict::Pass => match self {
                NotSent::NoService => kind.has_flow(),
                _ => false,
            },
            LineVerdict::Drop => match self {
                NotSent::NoService => false,
                NotSent::Expired => matches!(kind, FrameKind::Expired),
                NotSent::Large => matches!(kind, FrameKind::Large),
                NotSent::NoBackend => matches!(kind, FrameKind::Flow),
            },
            _ => false,
        }
    }

    /// The reason in words.
    fn phrase(self) -> &'static str
        ensures { result.now ≡ reason_phrase self }
    {
        match self {
            NotSent::NoService => "passed, for no service",
            NotSent::Expired => "dropped, with a time to live of 0",
            NotSent::Large => "dropped, in packets of more than 1480 bytes",
            NotSent::NoBackend => "dropped, without a tunnel or a backend that is up",
        }
    }

    /// Whether the record of this number was not sent for this reason.
    fn applies_at(self, frames: &[Sent], verdicts: &[LineVerdict], place: usize) -> bool
        ensures { result ≡ is_record_not_sent self (slice_get frames.now place) (slice_get verdicts.now place) }
    {
        let Some(sent) = frames.get(place) else {
            return false;
        };
        let Some(verdict) = verdicts.get(place) else {
            return false;
        };
        self.applies(FrameKind::of(&sent.bytes), *verdict)
    }

    /// The place of the reason in their order, from 0.
    fn place(self) -> usize
        ensures { result ≡ place_of_reason self }
    {
        match self {
            NotSent::NoService => 0,
            NotSent::Expired => 1,
            NotSent::Large => 2,
            NotSent::NoBackend => 3,
        }
    }

    /// How many records were not sent for this reason.
    pub(crate) fn count(self, frames: &[Sent], verdicts: &[LineVerdict]) -> u64
        ensures { result ≡ not_sent_below self frames.now verdicts.now (length frames.now) }
    {
        let mut count = 0;
        'places: for place in 0..frames.len() {
            count += one_if(self.applies_at(frames, verdicts, place));
        }
        count
    }
}

/// Appends the line of a reason, if a record was not sent for it.
fn put_reason(
    alloc: Global,
    text: &mut String,
    reason: NotSent,
    counts: &[u64],
) -> Result<(), AllocError>
    ensures { OnOk result (string_bytes text.new ≡ string_bytes text.old ++ reason_line counts.now reason) }
{
    put_line(
        alloc,
        text,
        count_at(counts, reason.place()),
        reason.phrase(),
    )
}

/// Appends a line for each of these reasons for which a record was not sent, by the counts of all reasons in their order.
pub(crate) fn put_reasons(
    alloc: Global,
    text: &mut String,
    reasons: &[NotSent],
    counts: &[u64],
) -> Result<(), AllocError>
    ensures { OnOk result (string_bytes text.new ≡ string_bytes text.old ++ counted_reasons counts.now reasons.now) }
{
    'reasons: for reason in reasons {
        put_reason(alloc, text, *reason, counts)?;
    }
    Ok(())
}

/// Whether the packet is sent to this address.
fn is_to(address: &[u8; 4], frame: &[u8]) -> bool
    requires { 38 ≤ length frame.now }
    ensures { result ≡ is_to address.now frame.now }
{
    frame[30] == address[0]
        && frame[31] == address[1]
        && frame[32] == address[2]
        && frame[33] == address[3]
}

/// Whether a frame has a flow to the service.
pub fn is_for(service: &Service, frame: &[u8]) -> bool
    ensures { result ≡ is_for service.now frame.now }
{
    FrameKind::of(frame).has_flow()
        && frame.len() >= 38
        && is_to(&service.address.0, frame)
        && word_at(frame, 36) == service.port
        && frame[23] == service.transport.number()
}

/// How many of the frames have.
pub(crate) fn count_for(service: &Service, frames: &[Sent]) -> usize
    ensures { result ≡ how_many_for service.now frames.now }
{
    frames
        .iter()
        .filter(|sent| is_for(service, &sent.bytes))
        .count()
}

/// What is printed of frames for a service.
fn service_phrase(alloc: Global, service: &Service) -> Result<String, AllocError>
    ensures { IfOk result (λ text. string_bytes text ≡ service_phrase service.now) }
{
    let bytes = service.address.0;
    let address = dotted(
        alloc,
        u32::from(bytes[0]),
        u32::from(bytes[1]),
        u32::from(bytes[2]),
        u32::from(bytes[3]),
    )?;
    phrase_of(
        alloc,
        address.as_str(),
        service.port,
        transport_text(service.transport),
    )
}

/// The words of a service's phrase.
fn phrase_of(alloc: Global, address: &str, port: u16, transport: &str) -> Result<String, AllocError>
    ensures { IfOk result (λ text. string_bytes text ≡ words_of_service address.now port transport.now) }
{
    format!(in alloc; "for {address} port {port} {transport}")
}

/// Appends the line of the service that a command names, if so many frames are for it and there are some.
fn put_command(
    alloc: Global,
    text: &mut String,
    command: &Command,
    count: u64,
) -> Result<(), AllocError>
    ensures { OnOk result (string_bytes text.new ≡ string_bytes text.old ++ counted_line count (service_named command.now.action)) }
{
    match command.action {
        Action::Vip { service, .. } => {
            let phrase = service_phrase(alloc, &service)?;
            put_line(alloc, text, count, phrase.as_str())
        }
        _ => Ok(()),
    }
}

/// Appends the lines of all services of a script, where these are the counts of their frames, one for each command.
pub(crate) fn put_services(
    alloc: Global,
    text: &mut String,
    script: &[Command],
    counts: &[u64],
) -> Result<(), AllocError>
    ensures { OnOk result (length counts.now ≡ length script.now →
        string_bytes text.new ≡ string_bytes text.old ++ counted_lines script.now counts.now) }
{
    let mut place = 0;
    'commands: for command in script {
        put_command(alloc, text, command, count_at(counts, place))?;
        place += 1;
    }
    Ok(())
}

/// The ends of runs that have lines of their own, in the order in which they are printed.
pub(crate) const ENDS: [LineVerdict; 4] = [
    LineVerdict::Pass,
    LineVerdict::Drop,
    LineVerdict::Aborted,
    LineVerdict::Tx,
];

/// Whether a record ended so.
fn is_end(end: LineVerdict, verdict: LineVerdict) -> bool
    ensures { result ≡ is_end end verdict }
{
    match end {
        LineVerdict::Short => matches!(verdict, LineVerdict::Short),
        LineVerdict::Stopped => matches!(verdict, LineVerdict::Stopped),
        LineVerdict::Aborted => matches!(verdict, LineVerdict::Aborted),
        LineVerdict::Drop => matches!(verdict, LineVerdict::Drop),
        LineVerdict::Pass => matches!(verdict, LineVerdict::Pass),
        LineVerdict::Tx => matches!(verdict, LineVerdict::Tx),
    }
}

/// How many of the records ended so.
pub(crate) fn count_ended(end: LineVerdict, verdicts: &[LineVerdict]) -> usize
    ensures { result ≡ how_many_ended end verdicts.now }
{
    verdicts
        .iter()
        .filter(|verdict| is_end(end, **verdict))
        .count()
}

/// What a program did with a frame, in words.
fn end_phrase(end: LineVerdict) -> &'static str
    ensures { result.now ≡ end_phrase end }
{
    match end {
        LineVerdict::Pass => "passed, by the program",
        LineVerdict::Drop => "dropped, by the program",
        LineVerdict::Aborted => "aborted, by the program",
        LineVerdict::Tx => "sent, by the program",
        LineVerdict::Short => "too short to be run",
        LineVerdict::Stopped => "whose runs a full journal stopped",
    }
}

/// The place of an end in the order of those that have lines, from 0; the others come behind.
fn place_of_end(end: LineVerdict) -> usize
    ensures { result ≡ place_of_end end }
{
    match end {
        LineVerdict::Pass => 0,
        LineVerdict::Drop => 1,
        LineVerdict::Aborted => 2,
        LineVerdict::Tx => 3,
        LineVerdict::Short => 4,
        LineVerdict::Stopped => 5,
    }
}

/// Appends the line of an end, if a record has it.
fn put_end(
    alloc: Global,
    text: &mut String,
    end: LineVerdict,
    counts: &[u64],
) -> Result<(), AllocError>
    ensures { OnOk result (string_bytes text.new ≡ string_bytes text.old ++ counted_end counts.now end) }
{
    put_line(
        alloc,
        text,
        count_at(counts, place_of_end(end)),
        end_phrase(end),
    )
}

/// Appends a line for each of these ends that a record has, by the counts of those that have lines in their order.
pub(crate) fn put_ends(
    alloc: Global,
    text: &mut String,
    ends: &[LineVerdict],
    counts: &[u64],
) -> Result<(), AllocError>
    ensures { OnOk result (string_bytes text.new ≡ string_bytes text.old ++ counted_ends counts.now ends.now) }
{
    'ends: for end in ends {
        put_end(alloc, text, *end, counts)?;
    }
    Ok(())
}
