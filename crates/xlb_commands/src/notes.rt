//! Lines for people below the report of a replay.

ghost use Rattle.journals.specs.LegalJournals.{AreLegal};

use crate::last_table::put_shares;
use crate::replays::Asked;
use crate::summing::{Moved, MovedBy, Summing, Sums};
use command_line::{DEFAULT_FLOWS, DEFAULT_RING};
use control::{Action, ControlFault, Script};
use journals::Journals;
use replay::{Applied, Counts, Outcome, ToldEnd};
use std::alloc::{AllocError, Global};
use text_lines::cut;
use traffic::Refused;
use wire::Capture;

/// The room that a full journal may still have: no run enters a shard without room for its Leave.
const LAST: u64 = 1;

/// The records of a capture that a replay does not have as they were on the wire.
#[derive(Clone, Copy, Debug, Default)]
pub(crate) struct Altered {
    /// How many records have fewer bytes than the frames that were captured.
    pub cut: u64,
    /// How many records are skipped because they keep more than 2048 bytes.
    pub long: u64,
    /// How many records got zeros for the bytes that their frames had and they do not keep.
    pub padded: u64,
    /// How many bytes at the capture's end were left out: those of a record that is cut short.
    pub left_over: usize,
    /// How many whole records the capture has, where it was altered.
    pub whole: u64,
}

impl Altered {
    /// Whether there is any such record.
    pub(crate) fn is_any(self) -> bool {
        self.cut > 0 || self.long > 0 || self.padded > 0 || self.left_over > 0
    }
}

/// What is printed below the report of a replay.
#[derive(Clone, Copy)]
pub(crate) struct Notes<'a> {
    pub altered: Altered,
    /// The slots of the shipped program's lookup table.
    pub ring: u32,
    /// The notes of its flow table.
    pub flows: u32,
    /// The image's file, if one is named.
    pub image: Option<&'a str>,
    /// Whether the program is one of steering.
    pub is_steering: bool,
    /// Whether commands take effect at exact moments.
    pub exact: bool,
    /// Whether the summary of the traffic is printed.
    pub summary: bool,
}

impl<'a> Notes<'a> {
    /// The notes of what is asked for.
    pub(crate) fn of(asked: Asked<'a>, altered: Altered) -> Notes<'a> {
        Notes {
            altered,
            ring: asked.ring,
            flows: asked.flows,
            image: asked.files.image,
            is_steering: asked.files.is_steering,
            exact: asked.exact,
            summary: asked.summary,
        }
    }
}

impl Notes<'_> {
    /// The lines of a replay; an empty text where there is nothing to say.
    pub(crate) fn text(
        &self,
        alloc: Global,
        capture: &Capture,
        script: &Script,
        outcome: &Outcome,
    ) -> Result<String, AllocError>
        requires { AreLegal outcome.now.journals }
    {
        let mut summing = Summing::new(alloc, self.summary, script);
        summing.note(
            alloc,
            script,
            &capture.records,
            &outcome.sent,
            &outcome.ends,
        );
        let stopped = first_stopped(&outcome.ends);
        self.text_of_pieces(alloc, script, outcome, stopped, &summing)
    }

    /// The lines of a replay whose records came in pieces, so that the outcome may have no sent frames and no ends. `stopped` is the first
    /// record, counted from 0, whose run was stopped.
    pub(crate) fn text_of_pieces(
        &self,
        alloc: Global,
        script: &Script,
        outcome: &Outcome,
        stopped: Option<usize>,
        summing: &Summing,
    ) -> Result<String, AllocError>
        requires { AreLegal outcome.now.journals }
    {
        let mut text = self.lines(alloc, script, outcome, stopped)?;
        match summing {
            Summing::Unasked => {}
            Summing::Counted(sums) => {
                self.put_summary(alloc, &mut text, sums, script, &outcome.journals)?;
            }
            Summing::Lost => return Err(AllocError),
        }
        Ok(text)
    }

    /// The lines that need no records.
    fn lines(
        &self,
        alloc: Global,
        script: &Script,
        outcome: &Outcome,
        stopped: Option<usize>,
    ) -> Result<String, AllocError> {
        let mut text = String::new(alloc);
        put_refused(alloc, &mut text, script, &outcome.refused)?;
        self.put_moments(&mut text, script)?;
        put_late(alloc, &mut text, script, records_in(outcome.counts))?;
        self.put_ring(alloc, &mut text)?;
        self.put_flows(alloc, &mut text)?;
        self.put_uneven(alloc, &mut text, script)?;
        self.put_long(alloc, &mut text)?;
        self.put_padded(alloc, &mut text)?;
        self.put_cut(alloc, &mut text)?;
        self.put_left_over(alloc, &mut text)?;
        if outcome.counts.stopped > 0 {
            put_stopped(alloc, &mut text, stopped)?;
            put_full(alloc, &mut text, &outcome.journals)?;
        }
        Ok(text)
    }

    /// What the capture has, where its frames went, why others were not sent, or of another program than the shipped one what it did with
    /// frames, and which frames went elsewhere than the frame of their flow before.
    fn put_summary(
        &self,
        alloc: Global,
        text: &mut String,
        sums: &Sums,
        script: &Script,
        journals: &Journals,
    ) -> Result<(), AllocError>
        requires { AreLegal journals.now }
    {
        text.push_str(&sums.frames.text(alloc)?)?;
        if self.image.is_none() {
            put_moved_by(alloc, text, &sums.moved.by)?;
        }
        let lines = match self.image {
            None => sums.records.services(alloc, script)?,
            Some(_) => sums.records.by_program(alloc, script)?,
        };
        text.push_str(lines.as_str())?;
        if self.is_steering {
            put_shares(alloc, text, journals)?;
        }
        put_moved(alloc, text, &sums.moved)
    }

    /// Commands behind the first frame, whose moments are not exact.
    fn put_moments(&self, text: &mut String, script: &Script) -> Result<(), AllocError> {
        if self.exact || !script.commands().iter().any(|command| command.frame > 0) {
            return Ok(());
        }
        text.push_str(
            "commands with a number above 0 may take effect up to some 64 frames for each worker too early, or later: --exact makes their moments exact\n",
        )
    }

    /// A size of the lookup table that is not used.
    fn put_ring(&self, alloc: Global, text: &mut String) -> Result<(), AllocError> {
        let ring = self.ring;
        if self.image.is_none() || ring == DEFAULT_RING {
            return Ok(());
        }
        let line = format!(in alloc;
            "--ring {ring} has no effect: it is the size of the shipped program's lookup table\n"
        )?;
        text.push_str(line.as_str())
    }

    /// A size of the flow table that is not used.
    fn put_flows(&self, alloc: Global, text: &mut String) -> Result<(), AllocError> {
        let flows = self.flows;
        if self.image.is_none() || flows == DEFAULT_FLOWS {
            return Ok(());
        }
        let line = format!(in alloc;
            "--flows {flows} has no effect: it is the size of the shipped program's flow table\n"
        )?;
        text.push_str(line.as_str())
    }

    /// A lookup table with few slots for each backend: then some have many more than others.
    fn put_uneven(
        &self,
        alloc: Global,
        text: &mut String,
        script: &Script,
    ) -> Result<(), AllocError> {
        let ring = self.ring;
        let most = most_up(script);
        let low = ring.checked_div(most).unwrap_or(FEW_SLOTS);
        if self.image.is_some() || low >= FEW_SLOTS || ring.checked_rem(most) == Some(0) {
            return Ok(());
        }
        let high = low.saturating_add(1);
        let line = format!(in alloc;
            "with {most} backends up, each has {low} or {high} of the lookup table's {ring} slots: a larger --ring N, at most 65537, with \
             --no-journals, is more even\n"
        )?;
        text.push_str(line.as_str())
    }

    /// Records that were skipped.
    fn put_long(&self, alloc: Global, text: &mut String) -> Result<(), AllocError> {
        let long = self.altered.long;
        if long == 0 {
            return Ok(());
        }
        let line = format!(in alloc; "long {long}: records above 2048 bytes were skipped\n")?;
        text.push_str(line.as_str())
    }

    /// Records that were filled with zeros.
    fn put_padded(&self, alloc: Global, text: &mut String) -> Result<(), AllocError> {
        let padded = self.altered.padded;
        if padded == 0 {
            return Ok(());
        }
        let line = format!(in alloc;
            "padded {padded}: these records were filled with zeros, to the length of their frames\n"
        )?;
        text.push_str(line.as_str())
    }

    /// The record within which the capture ends.
    fn put_left_over(&self, alloc: Global, text: &mut String) -> Result<(), AllocError> {
        let left_over = self.altered.left_over;
        if left_over == 0 {
            return Ok(());
        }
        let record = self.altered.whole.saturating_add(1);
        let line = format!(in alloc;
            "left out {left_over}: bytes of record {record}, within which the capture ends\n"
        )?;
        text.push_str(line.as_str())
    }

    /// Records that were cut when they were captured.
    fn put_cut(&self, alloc: Global, text: &mut String) -> Result<(), AllocError> {
        let cut = self.altered.cut;
        if cut == 0 {
            return Ok(());
        }
        let line = format!(in alloc;
            "cut {cut}: bytes were left out when these records were captured, and such a frame may be passed as malformed: --pad-cut fills them up\n"
        )?;
        text.push_str(line.as_str())
    }
}

/// With fewer slots for a backend than this, the shares of two that are up differ by more than a twentieth.
const FEW_SLOTS: u32 = 20;

/// How many backends are up behind an action, if it is carried out, of so many before it.
fn up_behind(is_up: &mut [bool; 256], action: Action, now: u32) -> u32 {
    let (backend, up) = match action {
        Action::Up { backend, .. } => (backend, true),
        Action::Down { backend } => (backend, false),
        _ => return now,
    };
    let Some(was) = is_up.get_mut(backend as usize) else {
        return now;
    };
    let before = *was;
    *was = up;
    match (before, up) {
        (false, true) => now.saturating_add(1),
        (true, false) => now.saturating_sub(1),
        _ => now,
    }
}

/// The most backends that a script has up when a frame is run, if each of its commands is carried out.
fn most_up(script: &Script) -> u32 {
    let commands = script.commands();
    let mut is_up = [false; 256];
    let mut now: u32 = 0;
    let mut most: u32 = 0;
    'commands: for number in 0..commands.len() {
        now = up_behind(&mut is_up, commands[number].action, now);
        match commands.get(number.saturating_add(1)) {
            Some(next) if next.frame == commands[number].frame => {}
            _ => most = most.max(now),
        }
    }
    most
}

/// How many records there were.
fn records_in(counts: Counts) -> u64 {
    let ended = counts
        .aborted
        .saturating_add(counts.drop)
        .saturating_add(counts.pass)
        .saturating_add(counts.tx);
    ended
        .saturating_add(counts.short)
        .saturating_add(counts.stopped)
}

/// The commands that come behind the last record: numbers in a script never fall, so they are its last ones.
fn put_late(
    alloc: Global,
    text: &mut String,
    script: &Script,
    records: u64,
) -> Result<(), AllocError> {
    let commands = script.commands();
    let first = commands.iter().position(|command| command.frame > 0
        && u64::from(command.frame) >= records);
    let Some(place) = first else {
        return Ok(());
    };
    let line = place.saturating_add(1);
    let more = commands.len().saturating_sub(line);
    let others = match more {
        0 => format!(in alloc; "comes")?,
        _ => format!(in alloc; "and {more} more come")?,
    };
    let others = others.as_str();
    text.push_str(&format!(in alloc;
        "line {line} of the script {others} behind the last record: no frame is run after that\n"
    )?)
}

/// The most commands that have lines of their own.
const MOST_LINES: usize = 10;

/// The lines of the commands that were refused while the lookup tables of a script were made.
pub(crate) fn about_refused(
    alloc: Global,
    script: &Script,
    refused: &[Refused],
) -> Result<String, AllocError> {
    let mut commands = Vec::new(alloc);
    for one in refused {
        commands.push(Applied {
            command: one.place,
            fault: Some(one.fault),
        })?;
    }
    let mut text = String::new(alloc);
    put_refused(alloc, &mut text, script, &commands)?;
    Ok(text)
}

/// Which commands of the script were refused, and why: the line of each, which is its only command.
fn put_refused(
    alloc: Global,
    text: &mut String,
    script: &Script,
    refused: &[Applied],
) -> Result<(), AllocError> {
    if refused.is_empty() {
        return Ok(());
    }
    let lines = script.text(alloc)?;
    for one in refused.iter().take(MOST_LINES) {
        let Some(command) = script.commands().get(one.command) else {
            return Ok(());
        };
        put_command(alloc, text, lines.as_str(), one, command.action)?;
    }
    if refused.len() > MOST_LINES {
        let more = refused.len().saturating_sub(MOST_LINES);
        text.push_str(&format!(in alloc; "and {more} more commands of the script\n")?)?;
    }
    Ok(())
}

/// A command that was refused.
fn put_command(
    alloc: Global,
    text: &mut String,
    lines: &str,
    one: &Applied,
    action: Action,
) -> Result<(), AllocError> {
    let Some(fault) = one.fault else {
        return Ok(());
    };
    let command = line_at(lines, one.command);
    let line = one.command.saturating_add(1);
    let why = why_refused(fault, action);
    text.push_str(&format!(in alloc; "line {line} of the script, {command}: {why}\n")?)
}

/// The line at a place of a text, from 0; empty where there is none.
fn line_at(text: &str, place: usize) -> &str {
    let mut rest = text;
    for _ in 0..place {
        let (_, later) = cut(rest, '\n');
        rest = later;
    }
    let (line, _) = cut(rest, '\n');
    line
}

/// Why this command was refused.
fn why_refused(fault: ControlFault, action: Action) -> &'static str {
    match fault {
        ControlFault::UnknownBackend => match action {
            Action::Down { .. } => "no such backend is up",
            _ => "a backend's number is below 256 and below the ring's size",
        },
        ControlFault::BackendTwice => "this number or this address is up",
        ControlFault::Refused { answer } if answer == -12 =>
            "the map refused it: no cell is free until retired ones are reclaimed",
        ControlFault::Refused { .. } => "the map refused it: it is full",
        ControlFault::JournalFull =>
            "a journal is full: --journal N, at most 1048576, --shards N, at most 8, and --no-journals make more room",
        ControlFault::Memory => "there was no memory for it",
        _ => "it was refused",
    }
}

/// The first record, counted from 0, whose run a full journal stopped.
pub(crate) fn first_stopped(ends: &[ToldEnd]) -> Option<usize> {
    ends.iter()
        .position(|end| matches!(end, ToldEnd::Stopped { .. }))
}

/// The same record, counted from 1.
fn put_stopped(alloc: Global, text: &mut String, stopped: Option<usize>) -> Result<(), AllocError> {
    let Some(place) = stopped else {
        return Ok(());
    };
    let record = place.saturating_add(1);
    let line = format!(in alloc; "record {record} is the first whose run was stopped\n")?;
    text.push_str(line.as_str())
}

/// Which journals are full, and what makes more room.
fn put_full(alloc: Global, text: &mut String, journals: &Journals) -> Result<(), AllocError> {
    'shards: for number in 0..journals.count() {
        let held = journals.len(number) as u64;
        if held.saturating_add(LAST) >= journals.options().journal as u64 {
            put_shard(alloc, text, number, journals.options().shards as usize)?;
        }
    }
    text.push_str(
        "frames whose run needs a full journal are not run to their end: --no-journals has room for all, --journal N and --shards N \
         (at most 1048576 and 8) for more\n",
    )
}

/// A shard whose journal is full.
fn put_shard(
    alloc: Global,
    text: &mut String,
    number: usize,
    shards: usize,
) -> Result<(), AllocError> {
    let map = number.checked_div(shards).unwrap_or(0);
    let line = format!(in alloc; "the journal of shard {number} is full, of map {map}\n")?;
    text.push_str(line.as_str())
}

/// Of the frames that went elsewhere than the frame of their flow before, how many did so by which choice of the shipped program.
fn put_moved_by(alloc: Global, text: &mut String, by: &MovedBy) -> Result<(), AllocError> {
    put_of_these(
        alloc,
        text,
        by.note_down,
        "because the noted backend is not up",
    )?;
    put_of_these(alloc, text, by.no_note, "because the flow has no note")?;
    put_of_these(
        alloc,
        text,
        by.untracked,
        "because the service is without tracking",
    )?;
    put_of_these(alloc, text, by.noted, "by the flow's note")
}

/// A line for so many of the frames that the line before counts, if there are any.
fn put_of_these(
    alloc: Global,
    text: &mut String,
    count: usize,
    why: &str,
) -> Result<(), AllocError> {
    if count == 0 {
        return Ok(());
    }
    text.push_str(&format!(in alloc; "{count} of these {why}\n")?)
}

/// The records whose frames went elsewhere than the frame of their flow before: the first ten.
fn put_moved(alloc: Global, text: &mut String, moved: &Moved) -> Result<(), AllocError> {
    for record in &moved.first {
        put_record(alloc, text, *record)?;
    }
    put_more(alloc, text, moved.more)
}

/// How many such records have no line.
fn put_more(alloc: Global, text: &mut String, more: usize) -> Result<(), AllocError> {
    if more == 0 {
        return Ok(());
    }
    text.push_str(&format!(in alloc; "and {more} more records\n")?)
}

/// The line of such a record, counted from 0 here and from 1 there.
fn put_record(alloc: Global, text: &mut String, number: usize) -> Result<(), AllocError> {
    let record = number as u128 + 1;
    let line = format!(in alloc;
        "record {record} went to another address than the frame of its flow before\n"
    )?;
    text.push_str(line.as_str())
}
