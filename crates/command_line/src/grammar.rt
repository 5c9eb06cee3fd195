//! The commands, their words and their help.

ghost use Rattle.std.specs.Prelude.{◌≡◌, IfOk, codes, false, length};
ghost use Rattle.clap.specs.Words.{app_of, new_app, rule_of};
ghost use Rattle.clap.specs.declared.builder.command.Command.TheViews.{out-Command};
ghost use Rattle.command_line.specs.CommandLine as line;

use crate::help::{
    after_asm, after_audit, after_check, after_compare, after_disasm, after_explain, after_flows,
    after_page, after_replay, after_run, after_script, after_shipped, after_table,
};
use clap::builder::ValueParser;
use clap::{Arg, ArgAction, Command};
use std::alloc::{AllocError, Global};

/// The file of an image.
pub const IMAGE: &str = "IMAGE";

/// The file of a frame's bytes.
pub const FRAME: &str = "FRAME";

/// The file of journals.
pub const JOURNALS: &str = "JOURNALS";

/// The file of an image's text.
pub const TEXT: &str = "TEXT";

/// The file that is written.
pub const OUT: &str = "OUT";

/// The number or the name of a fault.
pub const FAULT: &str = "FAULT";

/// Whether a check explains its result.
pub const EXPLAIN: &str = "explain";

/// Whether a text is in the source form.
pub const SOURCE: &str = "source";

/// The time of a run.
pub const NOW: &str = "now";

/// The worker of a run.
pub const WORKER: &str = "worker";

/// The file of a capture.
pub const CAPTURE: &str = "CAPTURE";

/// The capture that is written.
pub const SENT: &str = "SENT";

/// The image of a replay.
pub const REPLAY_IMAGE: &str = "image";

/// The image of a replay that may have a script.
pub const PROGRAM: &str = "program";

/// Whether the commands of a replay take effect at exact moments.
pub const EXACT: &str = "exact";

/// Whether a replay prints what its traffic was.
pub const SUMMARY: &str = "summary";

/// Whether a replay skips the records of a capture that are too long for a frame.
pub const SKIP_LONG: &str = "skip-long";

/// Whether a replay fills up records that were cut when they were captured.
pub const PAD_CUT: &str = "pad-cut";

/// Whether a replay reads a capture that ends within a record.
pub const ALLOW_CUT: &str = "allow-cut";

/// The part of a capture that a replay takes.
pub const PART: &str = "part";

/// The part that is lost within the capture.
pub const LOST: &str = "lost";

/// Whether a replay that leaves something out is done in part.
pub const STRICT: &str = "strict";

/// Whether a replay writes over no file.
pub const NO_CLOBBER: &str = "no-clobber";

/// The file of a timed script.
pub const TIMED: &str = "TIMED";

/// The first of two reports.
pub const FIRST: &str = "FIRST";

/// The second of two reports.
pub const SECOND: &str = "SECOND";

/// A report that was written.
pub const WRITTEN_REPORT: &str = "REPORT";

/// The switch with which no rows of journals are kept.
pub const NO_JOURNALS: &str = "no-journals";

/// The file to which a replay writes a line for each record.
pub const REPORT: &str = "report";

/// The script of a replay.
pub const SCRIPT: &str = "script";

/// The script whose tables are printed.
pub const TABLE_SCRIPT: &str = "SCRIPT";

/// How many workers a replay has.
pub const WORKERS: &str = "workers";

/// How many shards each map has.
pub const SHARDS: &str = "shards";

/// The room of each journal.
pub const JOURNAL: &str = "journal";

/// The size of the ring.
pub const RING: &str = "ring";

/// The size of the flow table.
pub const FLOWS: &str = "flows";

/// A value that is set before a run, or before the first frame of a replay.
pub const UPDATE: &str = "update";

/// The file of journals that a run or a replay writes.
pub const JOURNALS_OUT: &str = "journals";

/// The file of what the maps hold after a run or a replay, which it writes.
pub const MAPS_OUT: &str = "maps";

const ABOUT: &str =
    "Replays captures through eBPF programs; checks, runs, audits, prints and assembles them";

const VERSION: &str = "0.2.0";

const AFTER: &str = "\
A file that cannot be read, or that is refused, is reported on the standard
error as `fault <number> <name>` with its fields, and the status is 1. The
status is 2 if the command line is wrong, and 0 if the command was done.
'xlb <COMMAND> --help' describes a command, and 'xlb explain <FAULT>' a fault.
The file - is the standard input, or where a file is written the standard
output; what the command prints goes to the standard error then.";

/// A file, or another word, that has to be given.
fn file<'a>(alloc: Global, id: &'a str, help: &'a str) -> Arg<'a>
    ensures rule { rule_of result ≡ line.argument_rule id.entry.now }
    ensures local { result.global ≡ false }
{
    Arg::new(alloc, id)
        .required(true)
        .action(ArgAction::Set)
        .help(help)
}

/// A file that may be named by an option.
fn option<'a>(alloc: Global, id: &'a str, help: &'a str) -> Arg<'a>
    ensures rule { rule_of result ≡ line.option_rule id.entry.now }
    ensures local { result.global ≡ false }
{
    Arg::new(alloc, id)
        .long(id)
        .action(ArgAction::Set)
        .value_name("FILE")
        .help(help)
}

/// The part of a capture, which may be given.
fn part<'a>(alloc: Global) -> Arg<'a>
    ensures rule { rule_of result ≡ line.option_rule (codes "part") }
    ensures local { result.global ≡ false }
{
    Arg::new(alloc, PART)
        .long(PART)
        .action(ArgAction::Set)
        .value_name("K/N")
        .help("Replays part K of N, counted from 0: the frames of some of the flows")
}

/// The loss of a part, which may be given.
fn lost<'a>(alloc: Global) -> Arg<'a>
    ensures rule { rule_of result ≡ line.option_rule (codes "lost") }
    ensures local { result.global ≡ false }
{
    Arg::new(alloc, LOST)
        .long(LOST)
        .action(ArgAction::Set)
        .value_name("J@RECORD")
        .help("Loses part J behind so many records: the other parts have its flows then")
}

/// An option of three words that may be given any number of times.
fn three_words<'a>(alloc: Global, id: &'a str, names: &'a [&'a str], help: &'a str) -> Arg<'a>
    requires three { length names.now ≡ 3 }
    ensures rule { rule_of result ≡ line.three_words_rule id.entry.now }
    ensures local { result.global ≡ false }
{
    Arg::new(alloc, id)
        .long(id)
        .action(ArgAction::Append)
        .value_names(names)
        .help(help)
}

/// A value that is set in a map, by three words.
fn update<'a>(alloc: Global, help: &'a str) -> Arg<'a>
    ensures rule { rule_of result ≡ line.three_words_rule (codes "update") }
    ensures local { result.global ≡ false }
{
    three_words(alloc, UPDATE, &["MAP", "KEY", "VALUE"], help)
}

/// A number that may be given, at most `most`.
fn number<'a>(alloc: Global, id: &'a str, most: u64, default: &'a str, help: &'a str) -> Arg<'a>
    ensures rule { rule_of result ≡ line.number_rule id.entry.now most default.entry.now }
    ensures local { result.global ≡ false }
{
    Arg::new(alloc, id)
        .long(id)
        .action(ArgAction::Set)
        .value_name("N")
        .value_parser(ValueParser::unsigned(0, most))
        .default_value(default)
        .help(help)
}

/// A number of 32 bits that may be given.
fn count<'a>(alloc: Global, id: &'a str, default: &'a str, help: &'a str) -> Arg<'a>
    ensures rule { rule_of result ≡ line.count_rule id.entry.now default.entry.now }
    ensures local { result.global ≡ false }
{
    number(alloc, id, u32::MAX as u64, default, help)
}

/// A switch, which is off where it is not given.
fn switch<'a>(alloc: Global, id: &'a str, help: &'a str) -> Arg<'a>
    ensures rule { rule_of result ≡ line.switch_rule id.entry.now }
    ensures local { result.global ≡ false }
{
    Arg::new(alloc, id)
        .long(id)
        .action(ArgAction::SetTrue)
        .help(help)
}

/// A command of a name, with its help, and as yet no words.
fn command<'a>(alloc: Global, name: &'a str, about: &'a str, after: &'a str) -> Command<'a>
    ensures app { app_of result ≡ new_app name.entry.now }
    ensures local { (out-Command result).has_globals ≡ false }
{
    Command::new(alloc, name).about(about).after_help(after)
}

fn check<'a>(alloc: Global) -> Result<Command<'a>, AllocError>
    ensures app { IfOk result (λ command. app_of command ≡ line.check_command) }
    ensures local { IfOk result (λ command. (out-Command command).has_globals ≡ false) }
{
    let image = file(alloc, IMAGE, "The file of the image, or of a source");
    let explain = switch(alloc, EXPLAIN, "Explains the result");
    command(alloc, "check", "Judges an image or a source", after_check())
        .arg(image)?
        .arg(explain)
}

/// The command with the file of what the maps hold at the end.
fn with_maps<'a>(alloc: Global, command: Command<'a>) -> Result<Command<'a>, AllocError>
    requires local { (out-Command command).has_globals ≡ false }
    ensures app { IfOk result (λ added. app_of added ≡ line.with_maps (app_of command.entry)) }
    ensures local { IfOk result (λ added. (out-Command added).has_globals ≡ false) }
{
    let maps = option(
        alloc,
        MAPS_OUT,
        "The file to write the maps' entries to; if its name ends in .json or .jsonl, as JSON lines",
    );
    command.arg(maps)
}

/// The words of a run that name files.
fn run_files<'a>(alloc: Global) -> Result<Command<'a>, AllocError>
    ensures app { IfOk result (λ command. app_of command ≡ line.run_files) }
    ensures local { IfOk result (λ command. (out-Command command).has_globals ≡ false) }
{
    let files = two_files(
        alloc,
        "run",
        "Runs an image on one frame",
        after_run(),
        (IMAGE, "The image's file"),
        (FRAME, "The file of the frame's bytes, 14 to 2048 of them"),
    )?;
    let journals = option(alloc, JOURNALS_OUT, "The file to write the journals to");
    with_maps(alloc, files.arg(journals)?)
}

fn run<'a>(alloc: Global) -> Result<Command<'a>, AllocError>
    ensures app { IfOk result (λ command. app_of command ≡ line.run_command) }
    ensures local { IfOk result (λ command. (out-Command command).has_globals ≡ false) }
{
    let updates = update(alloc, "Sets a value before the run");
    let now = number(alloc, NOW, u64::MAX, "0", "The time in nanoseconds");
    let worker = count(alloc, WORKER, "0", "The worker's number, 0 to 7");
    run_files(alloc)?.arg(updates)?.arg(now)?.arg(worker)
}

fn disasm<'a>(alloc: Global) -> Result<Command<'a>, AllocError>
    ensures app { IfOk result (λ command. app_of command ≡ line.disasm_command) }
    ensures local { IfOk result (λ command. (out-Command command).has_globals ≡ false) }
{
    let image = file(alloc, IMAGE, "The image's file");
    let source = switch(alloc, SOURCE, "Prints the source form");
    command(alloc, "disasm", "Prints an image as text", after_disasm())
        .arg(image)?
        .arg(source)
}

fn asm<'a>(alloc: Global) -> Result<Command<'a>, AllocError>
    ensures app { IfOk result (λ command. app_of command ≡ line.asm_command) }
    ensures local { IfOk result (λ command. (out-Command command).has_globals ≡ false) }
{
    let text = file(alloc, TEXT, "The text's file");
    let out = file(alloc, OUT, "The file to write the image to");
    let source = switch(alloc, SOURCE, "Reads the source form");
    command(alloc, "asm", "Writes the image of a text", after_asm())
        .arg(text)?
        .arg(out)?
        .arg(source)
}

/// A command of two files, or other words, that have to be given: the name of each, and its help.
fn two_files<'a>(
    alloc: Global,
    name: &'a str,
    about: &'a str,
    after: &'a str,
    first: (&'a str, &'a str),
    second: (&'a str, &'a str),
) -> Result<Command<'a>, AllocError>
    ensures app { IfOk result (λ command. app_of command ≡ line.two_files name.entry.now first.entry.0.now second.entry.0.now) }
    ensures local { IfOk result (λ command. (out-Command command).has_globals ≡ false) }
{
    let first = file(alloc, first.0, first.1);
    let second = file(alloc, second.0, second.1);
    command(alloc, name, about, after).arg(first)?.arg(second)
}

fn audit<'a>(alloc: Global) -> Result<Command<'a>, AllocError>
    ensures app { IfOk result (λ command. app_of command ≡ line.audit_command) }
    ensures local { IfOk result (λ command. (out-Command command).has_globals ≡ false) }
{
    two_files(
        alloc,
        "audit",
        "Checks whether journals are legal",
        after_audit(),
        (IMAGE, "The image's file"),
        (JOURNALS, "The file of the journals"),
    )
}

fn explain<'a>(alloc: Global) -> Result<Command<'a>, AllocError>
    ensures app { IfOk result (λ command. app_of command ≡ line.explain_command) }
    ensures local { IfOk result (λ command. (out-Command command).has_globals ≡ false) }
{
    let fault = file(alloc, FAULT, "The fault's number or name");
    command(alloc, "explain", "Explains a fault", after_explain()).arg(fault)
}

/// The size of the shipped program's ring.
fn ring<'a>(alloc: Global) -> Arg<'a>
    ensures rule { rule_of result ≡ line.ring_rule }
    ensures local { result.global ≡ false }
{
    count(
        alloc,
        RING,
        "251",
        "The slots of the shipped program's ring: 7, 251, 4093 or 65537",
    )
}

/// The size of the shipped program's flow table.
fn flow_notes<'a>(alloc: Global) -> Arg<'a>
    ensures rule { rule_of result ≡ line.flows_rule }
    ensures local { result.global ≡ false }
{
    count(
        alloc,
        FLOWS,
        "4096",
        "The flows that the shipped program notes: 4096, 8192, 16384, 32768, 65536, 131072",
    )
}

fn shipped<'a>(alloc: Global) -> Result<Command<'a>, AllocError>
    ensures app { IfOk result (λ command. app_of command ≡ line.shipped_command) }
    ensures local { IfOk result (λ command. (out-Command command).has_globals ≡ false) }
{
    let out = file(alloc, OUT, "The file to write the image to");
    command(
        alloc,
        "shipped",
        "Writes the image of the shipped program",
        after_shipped(),
    )
    .arg(out)?
    .arg(ring(alloc))?
    .arg(flow_notes(alloc))
}

fn table<'a>(alloc: Global) -> Result<Command<'a>, AllocError>
    ensures app { IfOk result (λ command. app_of command ≡ line.table_command) }
    ensures local { IfOk result (λ command. (out-Command command).has_globals ≡ false) }
{
    let script = file(alloc, TABLE_SCRIPT, "The controller's script");
    command(
        alloc,
        "table",
        "Prints the lookup table after each command of a script",
        after_table(),
    )
    .arg(script)?
    .arg(ring(alloc))
}

/// The command with the words of a replay that name the other files that it reads.
fn with_inputs<'a>(alloc: Global, command: Command<'a>) -> Result<Command<'a>, AllocError>
    requires local { (out-Command command).has_globals ≡ false }
    ensures app { IfOk result (λ added. app_of added ≡ line.with_inputs (app_of command.entry)) }
    ensures local { IfOk result (λ added. (out-Command added).has_globals ≡ false) }
{
    let image = option(
        alloc,
        REPLAY_IMAGE,
        "The image's file; without it the shipped program is run",
    );
    let program = option(
        alloc,
        PROGRAM,
        "The image's file, over the maps of steering; not with --image",
    );
    let script = option(alloc, SCRIPT, "The controller's script; not with --image");
    command.arg(image)?.arg(program)?.arg(script)
}

/// The command with the words of a replay that name the other files that it writes.
fn with_outputs<'a>(alloc: Global, command: Command<'a>) -> Result<Command<'a>, AllocError>
    requires local { (out-Command command).has_globals ≡ false }
    ensures app { IfOk result (λ added. app_of added ≡ line.with_outputs (app_of command.entry)) }
    ensures local { IfOk result (λ added. (out-Command added).has_globals ≡ false) }
{
    let journals = option(alloc, JOURNALS_OUT, "The file to write the journals to");
    let report = option(
        alloc,
        REPORT,
        "The file to write a line for each record to; JSON if named .json or .jsonl",
    );
    with_maps(alloc, command.arg(journals)?.arg(report)?)
}

/// The command with the words of a replay that name its other files.
fn with_files<'a>(alloc: Global, command: Command<'a>) -> Result<Command<'a>, AllocError>
    requires local { (out-Command command).has_globals ≡ false }
    ensures app { IfOk result (λ added. app_of added ≡ line.with_files (app_of command.entry)) }
    ensures local { IfOk result (λ added. (out-Command added).has_globals ≡ false) }
{
    let inputs = with_inputs(alloc, command)?;
    with_outputs(alloc, inputs)
}

/// The command with the words that set values, and say how the shards are opened.
fn with_shards<'a>(alloc: Global, command: Command<'a>) -> Result<Command<'a>, AllocError>
    requires local { (out-Command command).has_globals ≡ false }
    ensures app { IfOk result (λ added. app_of added ≡ line.with_shards (app_of command.entry)) }
    ensures local { IfOk result (λ added. (out-Command added).has_globals ≡ false) }
{
    let updates = update(
        alloc,
        "Sets a value before the first frame; with --image or --program",
    );
    let workers = count(alloc, WORKERS, "1", "How many workers, 1 to 8");
    let shards = count(
        alloc,
        SHARDS,
        "1",
        "How many shards each map has: 1, 2, 4 or 8",
    );
    let journal = count(
        alloc,
        JOURNAL,
        "65536",
        "How many calls each shard may have, 16 to 1048576",
    );
    command
        .arg(updates)?
        .arg(workers)?
        .arg(shards)?
        .arg(journal)
}

/// The command with the sizes of the lookup table and of the flow table.
fn with_tables<'a>(alloc: Global, command: Command<'a>) -> Result<Command<'a>, AllocError>
    requires local { (out-Command command).has_globals ≡ false }
    ensures app { IfOk result (λ added. app_of added ≡ line.with_tables (app_of command.entry)) }
    ensures local { IfOk result (λ added. (out-Command added).has_globals ≡ false) }
{
    command.arg(ring(alloc))?.arg(flow_notes(alloc))
}

/// The command with the switches for exact moments and for a summary.
fn with_moments<'a>(alloc: Global, command: Command<'a>) -> Result<Command<'a>, AllocError>
    requires local { (out-Command command).has_globals ≡ false }
    ensures app { IfOk result (λ added. app_of added ≡ line.with_moments (app_of command.entry)) }
    ensures local { IfOk result (λ added. (out-Command added).has_globals ≡ false) }
{
    let exact = switch(
        alloc,
        EXACT,
        "Applies each command exactly between the frames before and after it",
    );
    let summary = switch(
        alloc,
        SUMMARY,
        "Prints the kinds of frames and where frames were sent, on the standard error",
    );
    command.arg(exact)?.arg(summary)
}

/// The command with the switches that say how what is cut is read.
fn with_cuts<'a>(alloc: Global, command: Command<'a>) -> Result<Command<'a>, AllocError>
    requires local { (out-Command command).has_globals ≡ false }
    ensures app { IfOk result (λ added. app_of added ≡ line.with_cuts (app_of command.entry)) }
    ensures local { IfOk result (λ added. (out-Command added).has_globals ≡ false) }
{
    let pad_cut = switch(
        alloc,
        PAD_CUT,
        "Fills records that were cut up with zeros, to the length of their frames",
    );
    let allow_cut = switch(
        alloc,
        ALLOW_CUT,
        "Reads a capture that ends within a record up to there",
    );
    command.arg(pad_cut)?.arg(allow_cut)
}

/// The command with the switches that say how the records of a capture are read.
fn with_reading<'a>(alloc: Global, command: Command<'a>) -> Result<Command<'a>, AllocError>
    requires local { (out-Command command).has_globals ≡ false }
    ensures app { IfOk result (λ added. app_of added ≡ line.with_reading (app_of command.entry)) }
    ensures local { IfOk result (λ added. (out-Command added).has_globals ≡ false) }
{
    let skip_long = switch(
        alloc,
        SKIP_LONG,
        "Skips records of more than 2048 bytes in place of refusing the capture",
    );
    with_cuts(alloc, command.arg(skip_long)?)
}

/// The command with the words that say which part of the records is replayed, and which part is lost.
fn with_parts<'a>(alloc: Global, command: Command<'a>) -> Result<Command<'a>, AllocError>
    requires local { (out-Command command).has_globals ≡ false }
    ensures app { IfOk result (λ added. app_of added ≡ line.with_parts (app_of command.entry)) }
    ensures local { IfOk result (λ added. (out-Command added).has_globals ≡ false) }
{
    command.arg(part(alloc))?.arg(lost(alloc))
}

/// The command with the switches that refuse omissions, and keep files that are there.
fn with_cares<'a>(alloc: Global, command: Command<'a>) -> Result<Command<'a>, AllocError>
    requires local { (out-Command command).has_globals ≡ false }
    ensures app { IfOk result (λ added. app_of added ≡ line.with_cares (app_of command.entry)) }
    ensures local { IfOk result (λ added. (out-Command added).has_globals ≡ false) }
{
    let strict = switch(
        alloc,
        STRICT,
        "Ends with status 1 where a run was stopped, or a record or a command left out",
    );
    let no_clobber = switch(
        alloc,
        NO_CLOBBER,
        "Refuses to write a file that is there already",
    );
    command.arg(strict)?.arg(no_clobber)
}

/// The command with the switch that leaves out journals, and these.
fn with_limits<'a>(alloc: Global, command: Command<'a>) -> Result<Command<'a>, AllocError>
    requires local { (out-Command command).has_globals ≡ false }
    ensures app { IfOk result (λ added. app_of added ≡ line.with_limits (app_of command.entry)) }
    ensures local { IfOk result (λ added. (out-Command added).has_globals ≡ false) }
{
    let no_journals = switch(
        alloc,
        NO_JOURNALS,
        "Keeps no rows of journals, so that each shard may have 4000000000 calls",
    );
    with_cares(alloc, command.arg(no_journals)?)
}

/// A new word of a replay goes into the function of its kind, and into the definition of that name in specs/CommandLine.
fn replay<'a>(alloc: Global) -> Result<Command<'a>, AllocError>
    ensures app { IfOk result (λ command. app_of command ≡ line.replay_command) }
    ensures local { IfOk result (λ command. (out-Command command).has_globals ≡ false) }
{
    let named = two_files(
        alloc,
        "replay",
        "Runs the frames of a capture by some workers",
        after_replay(),
        (CAPTURE, "The capture's file, in the pcap format"),
        (SENT, "The file to write the sent frames to"),
    )?;
    let files = with_files(alloc, named)?;
    let shards = with_shards(alloc, files)?;
    let tables = with_tables(alloc, shards)?;
    let moments = with_moments(alloc, tables)?;
    let reading = with_reading(alloc, moments)?;
    let parts = with_parts(alloc, reading)?;
    with_limits(alloc, parts)
}

fn script<'a>(alloc: Global) -> Result<Command<'a>, AllocError>
    ensures app { IfOk result (λ command. app_of command ≡ line.script_command) }
    ensures local { IfOk result (λ command. (out-Command command).has_globals ≡ false) }
{
    let files = two_files(
        alloc,
        "script",
        "Prints the script that a timed script means for a capture",
        after_script(),
        (CAPTURE, "The capture's file, in the pcap format"),
        (TIMED, "The file of the timed script"),
    )?;
    with_reading(alloc, files)
}

fn compare<'a>(alloc: Global) -> Result<Command<'a>, AllocError>
    ensures app { IfOk result (λ command. app_of command ≡ line.compare_command) }
    ensures local { IfOk result (λ command. (out-Command command).has_globals ≡ false) }
{
    two_files(
        alloc,
        "compare",
        "Compares the reports of two replays of a capture",
        after_compare(),
        (FIRST, "The file of a report"),
        (SECOND, "The file of the report to compare it with"),
    )
}

/// A command that reads the report of a replay, and its script.
fn looking_back<'a>(
    alloc: Global,
    name: &'a str,
    about: &'a str,
    after: &'a str,
) -> Result<Command<'a>, AllocError>
    ensures app { IfOk result (λ command. app_of command ≡ line.looking_back name.entry.now) }
    ensures local { IfOk result (λ command. (out-Command command).has_globals ≡ false) }
{
    two_files(
        alloc,
        name,
        about,
        after,
        (WRITTEN_REPORT, "The file of the replay's report"),
        (TABLE_SCRIPT, "The file of the replay's script"),
    )
}

/// The program's commands.
pub fn program<'a>(alloc: Global) -> Result<Command<'a>, AllocError>
    ensures app { IfOk result (λ command. app_of command ≡ line.program) }
    ensures local { IfOk result (λ command. (out-Command command).has_globals ≡ false) }
{
    let top = Command::new(alloc, "xlb")
        .bin_name("xlb")?
        .about(ABOUT)
        .version(VERSION)
        .after_help(AFTER)
        .subcommand_required(true);
    top.subcommand(check(alloc)?)?
        .subcommand(run(alloc)?)?
        .subcommand(disasm(alloc)?)?
        .subcommand(asm(alloc)?)?
        .subcommand(audit(alloc)?)?
        .subcommand(explain(alloc)?)?
        .subcommand(replay(alloc)?)?
        .subcommand(shipped(alloc)?)?
        .subcommand(table(alloc)?)?
        .subcommand(script(alloc)?)?
        .subcommand(compare(alloc)?)?
        .subcommand(looking_back(
            alloc,
            "flows",
            "Prints what became of each flow of a replay",
            after_flows(),
        )?)?
        .subcommand(looking_back(
            alloc,
            "page",
            "Prints a page of HTML that shows a replay",
            after_page(),
        )?)
}
