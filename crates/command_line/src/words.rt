//! The command line, read.

ghost use Rattle.std.specs.Prelude.{◌&&◌, ℕ, ◌≡◌, ◌≢◌, ◌⊎◌, true, ◌<◌, ◌+◌, ◌*◌, ◌/◌, List, [], None, Some};
ghost use Rattle.std.specs.Prelude.{IfOk, IfErr, IfSome, IsFalse, MatchOption, length, map, codes};
ghost use Rattle.std.specs.Str.{bytes_eq};
ghost use Rattle.faults.specs.Explanations.{is_fault};
ghost use Rattle.faults.specs.FaultTable.{IsRowOf};
ghost use Rattle.clap.specs.Kinds.{FailsBy, IsAmong};
ghost use Rattle.clap.specs.Walk.{first_of, texts};
ghost use Rattle.map_updates.specs.UpdateWords.{IsWritten, AreMistakenWords};
ghost use Rattle.clap.specs.Words.{Row, Text, fault_of, found_of, rows_of, subcommand_of};
ghost use Rattle.command_line.specs.CommandLine.{program};
ghost use Rattle.command_line.specs.Reading.{IsReadFrom, IsAsked, IsBadUpdate, IsCommand, IsSwitchOf, AreReplayUpdates, AreRunFiles, AreUpdates};
ghost use Rattle.command_line.specs.Reading.{IsFirstName, IsName, SaysFault, SaysNone, Writes};
ghost use Rattle.command_line.specs.Reading.{AreReplayFiles, AreReplayOptions, AsksInVain, IsNumberOf, IsOfOneProgram, IsReadingOf};
ghost use Rattle.command_line.specs.Reading.{are_both_given, are_updates_alone, first_given, has_journals, has_program, has_updates, kind_of_fault, text_of, word_at};
ghost use Rattle.command_line.specs.Reading.{argument_word, words_of, AsksNoPart, IsLossAsked, IsPartAsked};
ghost use Rattle.clap.specs.declared.error.kind.ErrorKind.TheVariants.{DisplayHelp, DisplayVersion, OutOfMemory};

use crate::commanded::first_of_commands;
use crate::commands::{
    DEFAULT_FLOWS, DEFAULT_RING, Reading, ReplayFiles, ReplaySettings, RunFiles, Settings,
};
use crate::grammar::{
    ALLOW_CUT, CAPTURE, EXACT, EXPLAIN, FAULT, FIRST, FLOWS, FRAME, IMAGE, JOURNAL, JOURNALS,
    JOURNALS_OUT, LOST, MAPS_OUT, NO_CLOBBER, NO_JOURNALS, NOW, OUT, PAD_CUT, PART, PROGRAM,
    REPLAY_IMAGE, REPORT, RING, SCRIPT, SECOND, SENT, SHARDS, SKIP_LONG, SOURCE, STRICT, SUMMARY,
    TABLE_SCRIPT, TEXT, TIMED, UPDATE, WORKER, WORKERS, WRITTEN_REPORT, program,
};
use crate::part_word::{part_losing, part_said};
use clap::{ArgMatches, Error};
use faults::Explanation;
use fleet::Part;
use map_updates::{MapUpdate, Mistake, update_of};
use semantics::Options;
use std::alloc::Global;
use std::convert::AsStr;
use std::{fmt, io};

/// What is printed for a replay of both an image and a script.
const TOGETHER: &str = "error: the options --image and --script cannot be used together";

/// What is printed for a replay of two images.
const TWO_IMAGES: &str = "error: the options --image and --program cannot be used together";

/// What is printed for a replay with a file for journals that keep no rows.
const NO_ROWS: &str = "error: the options --journals and --no-journals cannot be used together";

/// What is printed for a replay of the shipped program with updates.
const NO_IMAGE: &str = "error: the option --update cannot be used without --image or --program";

/// What is printed of an update of a map that commands set, behind its number.
const COMMANDED: &str =
    "with --program only the maps 1 and 5 can be set, since commands of a script set the others";

/// What is printed for a replay with a loss that is of no part.
const NO_PART: &str = "error: the option --lost cannot be used without --part";

/// What is printed of a loss that is none, before its word.
const NO_LOSS: &str =
    "error: --lost takes J@RECORD, where J counts from 0 and is below the N of --part, which is at least 2, and not";

/// Why words are no command, or which text they ask for: help or the version.
#[derive(Debug, Drop)]
pub enum WordsFault<'a> {
    /// The parser's own answer, whose text is for the user.
    Parser(Error),
    /// No fault has the number or the name that was asked about.
    UnknownFault(&'a str),
    /// A replay has both an image and a script.
    Both,
    /// A replay has two images, of `--image` and of `--program`.
    TwoImages,
    /// A replay has updates, and neither `--image` nor `--program`.
    UpdatesAlone,
    /// A replay with `--program` has an update, at this place among its updates, from 0, of a map that commands of a script set.
    OfCommands { place: usize },
    /// A replay has a file for journals that keep no rows.
    JournalsOfNone,
    /// An update of a run or a replay, at this place among its updates, from 0, is malformed; or memory was refused for it.
    Update { place: usize, mistake: Mistake },
    /// A replay has a part whose word is not K/N, with K below N.
    NoPart(&'a str),
    /// A replay has a loss and no `--part`.
    LostAlone,
    /// A replay of part K/N has a loss whose word is not J@RECORD, with J below N and N at least 2.
    NoLoss(&'a str),
}

/// What words ask for that the parser finds no fault in.
#[derive(Debug, Drop)]
enum AskedWords<'a> {
    /// A command.
    Command(Settings<'a>),
    /// What a word means that is neither the number nor the name of a fault.
    NoSuchFault(&'a str),
    /// A replay of both an image and a script.
    ImageAndScript,
    /// A replay of both `--image` and `--program`.
    ImageAndProgram,
    /// A replay of the shipped program with updates.
    UpdatesAlone,
    /// A replay with `--program` and an update of a map that commands of a script set.
    OfCommands { place: usize },
    /// A replay of both `--journals` and `--no-journals`.
    JournalsOfNone,
    /// A run or a replay with a malformed update.
    NoUpdate { place: usize, mistake: Mistake },
    /// A replay of a part whose word is that of none.
    NoPart(&'a str),
    /// A replay with `--lost` and without `--part`.
    LostAlone,
    /// A replay of a part with a loss whose word is that of none.
    NoLoss(&'a str),
}

impl WordsFault<'_> {
    /// The status that the program ends with: 0 where help or the version was asked for, 2 for a mistake.
    pub fn status(&self) -> u8
        ensures shown { (kind_of_fault self.now ≡ DisplayHelp) ⊎ (kind_of_fault self.now ≡ DisplayVersion) → result ≡ 0 }
        ensures mistake { (kind_of_fault self.now ≢ DisplayHelp) → (kind_of_fault self.now ≢ DisplayVersion) → result ≡ 2 }
    {
        match self {
            WordsFault::Parser(error) => { if error.use_stderr() { 2 } else { 0 } }
            WordsFault::UnknownFault(_) => 2,
            WordsFault::Both => 2,
            WordsFault::TwoImages => 2,
            WordsFault::UpdatesAlone => 2,
            WordsFault::OfCommands { .. } => 2,
            WordsFault::JournalsOfNone => 2,
            WordsFault::Update { .. } => 2,
            WordsFault::NoPart(_) => 2,
            WordsFault::LostAlone => 2,
            WordsFault::NoLoss(_) => 2,
        }
    }

    /// Prints the text: help and the version on the standard output, a mistake on the standard error.
    pub fn print<R: Print + Eprint>(&self, rt: &R) -> io::Result<()> {
        match self {
            WordsFault::Parser(error) => error.print(rt),
            other => eprintln!(rt; "{other}"),
        }
    }
}

impl fmt::Display for WordsFault<'_> {
    fn fmt<W: fmt::Write>(&self, f: &mut fmt::Formatter<W>) -> fmt::Result {
        match self {
            WordsFault::Parser(error) => write!(f, "{error}"),
            WordsFault::UnknownFault(word) => write!(f, "error: there is no fault {word}"),
            WordsFault::Both => write!(f, "{TOGETHER}"),
            WordsFault::TwoImages => write!(f, "{TWO_IMAGES}"),
            WordsFault::UpdatesAlone => write!(f, "{NO_IMAGE}"),
            WordsFault::OfCommands { place } => {
                let number = place.saturating_add(1);
                write!(f, "error: update {number}: {COMMANDED}")
            }
            WordsFault::JournalsOfNone => write!(f, "{NO_ROWS}"),
            WordsFault::Update { place, mistake } => {
                let number = place.saturating_add(1);
                write!(f, "error: update {number}: {mistake}")
            }
            WordsFault::NoPart(word) => {
                write!(
                    f,
                    "error: --part takes K/N, where K counts from 0 and is below N, and not {word}"
                )
            }
            WordsFault::LostAlone => write!(f, "{NO_PART}"),
            WordsFault::NoLoss(word) => write!(f, "{NO_LOSS} {word}"),
        }
    }
}

/// The command that the words say; the first word is the program's name.
///
/// There is one exactly where the parser finds no fault in the words, and they don't ask what a word means that is no fault, for a
/// replay of both an image and a script or of two images, for one with updates and without `--image`, for one with a file for journals that
/// keep no rows, for a run or a replay with a malformed update, for a replay of a part that is not K/N, for one with a loss and no part, or
/// with one that is not J@RECORD. Of several of these the first in this order is the fault. A fault is of the first kind that the parser
/// finds, or one of these, or memory was refused.
pub fn settings<'a, S: AsStr>(alloc: Global, words: &'a [S]) -> Result<Settings<'a>, WordsFault<'a>>
    ensures found { IfOk result (λ settings. (name : Text) × (rows : List Row)
        × (subcommand_of program (map S.text words.entry.now) ≡ Some (name, rows)) × IsReadFrom name rows settings) }
    ensures faultless { IfOk result (λ _. fault_of program (map S.text words.entry.now) ≡ []) }
    ensures faulty { IfErr result (λ fault. (kind_of_fault fault ≡ OutOfMemory)
        ⊎ IsAmong (kind_of_fault fault) (fault_of program (map S.text words.entry.now))
        ⊎ ((name : Text) × (rows : List Row) × (subcommand_of program (map S.text words.entry.now) ≡ Some (name, rows))
        × AsksInVain name rows fault)) }
{
    match parsed(alloc, words) {
        Ok(AskedWords::Command(settings)) => Ok(settings),
        Ok(AskedWords::NoSuchFault(word)) => Err(WordsFault::UnknownFault(word)),
        Ok(AskedWords::ImageAndScript) => Err(WordsFault::Both),
        Ok(AskedWords::ImageAndProgram) => Err(WordsFault::TwoImages),
        Ok(AskedWords::UpdatesAlone) => Err(WordsFault::UpdatesAlone),
        Ok(AskedWords::OfCommands { place }) => Err(WordsFault::OfCommands { place }),
        Ok(AskedWords::JournalsOfNone) => Err(WordsFault::JournalsOfNone),
        Ok(AskedWords::NoUpdate { place, mistake }) => Err(WordsFault::Update { place, mistake }),
        Ok(AskedWords::NoPart(word)) => Err(WordsFault::NoPart(word)),
        Ok(AskedWords::LostAlone) => Err(WordsFault::LostAlone),
        Ok(AskedWords::NoLoss(word)) => Err(WordsFault::NoLoss(word)),
        Err(error) => Err(WordsFault::Parser(error)),
    }
}

/// What the parser makes of the words.
fn parsed<'a, S: AsStr>(alloc: Global, words: &'a [S]) -> Result<AskedWords<'a>, Error>
    ensures found { IfOk result (λ asked. (name : Text) × (rows : List Row)
        × (subcommand_of program (map S.text words.entry.now) ≡ Some (name, rows)) × IsAsked name rows asked) }
    ensures kinds { FailsBy (fault_of program (map S.text words.entry.now)) result }
{
    let command = program(alloc)?;
    let matches = command.try_get_matches_from(words)?;
    match matches.subcommand() {
        Some((name, found)) => Ok(asked_of(alloc, name, found)),
        None => unreachable!(),
    }
}

/// What the command of a name asks for, with its words.
fn asked_of<'a>(alloc: Global, name: &str, found: &ArgMatches<'a>) -> AskedWords<'a>
    requires { IsCommand name.now }
    ensures { IsAsked name.now (rows_of (found_of found.now)) result }
{
    if name == "run" {
        return run_of(alloc, found);
    }
    if name == "explain" {
        return explain_of(found);
    }
    if name == "replay" {
        return replay_of(alloc, found);
    }
    if name == "shipped" {
        return AskedWords::Command(shipped_of(found));
    }
    if name == "table" {
        return AskedWords::Command(table_of(found));
    }
    if name == "script" {
        return AskedWords::Command(script_of(found));
    }
    if name == "compare" {
        return AskedWords::Command(compare_of(found));
    }
    if name == "flows" {
        return AskedWords::Command(flows_of(found));
    }
    if name == "page" {
        return AskedWords::Command(page_of(found));
    }
    AskedWords::Command(command_of(name, found))
}

/// What is asked of a fault.
fn explain_of<'a>(found: &ArgMatches<'a>) -> AskedWords<'a>
    ensures { IsAsked (codes "explain") (rows_of (found_of found.now)) result }
{
    let word = word(found, FAULT);
    match fault_said(word) {
        Some(about) => AskedWords::Command(Settings::Explain { about }),
        None => AskedWords::NoSuchFault(word),
    }
}

/// The fault that a word says, by its number or by its name.
fn fault_said(word: &str) -> Option<Explanation>
    ensures { MatchOption result (SaysNone word.now) (λ about.
        SaysFault word.now about.number × IsRowOf about.number about × (is_fault about.number ≡ true)) }
{
    match fault_numbered(word) {
        Some(about) => Some(about),
        None => fault_named(word),
    }
}

/// The fault whose number a word writes.
fn fault_numbered(word: &str) -> Option<Explanation>
    ensures { MatchOption result ((number : ℕ) → is_fault number ≡ true → ¬ Writes word.now number) (λ about.
        Writes word.now about.number × IsRowOf about.number about × (is_fault about.number ≡ true)) }
{
    match word.parse::<u32>() {
        Ok(number) => Explanation::of(number),
        Err(_) => None,
    }
}

/// The fault of this name; of several that with the least number.
fn fault_named(word: &str) -> Option<Explanation>
    ensures { MatchOption result ((number : ℕ) → ¬ IsName word.now number) (λ about.
        IsFirstName word.now about.number × IsRowOf about.number about × (is_fault about.number ≡ true)) }
{
    'numbers: for number in 1..96 {
        if let Some(about) = fault_if_named(number, word) {
            return Some(about);
        }
    }
    None
}

/// The fault of this number, where it has this name.
fn fault_if_named(number: u32, word: &str) -> Option<Explanation>
    ensures { MatchOption result (¬ IsName word.now number) (λ about. (about.number ≡ number)
        × IsName word.now number × IsRowOf number about) }
{
    match Explanation::of(number) {
        Some(about) => if about.name == word {
            Some(about)
        } else {
            None
        },
        None => None,
    }
}

/// What is asked of a replay.
fn replay_of<'a>(alloc: Global, found: &ArgMatches<'a>) -> AskedWords<'a>
    ensures { IsAsked (codes "replay") (rows_of (found_of found.now)) result }
{
    if are_both_given(found, REPLAY_IMAGE, SCRIPT) {
        return AskedWords::ImageAndScript;
    }
    if are_both_given(found, REPLAY_IMAGE, PROGRAM) {
        return AskedWords::ImageAndProgram;
    }
    if are_updates_alone(found) {
        return AskedWords::UpdatesAlone;
    }
    let no_journals = switch(found, NO_JOURNALS);
    if no_journals && has_journals(found) {
        return AskedWords::JournalsOfNone;
    }
    match updates_found(alloc, found) {
        Ok(updates) => replay_of_updates(found, no_journals, updates),
        Err((place, mistake)) => AskedWords::NoUpdate { place, mistake },
    }
}

/// What is asked of a replay with these updates, with rows of journals or without, before it is looked whether commands set their maps.
fn replay_of_updates<'a>(
    found: &ArgMatches<'a>,
    no_journals: bool,
    updates: Vec<MapUpdate>,
) -> AskedWords<'a>
    requires program { IsOfOneProgram (rows_of (found_of found.now)) }
    requires journals { IsSwitchOf (codes "no-journals") (rows_of (found_of found.now)) no_journals }
    requires rows { IsFalse (no_journals && has_journals (rows_of (found_of found.now))) }
    requires updates { AreUpdates (words_of (codes "update") (rows_of (found_of found.now))) updates.items }
    ensures { IsAsked (codes "replay") (rows_of (found_of found.now)) result }
{
    if has_program(found)
        && let Some(place) = first_of_commands(&updates)
    {
        return AskedWords::OfCommands { place };
    }
    replay_of_part(found, no_journals, updates)
}

/// What is asked of a replay with these updates, with rows of journals or without.
fn replay_of_part<'a>(
    found: &ArgMatches<'a>,
    no_journals: bool,
    updates: Vec<MapUpdate>,
) -> AskedWords<'a>
    requires program { IsOfOneProgram (rows_of (found_of found.now)) }
    requires journals { IsSwitchOf (codes "no-journals") (rows_of (found_of found.now)) no_journals }
    requires rows { IsFalse (no_journals && has_journals (rows_of (found_of found.now))) }
    requires updates { AreReplayUpdates (rows_of (found_of found.now)) updates.items }
    ensures { IsAsked (codes "replay") (rows_of (found_of found.now)) result }
{
    match part_found(found) {
        Ok(part) => replay_of_loss(found, no_journals, updates, part),
        Err(word) => AskedWords::NoPart(word),
    }
}

/// What is asked of a replay with these updates, with rows of journals or without, of this part of its capture, before a loss is looked for.
fn replay_of_loss<'a>(
    found: &ArgMatches<'a>,
    no_journals: bool,
    updates: Vec<MapUpdate>,
    part: Option<Part>,
) -> AskedWords<'a>
    requires program { IsOfOneProgram (rows_of (found_of found.now)) }
    requires journals { IsSwitchOf (codes "no-journals") (rows_of (found_of found.now)) no_journals }
    requires rows { IsFalse (no_journals && has_journals (rows_of (found_of found.now))) }
    requires updates { AreReplayUpdates (rows_of (found_of found.now)) updates.items }
    requires part { IsPartAsked (first_of (codes "part") (rows_of (found_of found.now))) part }
    requires whole { IfSome part (λ whole. whole.lost ≡ None) }
    ensures { IsAsked (codes "replay") (rows_of (found_of found.now)) result }
{
    match option(found, LOST) {
        Some(word) => match part {
            Some(part) => replay_losing(found, no_journals, updates, part, word),
            None => AskedWords::LostAlone,
        },
        None => AskedWords::Command(replay_with(found, no_journals, updates, part)),
    }
}

/// What is asked of a replay of this part of its capture, with the loss that a word says.
fn replay_losing<'a>(
    found: &ArgMatches<'a>,
    no_journals: bool,
    updates: Vec<MapUpdate>,
    part: Part,
    word: &'a str,
) -> AskedWords<'a>
    requires program { IsOfOneProgram (rows_of (found_of found.now)) }
    requires journals { IsSwitchOf (codes "no-journals") (rows_of (found_of found.now)) no_journals }
    requires rows { IsFalse (no_journals && has_journals (rows_of (found_of found.now))) }
    requires updates { AreReplayUpdates (rows_of (found_of found.now)) updates.items }
    requires part { IsPartAsked (first_of (codes "part") (rows_of (found_of found.now))) (Some part) }
    requires lost { first_of (codes "lost") (rows_of (found_of found.now)) ≡ Some word.now }
    ensures { IsAsked (codes "replay") (rows_of (found_of found.now)) result }
{
    match part_losing(part, word) {
        Some(losing) => {
            AskedWords::Command(replay_with(found, no_journals, updates, Some(losing)))
        }
        None => AskedWords::NoLoss(word),
    }
}

/// The part that is asked for, where one is; or the word that is that of none.
fn part_found<'a>(found: &ArgMatches<'a>) -> Result<Option<Part>, &'a str>
    ensures asked { IfOk result (IsPartAsked (first_of (codes "part") (rows_of (found_of found.now)))) }
    ensures whole { IfOk result (λ part. IfSome part (λ whole. whole.lost ≡ None)) }
    ensures none { IfErr result (λ word. AsksNoPart (first_of (codes "part") (rows_of (found_of found.now))) word.now) }
{
    match option(found, PART) {
        Some(word) => match part_said(word) {
            Some(part) => Ok(Some(part)),
            None => Err(word),
        },
        None => Ok(None),
    }
}

/// The settings of a replay with these updates, with rows of journals or without, of this part of its capture.
fn replay_with<'a>(
    found: &ArgMatches<'a>,
    no_journals: bool,
    updates: Vec<MapUpdate>,
    part: Option<Part>,
) -> Settings<'a>
    requires program { IsOfOneProgram (rows_of (found_of found.now)) }
    requires journals { IsSwitchOf (codes "no-journals") (rows_of (found_of found.now)) no_journals }
    requires rows { IsFalse (no_journals && has_journals (rows_of (found_of found.now))) }
    requires updates { AreReplayUpdates (rows_of (found_of found.now)) updates.items }
    requires part { IsPartAsked (first_of (codes "part") (rows_of (found_of found.now))) part }
    requires lost { IsLossAsked (first_of (codes "lost") (rows_of (found_of found.now))) part }
    ensures { IsReadFrom (codes "replay") (rows_of (found_of found.now)) result }
{
    Settings::Replay(ReplaySettings {
        files: replay_files_of(found),
        options: options_of(found),
        ring: number_of(found, RING, DEFAULT_RING),
        flows: number_of(found, FLOWS, DEFAULT_FLOWS),
        exact: switch(found, EXACT),
        summary: switch(found, SUMMARY),
        reading: reading_of(found),
        part,
        no_journals,
        strict: switch(found, STRICT),
        no_clobber: switch(found, NO_CLOBBER),
        updates,
    })
}

/// How the records of the capture are read.
fn reading_of(found: &ArgMatches<'_>) -> Reading
    ensures { IsReadingOf (rows_of (found_of found.now)) result }
{
    Reading {
        skip_long: switch(found, SKIP_LONG),
        pad_cut: switch(found, PAD_CUT),
        allow_cut: switch(found, ALLOW_CUT),
    }
}

/// Whether a file is named for the journals.
fn has_journals(found: &ArgMatches<'_>) -> bool
    ensures { result ≡ has_journals (rows_of (found_of found.now)) }
{
    option(found, JOURNALS_OUT).is_some()
}

/// Whether a program over the maps of steering is named.
fn has_program(found: &ArgMatches<'_>) -> bool
    ensures { result ≡ has_program (rows_of (found_of found.now)) }
{
    option(found, PROGRAM).is_some()
}

/// Whether there are updates, and neither an image nor such a program.
fn are_updates_alone(found: &ArgMatches<'_>) -> bool
    ensures { result ≡ are_updates_alone (rows_of (found_of found.now)) }
{
    has_updates(found) && option(found, REPLAY_IMAGE).is_none() && !has_program(found)
}

/// Whether there are updates.
fn has_updates(found: &ArgMatches<'_>) -> bool
    ensures { result ≡ has_updates (rows_of (found_of found.now)) }
{
    match found.get_raw(UPDATE) {
        Some(_words) => true,
        None => false,
    }
}

/// Whether both of two options are given.
fn are_both_given(found: &ArgMatches<'_>, one: &str, other: &str) -> bool
    ensures { result ≡ are_both_given one.now other.now (rows_of (found_of found.now)) }
{
    option(found, one).is_some() && option(found, other).is_some()
}

/// The first of two options that is given, if one is.
fn either<'a>(one: Option<&'a str>, other: Option<&'a str>) -> Option<&'a str>
    ensures { text_of result ≡ first_given (text_of one.entry) (text_of other.entry) }
{
    match one {
        Some(word) => Some(word),
        None => other,
    }
}

/// The settings of the command that writes the shipped program.
fn shipped_of<'a>(found: &ArgMatches<'a>) -> Settings<'a>
    ensures { IsReadFrom (codes "shipped") (rows_of (found_of found.now)) result }
{
    Settings::Shipped {
        out: word(found, OUT),
        ring: number_of(found, RING, DEFAULT_RING),
        flows: number_of(found, FLOWS, DEFAULT_FLOWS),
    }
}

/// The settings of the command that prints lookup tables.
fn table_of<'a>(found: &ArgMatches<'a>) -> Settings<'a>
    ensures { IsReadFrom (codes "table") (rows_of (found_of found.now)) result }
{
    Settings::Table {
        script: word(found, TABLE_SCRIPT),
        ring: number_of(found, RING, DEFAULT_RING),
    }
}

/// The settings of the command that prints the script of a timed one.
fn script_of<'a>(found: &ArgMatches<'a>) -> Settings<'a>
    ensures { IsReadFrom (codes "script") (rows_of (found_of found.now)) result }
{
    Settings::Script {
        capture: word(found, CAPTURE),
        timed: word(found, TIMED),
        reading: reading_of(found),
    }
}

/// The settings of the command that compares two reports.
fn compare_of<'a>(found: &ArgMatches<'a>) -> Settings<'a>
    ensures { IsReadFrom (codes "compare") (rows_of (found_of found.now)) result }
{
    Settings::Compare {
        first: word(found, FIRST),
        second: word(found, SECOND),
    }
}

/// The settings of the command that says what became of each flow.
fn flows_of<'a>(found: &ArgMatches<'a>) -> Settings<'a>
    ensures { IsReadFrom (codes "flows") (rows_of (found_of found.now)) result }
{
    Settings::Flows {
        report: word(found, WRITTEN_REPORT),
        script: word(found, TABLE_SCRIPT),
    }
}

/// The settings of the command that prints a page.
fn page_of<'a>(found: &ArgMatches<'a>) -> Settings<'a>
    ensures { IsReadFrom (codes "page") (rows_of (found_of found.now)) result }
{
    Settings::Page {
        report: word(found, WRITTEN_REPORT),
        script: word(found, TABLE_SCRIPT),
    }
}

/// The files of a replay.
fn replay_files_of<'a>(found: &ArgMatches<'a>) -> ReplayFiles<'a>
    ensures { AreReplayFiles (rows_of (found_of found.now)) result }
{
    ReplayFiles {
        capture: word(found, CAPTURE),
        sent: word(found, SENT),
        image: either(option(found, REPLAY_IMAGE), option(found, PROGRAM)),
        is_steering: option(found, REPLAY_IMAGE).is_none(),
        script: option(found, SCRIPT),
        journals: option(found, JOURNALS_OUT),
        report: option(found, REPORT),
        maps: option(found, MAPS_OUT),
    }
}

/// How the shards of a replay are opened.
fn options_of(found: &ArgMatches<'_>) -> Options
    ensures { AreReplayOptions (rows_of (found_of found.now)) result }
{
    Options {
        workers: number_of(found, WORKERS, 1),
        shards: number_of(found, SHARDS, 1),
        journal: number_of(found, JOURNAL, 65_536),
    }
}

/// The number of an argument.
fn number_of(found: &ArgMatches<'_>, id: &str, default: u32) -> u32
    ensures { IsNumberOf 32 id.now (rows_of (found_of found.now)) result }
{
    found.get_one::<u32>(id).unwrap_or(default)
}

/// The word of an option, where it is given.
fn option<'a>(found: &ArgMatches<'a>, id: &str) -> Option<&'a str>
    ensures { text_of result ≡ first_of id.now (rows_of (found_of found.now)) }
{
    found.get_str(id)
}

/// Whether a switch is on.
fn switch(found: &ArgMatches<'_>, id: &str) -> bool
    ensures { IsSwitchOf id.now (rows_of (found_of found.now)) result }
{
    found.get_flag(id)
}

/// The command of a name, except those that have a function of their own, with its words.
fn command_of<'a>(name: &str, found: &ArgMatches<'a>) -> Settings<'a>
    requires command { IsCommand name.now }
    requires run { IsFalse (bytes_eq name.now (codes "run")) }
    requires explain { IsFalse (bytes_eq name.now (codes "explain")) }
    requires replay { IsFalse (bytes_eq name.now (codes "replay")) }
    requires shipped { IsFalse (bytes_eq name.now (codes "shipped")) }
    requires table { IsFalse (bytes_eq name.now (codes "table")) }
    requires script { IsFalse (bytes_eq name.now (codes "script")) }
    requires compare { IsFalse (bytes_eq name.now (codes "compare")) }
    requires flows { IsFalse (bytes_eq name.now (codes "flows")) }
    requires page { IsFalse (bytes_eq name.now (codes "page")) }
    ensures { IsReadFrom name.now (rows_of (found_of found.now)) result }
{
    if name == "check" {
        return Settings::Check {
            image: word(found, IMAGE),
            explain: switch(found, EXPLAIN),
        };
    }
    if name == "disasm" {
        return Settings::Disasm {
            image: word(found, IMAGE),
            source: switch(found, SOURCE),
        };
    }
    if name == "audit" {
        return Settings::Audit {
            image: word(found, IMAGE),
            journals: word(found, JOURNALS),
        };
    }
    Settings::Asm {
        text: word(found, TEXT),
        out: word(found, OUT),
        source: switch(found, SOURCE),
    }
}

/// What is asked of a run.
fn run_of<'a>(alloc: Global, found: &ArgMatches<'a>) -> AskedWords<'a>
    ensures { IsAsked (codes "run") (rows_of (found_of found.now)) result }
{
    match updates_found(alloc, found) {
        Ok(updates) => AskedWords::Command(run_with(found, updates)),
        Err((place, mistake)) => AskedWords::NoUpdate { place, mistake },
    }
}

/// The settings of a run with these updates.
fn run_with<'a>(found: &ArgMatches<'a>, updates: Vec<MapUpdate>) -> Settings<'a>
    requires { AreUpdates (words_of (codes "update") (rows_of (found_of found.now))) updates.items }
    ensures { IsReadFrom (codes "run") (rows_of (found_of found.now)) result }
{
    Settings::Run {
        files: run_files_of(found),
        now: found.get_one::<u64>(NOW).unwrap_or(0),
        worker: number_of(found, WORKER, 0),
        updates,
    }
}

/// The updates of a run or a replay; or the place of the first malformed one, with its first mistake.
fn updates_found(alloc: Global, found: &ArgMatches<'_>) -> Result<Vec<MapUpdate>, (usize, Mistake)>
    ensures read { IfOk result (λ updates. AreUpdates (words_of (codes "update") (rows_of (found_of found.now))) updates.items) }
    ensures mistaken { IfErr result (λ bad. IsBadUpdate (words_of (codes "update") (rows_of (found_of found.now))) bad.0 bad.1) }
{
    match found.get_raw(UPDATE) {
        Some(words) => updates_of(alloc, words),
        None => Ok(Vec::new(alloc)),
    }
}

/// The updates that words say, three words each; or the place of the first malformed one, with its first mistake.
fn updates_of(alloc: Global, words: &[&str]) -> Result<Vec<MapUpdate>, (usize, Mistake)>
    ensures read { IfOk result (λ updates. AreUpdates (texts words.now) updates.items) }
    ensures mistaken { IfErr result (λ bad. IsBadUpdate (texts words.now) bad.0 bad.1) }
{
    let mut updates = Vec::new(alloc);
    'updates: for place in 0..words.len() / 3 {
        match update_at(alloc, words, place) {
            Ok(update) => match updates.push(update) {
                Ok(()) => {}
                Err(_) => return Err((place, Mistake::Memory)),
            },
            Err(mistake) => return Err((place, mistake)),
        }
    }
    Ok(updates)
}

/// The update at a place, that three words say.
fn update_at(alloc: Global, words: &[&str], place: usize) -> Result<MapUpdate, Mistake>
    requires { place < length words.now / 3 }
    ensures read { IfOk result (IsWritten (word_at (texts words.now) (3 * place))
        (word_at (texts words.now) (3 * place + 1)) (word_at (texts words.now) (3 * place + 2))) }
    ensures mistaken { IfErr result (AreMistakenWords (word_at (texts words.now) (3 * place))
        (word_at (texts words.now) (3 * place + 1)) (word_at (texts words.now) (3 * place + 2))) }
{
    let first = 3 * place;
    let map = nth_word(words, first);
    let key = nth_word(words, first + 1);
    let value = nth_word(words, first + 2);
    update_of(alloc, map, key, value)
}

/// The word at a place.
fn nth_word<'a>(words: &[&'a str], place: usize) -> &'a str
    requires { place < length words.now }
    ensures { result.now ≡ word_at (texts words.now) place }
{
    words[place]
}

/// The files of a run.
fn run_files_of<'a>(found: &ArgMatches<'a>) -> RunFiles<'a>
    ensures { AreRunFiles (rows_of (found_of found.now)) result }
{
    RunFiles {
        image: word(found, IMAGE),
        frame: word(found, FRAME),
        journals: option(found, JOURNALS_OUT),
        maps: option(found, MAPS_OUT),
    }
}

/// The word of a required argument.
fn word<'a>(found: &ArgMatches<'a>, id: &str) -> &'a str
    ensures { result.now ≡ argument_word id.now (rows_of (found_of found.now)) }
{
    found.get_str(id).unwrap_or("")
}
