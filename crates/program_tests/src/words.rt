//! Command lines.

use crate::asserting::{holds_of, same_text};
use command_line::{
    Reading, ReplayFiles, ReplaySettings, RunFiles, Settings, WordsFault, settings,
};
use fleet::Part;
use map_updates::MapUpdate;
use semantics::Options;
use std::alloc::{AllocError, Global};
use std::process::Abort;

/// The settings' words and numbers in one line.
fn shown(rt: &impl Abort, alloc: Global, settings: Settings<'_>) -> Result<String, AllocError> {
    match settings {
        Settings::Check { image, explain } => format!(in alloc; "check {image} {explain}"),
        Settings::Run {
            files,
            now,
            worker,
            updates,
        } => {
            let mut text = run_shown(rt, alloc, files, now, worker);
            put_updates(rt, alloc, &mut text, &updates);
            Ok(text)
        }
        Settings::Disasm { image, source } => format!(in alloc; "disasm {image} {source}"),
        Settings::Audit { image, journals } => format!(in alloc; "audit {image} {journals}"),
        Settings::Explain { about } => {
            let number = about.number;
            format!(in alloc; "explain {number}")
        }
        Settings::Asm { text, out, source } => format!(in alloc; "asm {text} {out} {source}"),
        Settings::Shipped { out, ring, flows } => {
            format!(in alloc; "shipped {out} {ring} {flows}")
        }
        Settings::Table { script, ring } => format!(in alloc; "table {script} {ring}"),
        Settings::Script {
            capture,
            timed,
            reading,
        } => {
            let Reading {
                skip_long,
                pad_cut,
                allow_cut,
            } = reading;
            format!(in alloc; "script {capture} {timed} {skip_long} {pad_cut} {allow_cut}")
        }
        Settings::Compare { first, second } => format!(in alloc; "compare {first} {second}"),
        Settings::Flows { report, script } => format!(in alloc; "flows {report} {script}"),
        Settings::Page { report, script } => format!(in alloc; "page {report} {script}"),
        Settings::Replay(asked) => {
            let mut text = replay_shown(rt, alloc, asked.files, asked.options, asked.ring);
            put_flows(rt, alloc, &mut text, asked.flows);
            put_flags(rt, &mut text, &asked);
            put_part(rt, alloc, &mut text, &asked);
            put_report(rt, &mut text, asked.files);
            put_updates(rt, alloc, &mut text, &asked.updates);
            Ok(text)
        }
    }
}

/// Appends a word where it is said.
fn put_if(rt: &impl Abort, text: &mut String, is_said: bool, word: &str) {
    if is_said {
        text.push_str(word).expect(rt, "memory");
    }
}

/// The number of notes, where it is not the usual one.
fn put_flows(rt: &impl Abort, alloc: Global, text: &mut String, flows: u32) {
    let shown = format!(in alloc; " flows {flows}").expect(rt, "memory");
    put_if(rt, text, flows != 4096, shown.as_str());
}

/// The flags of a replay that are given.
fn put_flags(rt: &impl Abort, text: &mut String, asked: &ReplaySettings<'_>) {
    put_if(rt, text, asked.exact, " exact");
    put_if(rt, text, asked.summary, " summary");
    put_if(rt, text, asked.reading.skip_long, " skip-long");
    put_if(rt, text, asked.reading.pad_cut, " pad-cut");
    put_if(rt, text, asked.reading.allow_cut, " allow-cut");
    put_if(rt, text, asked.no_journals, " no-journals");
    put_if(rt, text, asked.strict, " strict");
    put_if(rt, text, asked.no_clobber, " no-clobber");
}

/// The part that is lost, where one is.
fn put_loss(rt: &impl Abort, alloc: Global, text: &mut String, part: Part) {
    if let Some(loss) = part.lost {
        let number = loss.part;
        let from = loss.from;
        let shown = format!(in alloc; " lost {number} at {from}").expect(rt, "memory");
        text.push_str(shown.as_str()).expect(rt, "memory");
    }
}

/// The part of a replay, where one is asked for.
fn put_part(rt: &impl Abort, alloc: Global, text: &mut String, asked: &ReplaySettings<'_>) {
    if let Some(part) = asked.part {
        let number = part.number;
        let of = part.of;
        let shown = format!(in alloc; " part {number} of {of}").expect(rt, "memory");
        text.push_str(shown.as_str()).expect(rt, "memory");
        put_loss(rt, alloc, text, part);
    }
}

/// Whether a replay has no steering, and the file of its report.
fn put_report(rt: &impl Abort, text: &mut String, files: ReplayFiles<'_>) {
    put_if(rt, text, !files.is_steering, " no-steering");
    put_if(rt, text, files.report.is_some(), " report ");
    put_if(rt, text, true, files.report.unwrap_or(""));
    put_if(rt, text, files.maps.is_some(), " maps ");
    put_if(rt, text, true, files.maps.unwrap_or(""));
}

/// The bytes of each update.
fn put_updates(rt: &impl Abort, alloc: Global, text: &mut String, updates: &[MapUpdate]) {
    for update in updates {
        let key = hex::encode(alloc, update.key.as_slice()).expect(rt, "memory");
        let value = hex::encode(alloc, update.value.as_slice()).expect(rt, "memory");
        let map = update.map;
        let shown = format!(in alloc; " {map}={key}:{value}").expect(rt, "memory");
        text.push_str(shown.as_str()).expect(rt, "memory");
    }
}

/// A run's words, each at its place.
fn run_shown(rt: &impl Abort, alloc: Global, files: RunFiles<'_>, now: u64, worker: u32) -> String {
    let RunFiles {
        image,
        frame,
        journals,
        maps,
    } = files;
    let journals = journals.unwrap_or("-");
    let mark = if maps.is_some() { " maps " } else { "" };
    let maps = maps.unwrap_or("");
    format!(in alloc; "run {image} {frame} {now} {worker} {journals}{mark}{maps}").expect(
        rt, "memory",
    )
}

/// A replay's words, each at its place.
fn replay_shown(
    rt: &impl Abort,
    alloc: Global,
    files: ReplayFiles<'_>,
    options: Options,
    ring: u32,
) -> String {
    let ReplayFiles {
        capture,
        sent,
        image,
        is_steering: _,
        script,
        journals,
        report: _,
        maps: _,
    } = files;
    let Options {
        workers,
        shards,
        journal,
    } = options;
    let image = image.unwrap_or("-");
    let script = script.unwrap_or("-");
    let journals = journals.unwrap_or("-");
    let shown = format!(in alloc;
        "replay {capture} {sent} {image} {script} {workers} {shards} {journal} {ring} {journals}"
    );
    shown.expect(rt, "memory")
}

#[rattlefmt::skip]
const READ: [(&str, &str); 67] = [
    ("xlb check a",                             "check a false"),
    ("xlb check --explain a",                   "check a true"),
    ("xlb check a --explain",                   "check a true"),
    ("xlb disasm a",                            "disasm a false"),
    ("xlb disasm a --source",                   "disasm a true"),
    ("xlb asm a b",                             "asm a b false"),
    ("xlb asm --source a b",                    "asm a b true"),
    ("xlb asm -- --source b",                   "asm --source b false"),
    ("xlb audit a b",                           "audit a b"),
    ("xlb explain 1",                           "explain 1"),
    ("xlb explain +095",                        "explain 95"),
    ("xlb explain PacketBounds",                "explain 37"),
    ("xlb explain NotPlainIpv4",                "explain 83"),
    ("xlb explain Empty",                       "explain 12"),
    ("xlb explain JournalFull",                 "explain 50"),
    ("xlb explain Memory",                      "explain 8"),
    ("xlb run a b",                             "run a b 0 0 -"),
    ("xlb run a b --now 5",                     "run a b 5 0 -"),
    ("xlb run --worker=9 a b --now=7",          "run a b 7 9 -"),
    ("xlb run a b --now 18446744073709551615",  "run a b 18446744073709551615 0 -"),
    ("xlb run a b --worker 4294967295",         "run a b 0 4294967295 -"),
    ("xlb run a b --journals j --now 1",        "run a b 1 0 j"),
    ("xlb run a b --maps m",                    "run a b 0 0 - maps m"),
    ("xlb run a b --update 0 07 02",             "run a b 0 0 - 0=07:02"),
    ("xlb run --update 3 0A 00ff a --update 1 00 01 b --now 7 --update 3 0a 00", "run a b 7 0 - 3=0a:00ff 1=00:01 3=0a:00"),
    ("xlb run a b --update +1 00 00",           "run a b 0 0 - 1=00:00"),
    ("xlb check -- -a",                         "check -a false"),
    ("another check check",                     "check check false"),
    ("xlb shipped a",                           "shipped a 251 4096"),
    ("xlb shipped a --ring 7",                  "shipped a 7 4096"),
    ("xlb shipped --ring 4294967295 a",         "shipped a 4294967295 4096"),
    ("xlb shipped a --flows 8192",              "shipped a 251 8192"),
    ("xlb shipped --flows 4294967295 --ring 8 a", "shipped a 8 4294967295"),
    ("xlb table a",                             "table a 251"),
    ("xlb table --ring 7 a",                    "table a 7"),
    ("xlb replay a b",                          "replay a b - - 1 1 65536 251 -"),
    ("xlb replay --script s a b --journals j",  "replay a b - s 1 1 65536 251 j"),
    ("xlb replay a b --image i --workers 4 --shards 8 --journal 16 --ring 7", "replay a b i - 4 8 16 7 - no-steering"),
    ("xlb replay a b --program p --script s",   "replay a b p s 1 1 65536 251 -"),
    ("xlb replay --exact a b --script s",       "replay a b - s 1 1 65536 251 - exact"),
    ("xlb replay a b --summary",                "replay a b - - 1 1 65536 251 - summary"),
    ("xlb replay a b --skip-long",              "replay a b - - 1 1 65536 251 - skip-long"),
    ("xlb replay a b --pad-cut",                "replay a b - - 1 1 65536 251 - pad-cut"),
    ("xlb replay a --allow-cut b",              "replay a b - - 1 1 65536 251 - allow-cut"),
    ("xlb replay --strict a b",                 "replay a b - - 1 1 65536 251 - strict"),
    ("xlb replay a b --no-clobber",             "replay a b - - 1 1 65536 251 - no-clobber"),
    ("xlb replay a b --no-clobber --strict --allow-cut --pad-cut --skip-long --exact",
        "replay a b - - 1 1 65536 251 - exact skip-long pad-cut allow-cut strict no-clobber"),
    ("xlb replay a b --flows 131072",           "replay a b - - 1 1 65536 251 - flows 131072"),
    ("xlb replay --flows=0 a b --exact --image i", "replay a b i - 1 1 65536 251 - flows 0 exact no-steering"),
    ("xlb replay a b --part 0/1",              "replay a b - - 1 1 65536 251 - part 0 of 1"),
    ("xlb replay --part=3/8 a b --exact",      "replay a b - - 1 1 65536 251 - exact part 3 of 8"),
    ("xlb replay a b --part +1/4294967295",    "replay a b - - 1 1 65536 251 - part 1 of 4294967295"),
    ("xlb replay a b --part 0/2 --lost 1@7", "replay a b - - 1 1 65536 251 - part 0 of 2 lost 1 at 7"),
    ("xlb replay --lost=2@+0 a b --part 2/3",  "replay a b - - 1 1 65536 251 - part 2 of 3 lost 2 at 0"),
    ("xlb replay a b --part 1/2 --lost 0@4294967295", "replay a b - - 1 1 65536 251 - part 1 of 2 lost 0 at 4294967295"),
    ("xlb flows r s",                          "flows r s"),
    ("xlb page r s",                           "page r s"),
    ("xlb script a b",                          "script a b false false false"),
    ("xlb script --skip-long a b",              "script a b true false false"),
    ("xlb script a --allow-cut b --pad-cut",    "script a b false true true"),
    ("xlb compare a b",                         "compare a b"),
    ("xlb replay a b --no-journals --workers 4", "replay a b - - 4 1 65536 251 - no-journals"),
    ("xlb replay a b --report r.json",          "replay a b - - 1 1 65536 251 - report r.json"),
    ("xlb replay a --maps m b",                 "replay a b - - 1 1 65536 251 - maps m"),
    ("xlb replay --report r a b --maps=m --no-journals", "replay a b - - 1 1 65536 251 - no-journals report r maps m"),
    ("xlb replay a b --update 0 07 02 --image i --update +1 0A ff", "replay a b i - 1 1 65536 251 - no-steering 0=07:02 1=0a:ff"),
    ("xlb replay --report r a --exact --skip-long b --journals j", "replay a b - - 1 1 65536 251 j exact skip-long report r"),
];

/// Compares the settings of a command line.
fn is_read(rt: &impl Abort, alloc: Global, line: &str, want: &str) {
    let words: Vec<&str> = line.split(' ').collect(alloc).expect(rt, "words");
    let settings = settings(alloc, &words).expect(rt, "a command line");
    let found = shown(rt, alloc, settings).expect(rt, "memory");
    same_text(rt, line, &found, want);
}

/// The same of each line.
fn are_read(rt: &impl Abort, alloc: Global, rows: &[(&str, &str)]) {
    for (line, want) in rows {
        is_read(rt, alloc, line, want);
    }
}

#[test]
fn reads_commands(rt: HostRuntime) {
    are_read(&rt, rt.alloc(), &READ);
}

/// A command line, the status, and what its text begins with.
#[rattlefmt::skip]
const REFUSED: [(&str, u8, &str); 78] = [
    ("xlb",                                     2, "error: 'xlb' requires a subcommand but one was not provided"),
    ("xlb play a b",                            2, "error: unrecognized subcommand 'play'"),
    ("xlb replay a",                            2, "error: the following required arguments were not provided:\n  <SENT>"),
    ("xlb replay a b --image i --script s",     2, "error: the options --image and --script cannot be used together"),
    ("xlb replay a b --image i --program p",    2, "error: the options --image and --program cannot be used together"),
    ("xlb replay a b --program p --image i --script s", 2, "error: the options --image and --script cannot be used together"),
    ("xlb replay a b --no-journals --journals j", 2, "error: the options --journals and --no-journals cannot be used together"),
    ("xlb replay a b --update 0 07 02",        2, "error: the option --update cannot be used without --image or --program"),
    ("xlb replay a b --update 0 07 02 --script s", 2, "error: the option --update cannot be used without --image or --program"),
    ("xlb replay a b --update x 0 0 --program p --script s", 2, "error: update 1: "),
    ("xlb replay a b --program p --update 1 07 02 --update 5 07 02 --update 4 07 02", 2,
        "error: update 3: with --program only the maps 1 and 5 can be set, since commands of a script set the others"),
    ("xlb replay a b --program p --update 0 07 02 --update 3 07 02 --part 2/1", 2,
        "error: update 1: with --program only the maps 1 and 5 can be set, since commands of a script set the others"),
    ("xlb replay a b --image i --update 0 07 02 --update 0 7 02", 2,
        "error: update 2: its key has not two hexadecimal digits for each of at most 32 bytes"),
    ("xlb replay a b --image i --update 0 07",  2, "error: 3 values required for '--update <MAP> <KEY> <VALUE>' but 2 were provided"),
    ("xlb replay a b --exact --exact",          2, "error: the argument '--exact' cannot be used multiple times"),
    ("xlb replay a b --skip-long=yes",          2, "error: unexpected value 'yes' for '--skip-long' found; no more were expected"),
    ("xlb replay a b --report",                 2, "error: a value is required for '--report <FILE>' but none was supplied"),
    ("xlb run a b --report r",                  2, "error: unexpected argument '--report' found"),
    ("xlb replay a b --part 4/4",               2, "error: --part takes K/N, where K counts from 0 and is below N, and not 4/4"),
    ("xlb replay a b --part 0/0",               2, "error: --part takes K/N, where K counts from 0 and is below N, and not 0/0"),
    ("xlb replay a b --part 1",                 2, "error: --part takes K/N, where K counts from 0 and is below N, and not 1"),
    ("xlb replay a b --part /2",                2, "error: --part takes K/N, where K counts from 0 and is below N, and not /2"),
    ("xlb replay a b --part 1/2/3",             2, "error: --part takes K/N, where K counts from 0 and is below N, and not 1/2/3"),
    ("xlb replay a b --part 0/4294967296",      2, "error: --part takes K/N, where K counts from 0 and is below N, and not 0/4294967296"),
    ("xlb replay a b --part 2/1 --image i --update 0 7 02", 2,
        "error: update 1: its key has not two hexadecimal digits for each of at most 32 bytes"),
    ("xlb replay a b --part",                   2, "error: a value is required for '--part <K/N>' but none was supplied"),
    ("xlb replay a b --part 0/2 --part 1/2",    2, "error: the argument '--part <K/N>' cannot be used multiple times"),
    ("xlb replay a b --lost 0@7",               2, "error: the option --lost cannot be used without --part"),
    ("xlb replay a b --part 2/2 --lost 1@7",    2, "error: --part takes K/N, where K counts from 0 and is below N, and not 2/2"),
    ("xlb flows r",                             2, "error: the following required arguments were not provided:\n  <SCRIPT>"),
    ("xlb page",                                2, "error: the following required arguments were not provided:\n  <REPORT>"),
    ("xlb help",                                0,
        "Replays captures through eBPF programs; checks, runs, audits, prints and assembles them"),
    ("xlb check",                               2, "error: the following required arguments were not provided:\n  <IMAGE>"),
    ("xlb check a b",                           2, "error: unexpected argument 'b' found"),
    ("xlb check a --now 1",                     2, "error: unexpected argument '--now' found"),
    ("xlb run a",                               2, "error: the following required arguments were not provided:\n  <FRAME>"),
    ("xlb run a b c",                           2, "error: unexpected argument 'c' found"),
    ("xlb run a b --now",                       2, "error: a value is required for '--now <N>' but none was supplied"),
    ("xlb run a b --now x",                     2, "error: invalid value 'x' for '--now <N>'"),
    ("xlb run a b --now 18446744073709551616",  2, "error: invalid value '18446744073709551616' for '--now <N>'"),
    ("xlb run a b --worker 4294967296",         2, "error: invalid value '4294967296' for '--worker <N>'"),
    ("xlb run a b --worker=-1",                 2, "error: invalid value '-1' for '--worker <N>'"),
    ("xlb run a b --worker 1 --worker 2",       2, "error: the argument '--worker <N>' cannot be used multiple times"),
    ("xlb run a b --update 0 07",               2, "error: 3 values required for '--update <MAP> <KEY> <VALUE>' but 2 were provided"),
    ("xlb run a b --update 0 07 02 c",          2, "error: unexpected argument 'c' found"),
    ("xlb run a b --update",                    2, "error: a value is required for '--update <MAP> <KEY> <VALUE>' but none was supplied"),
    ("xlb run a b --update x 07 02",            2, "error: update 1: its map is no number below 4294967296"),
    ("xlb run a b --update 0 07 02 --update 0 7 02", 2,
        "error: update 2: its key has not two hexadecimal digits for each of at most 32 bytes"),
    ("xlb run a b --update 0 07 0x",            2,
        "error: update 1: its value has not two hexadecimal digits for each of at most 256 bytes"),
    ("xlb run a b --update 0 -7 02",            2, "error: unexpected argument '-7' found"),
    ("xlb check a --update 0 07 02",            2, "error: unexpected argument '--update' found"),
    ("xlb run a b --workers 1",                 2, "error: unexpected argument '--workers' found"),
    ("xlb check a --explain --explain",         2, "error: the argument '--explain' cannot be used multiple times"),
    ("xlb check a --explain=yes",               2, "error: unexpected value 'yes' for '--explain' found; no more were expected"),
    ("xlb check a --source",                    2, "error: unexpected argument '--source' found"),
    ("xlb disasm",                              2, "error: the following required arguments were not provided:\n  <IMAGE>"),
    ("xlb audit a",                             2, "error: the following required arguments were not provided:\n  <JOURNALS>"),
    ("xlb explain",                             2, "error: the following required arguments were not provided:\n  <FAULT>"),
    ("xlb explain 0",                           2, "error: there is no fault 0"),
    ("xlb explain 24",                          2, "error: there is no fault 24"),
    ("xlb explain packetbounds",                2, "error: there is no fault packetbounds"),
    ("xlb explain PacketBound",                 2, "error: there is no fault PacketBound"),
    ("xlb explain -1",                          2, "error: unexpected argument '-1' found"),
    ("xlb explain 8 Memory",                    2, "error: unexpected argument 'Memory' found"),
    ("xlb explain 4294967296",                  2, "error: there is no fault 4294967296"),
    ("xlb help nosuch",                         2, "error: unrecognized subcommand 'nosuch'"),
    ("xlb asm a",                               2, "error: the following required arguments were not provided:\n  <OUT>"),
    ("xlb shipped",                             2, "error: the following required arguments were not provided:\n  <OUT>"),
    ("xlb shipped a b",                         2, "error: unexpected argument 'b' found"),
    ("xlb shipped a --ring x",                  2, "error: invalid value 'x' for '--ring <N>'"),
    ("xlb shipped a --flows x",                 2, "error: invalid value 'x' for '--flows <N>'"),
    ("xlb replay a b --flows 4294967296",       2, "error: invalid value '4294967296' for '--flows <N>'"),
    ("xlb table a --flows 8192",                2, "error: unexpected argument '--flows' found"),
    ("xlb table",                               2, "error: the following required arguments were not provided:\n  <SCRIPT>"),
    ("xlb help run",                            0, "Runs an image on one frame"),
    ("xlb --help",                              0,
        "Replays captures through eBPF programs; checks, runs, audits, prints and assembles them"),
    ("xlb run --help",                          0, "Runs an image on one frame"),
    ("xlb --version",                           0, "xlb 0.2.0\n"),
];

/// What is printed of a loss that is none, before its word.
const NO_LOSS: &str =
    "error: --lost takes J@RECORD, where J counts from 0 and is below the N of --part, which is at least 2, and not ";

/// A command line, and its word that is no loss.
#[rattlefmt::skip]
const NO_LOSSES: [(&str, &str); 6] = [
    ("xlb replay a b --part 0/1 --lost 0@7", "0@7"),
    ("xlb replay a b --part 0/2 --lost 2@7", "2@7"),
    ("xlb replay a b --part 0/2 --lost 1", "1"),
    ("xlb replay a b --part 0/2 --lost @7", "@7"),
    ("xlb replay a b --part 0/2 --lost 1@7@8", "1@7@8"),
    ("xlb replay a b --part 0/2 --lost 1@4294967296", "1@4294967296"),
];

/// Compares the status of a fault, and what its text begins with.
fn is_told(
    rt: &impl Abort,
    alloc: Global,
    line: &str,
    fault: &WordsFault<'_>,
    status: u8,
    text: &str,
) {
    let printed = format!(in alloc; "{fault}").expect(rt, "memory");
    holds_of(rt, line, "status", fault.status() == status);
    holds_of(rt, line, "text", printed.starts_with(text));
}

/// Compares the fault of a command line, which there has to be.
fn is_refused(rt: &impl Abort, alloc: Global, line: &str, status: u8, text: &str) {
    let words: Vec<&str> = line.split(' ').collect(alloc).expect(rt, "words");
    match settings(alloc, words.as_slice()) {
        Ok(_) => holds_of(rt, line, "refused", false),
        Err(fault) => is_told(rt, alloc, line, &fault, status, text),
    }
}

/// Compares the fault of each line.
fn are_refused(rt: &impl Abort, alloc: Global, rows: &[(&str, u8, &str)]) {
    for (line, status, text) in rows {
        is_refused(rt, alloc, line, *status, text);
    }
}

#[test]
fn refuses_wrong_words(rt: HostRuntime) {
    are_refused(&rt, rt.alloc(), &REFUSED);
}

#[test]
fn refuses_losses_that_are_none(rt: HostRuntime) {
    for (line, word) in &NO_LOSSES {
        let text = format!(in rt.alloc(); "{NO_LOSS}{word}").expect(&rt, "memory");
        is_refused(&rt, rt.alloc(), line, 2, &text);
    }
}
