//! What maps hold at the end of runs and replays, as `--maps` writes it.

ghost use Rattle.std.specs.Prelude.{◌≡◌};
ghost use Rattle.semantics.specs.ShardPlan.{KeepsRows};

use super::long_records::TWO_ZEROS;
use super::replays::DATAGRAM;
use super::{ZEROS, assembled, compare_file, done, put, put_digits, with_image};
use crate::asserting::{holds_of, same_bytes_of};
use audit::audit;
use ebpf_decode::{Image, Insn, MapDef, MapKind, Version};
use folders::{Folder, MemoryFolder};
use journals::{Journals, journals_of};
use map_contents::contents_text;
use map_meanings::ContentsForm;
use std::alloc::Global;
use std::process::Abort;
use std::sync::Wait;
use std::thread::Threads;
use test_support::files::SERVICE;
use test_support::programs::COUNTS_TO_THREE;

/// Looks nothing up; the maps have room for four keys and two elements.
const STILL: &str = "version 1
map hash 4 8 4
map array 4 8 2
mov r0, 3
exit
";

/// Has no maps.
const NO_MAPS: &str = "version 1
mov r0, 3
exit
";

/// What a row shows, a program, the words of its run, and what the maps hold after it.
type Row = (&'static str, &'static str, &'static str, &'static str);

#[rattlefmt::skip]
const RUNS: [Row; 6] = [
    ("no maps",              NO_MAPS,         "", ""),
    ("what the run set",     COUNTS_TO_THREE, "", "0 07000000 0300000000000000\n"),
    ("no key, two elements", STILL,           "", "1 00000000 0000000000000000\n1 01000000 0000000000000000\n"),
    ("an element",           STILL,           " --update 1 01000000 0a00000000000000",
        "1 00000000 0000000000000000\n1 01000000 0a00000000000000\n"),
    ("keys in their order",  STILL,           " --update 0 ff000000 0100000000000000 --update 0 00ff0000 0200000000000000 --update 0 07000000 0300000000000000",
        "0 00ff0000 0200000000000000\n0 07000000 0300000000000000\n0 ff000000 0100000000000000\n\
         1 00000000 0000000000000000\n1 01000000 0000000000000000\n"),
    ("the last value",       STILL,           " --update 0 07000000 0100000000000000 --update 0 07000000 0300000000000000",
        "0 07000000 0300000000000000\n1 00000000 0000000000000000\n1 01000000 0000000000000000\n"),
];

/// Holds what the maps hold after a run against what is wanted.
fn compare_run<R: Abort + Threads + Wait + Sync>(rt: &R, alloc: Global, row: &Row) {
    let (name, text, words, wanted) = *row;
    let line = format!(in alloc; "xlb run image frame --maps m{words}").expect(rt, "a line");
    let folder = assembled(rt, alloc, name, text, ("frame", ZEROS));
    let folder = done(rt, alloc, name, folder, &line);
    compare_file(rt, alloc, name, folder, "m", wanted.as_bytes());
}

#[test]
fn runs_write_what_maps_hold(rt: HostRuntime) {
    for row in &RUNS {
        compare_run(&rt, rt.alloc(), row);
    }
}

/// What the maps hold after each replay.
const AT_THE_END: &str = "0 07000000 0300000000000000
1 00000000 0000000000000000
1 01000000 0500000000000000
";

/// Words of replays that come to the same.
const REPLAYS: [&str; 9] = [
    "",
    " --workers 4",
    " --shards 2",
    " --no-journals",
    " --no-journals --shards 2 --workers 2",
    " --exact",
    " --exact --shards 2",
    " --exact --no-journals",
    " --exact --journals j --report r",
];

/// Holds what the maps hold after a replay with these words, which sets a key and an element before the first frame, against what is wanted.
fn compare_replay<R: Abort + Threads + Wait + Sync>(rt: &R, alloc: Global, words: &str) {
    let line = format!(in alloc;
        "xlb replay capture sent --image image --maps m --update 0 07000000 0300000000000000 --update 1 01000000 0500000000000000{words}"
    );
    let line = line.expect(rt, "a line");
    let folder = put_digits(rt, alloc, MemoryFolder::new(alloc), "capture", TWO_ZEROS);
    let folder = with_image(rt, alloc, words, folder, STILL);
    let folder = done(rt, alloc, words, folder, &line);
    compare_file(rt, alloc, words, folder, "m", AT_THE_END.as_bytes());
}

#[test]
fn replays_write_what_maps_hold(rt: HostRuntime) {
    for words in &REPLAYS {
        compare_replay(&rt, rt.alloc(), words);
    }
}

/// The name of a file, and what a replay writes to it.
#[rattlefmt::skip]
const FORMS: [(&str, &str); 6] = [
    ("m.json",  JSON_AT_THE_END),
    ("m.jsonl", JSON_AT_THE_END),
    ("M.JsoN",  JSON_AT_THE_END),
    (".jsonl",  JSON_AT_THE_END),
    ("json",    AT_THE_END),
    ("m.jsonx", AT_THE_END),
];

/// Holds what an exact replay writes of the maps to this file, after an update of a key and one of an element, against what is wanted.
fn compare_form<R: Abort + Threads + Wait + Sync>(rt: &R, alloc: Global, file: &str, wanted: &str) {
    let line = format!(in alloc;
        "xlb replay capture sent --exact --image image --maps {file} --update 0 07000000 0300000000000000 --update 1 01000000 0500000000000000"
    );
    let line = line.expect(rt, "a line");
    let folder = put_digits(rt, alloc, MemoryFolder::new(alloc), "capture", TWO_ZEROS);
    let folder = with_image(rt, alloc, file, folder, STILL);
    let folder = done(rt, alloc, file, folder, &line);
    compare_file(rt, alloc, file, folder, file, wanted.as_bytes());
}

#[test]
fn the_name_says_the_form(rt: HostRuntime) {
    for (file, wanted) in FORMS {
        compare_form(&rt, rt.alloc(), file, wanted);
    }
}

/// What the maps of steering hold after the datagram, from the services to the second backend, over a table of 7 slots.
const STEERED_FRONT: &str = "0 cb00710100501100 0000000000000000 vip 203.0.113.1 80 udp
1 c6336407cb0071019c40005011000000 0000000000000000 flow 198.51.100.7 40000 203.0.113.1 80 udp backend 0 192.0.2.1
2 00000000 0100000000000000 slot 0 backend 0 192.0.2.1
2 01000000 0100000000000000 slot 1 backend 0 192.0.2.1
2 02000000 0100000000000000 slot 2 backend 0 192.0.2.1
2 03000000 0100000000000000 slot 3 backend 0 192.0.2.1
2 04000000 0100000000000000 slot 4 backend 0 192.0.2.1
2 05000000 0100000000000000 slot 5 backend 0 192.0.2.1
2 06000000 0100000000000000 slot 6 backend 0 192.0.2.1
2 07000000 0000000000000000 slot 7 none
3 00000000 c000020101000000 backend 0 192.0.2.1 up slots 7
3 01000000 0000000000000000 backend 1 0.0.0.0 down slots 0
";

/// From the last backend to the counts.
const STEERED_BACK: &str = "3 ff000000 0000000000000000 backend 255 0.0.0.0 down slots 0
4 00000000 0a00000902000000000a02000000000b0100000000000000 gateway 10.0.0.9 02:00:00:00:00:0a 02:00:00:00:00:0b ready
4 01000000 000000000000000000000000000000000000000000000000
4 02000000 000000000000000000000000000000000000000000000000
4 03000000 000000000000000000000000000000000000000000000000
4 04000000 000000000000000000000000000000000000000000000000
4 05000000 000000000000000000000000000000000000000000000000
4 06000000 000000000000000000000000000000000000000000000000
4 07000000 000000000000000000000000000000000000000000000000
5 00000000 0000000000000000 verdict ABORTED frames 0
5 01000000 0000000000000000 verdict DROP frames 0
5 02000000 0000000000000000 verdict PASS frames 0
5 03000000 0100000000000000 verdict TX frames 1
5 04000000 0000000000000000
5 05000000 0000000000000000
5 06000000 0000000000000000
5 07000000 0000000000000000
";

/// The first of these lines in JSON, up to the second one's first fields.
const JSON_FRONT: &str =
    r#"{"map":0,"key":"cb00710100501100","value":"0000000000000000","means":{"service":"203.0.113.1","port":80,"protocol":"udp","tracked":true}}
{"map":1,"key":"c6336407cb0071019c40005011000000","value":"0000000000000000","means":{"source":"198.51.100.7","source_port":40000,"#;

/// The last of these lines in JSON.
const JSON_BACK: &str =
    r#"{"map":5,"key":"03000000","value":"0100000000000000","means":{"verdict":"TX","frames":1}}
{"map":5,"key":"04000000","value":"0000000000000000"}
{"map":5,"key":"05000000","value":"0000000000000000"}
{"map":5,"key":"06000000","value":"0000000000000000"}
{"map":5,"key":"07000000","value":"0000000000000000"}
"#;

/// Words of replays of the shipped program, the file of their maps, and what it begins and ends with.
#[rattlefmt::skip]
const STEERED: [(&str, &str, &str, &str); 5] = [
    ("",                       "m",      STEERED_FRONT, STEERED_BACK),
    (" --exact",               "m",      STEERED_FRONT, STEERED_BACK),
    (" --shards 2",            "m",      STEERED_FRONT, STEERED_BACK),
    (" --exact --no-journals", "m",      STEERED_FRONT, STEERED_BACK),
    (" --exact --flows 8192",  "m.json", JSON_FRONT,    JSON_BACK),
];

/// Holds what a replay of the datagram with these words writes of the maps of steering against what is wanted.
fn compare_steered<R: Abort + Threads + Wait + Sync>(
    rt: &R,
    alloc: Global,
    words: &str,
    file: &str,
    front: &str,
    back: &str,
) {
    let line = format!(in alloc;
        "xlb replay capture sent --script script --ring 7 --maps {file}{words}"
    );
    let line = line.expect(rt, "a line");
    let folder = put_digits(rt, alloc, MemoryFolder::new(alloc), "capture", DATAGRAM);
    let folder = put(rt, alloc, folder, "script", SERVICE.as_bytes());
    let mut folder = done(rt, alloc, words, folder, &line);
    let text = folder.read(alloc, file).expect(rt, "what the maps hold");
    holds_of(rt, words, "front", text.starts_with(front.as_bytes()));
    holds_of(rt, words, "back", text.ends_with(back.as_bytes()));
}

#[test]
fn entries_of_steering_have_a_meaning(rt: HostRuntime) {
    for (words, file, front, back) in STEERED {
        compare_steered(&rt, rt.alloc(), words, file, front, back);
    }
}

/// Journals of a shard of each of the maps of `STILL`.
const LISTED: &str = "XLBJ 1 1 1 16
0 c update 07000000 0100000000000000 0 answer 0
0 w0 enter ok
0 w0 lookup 07000000 cell 0
0 w0 store 0 0 8 3 ok
0 w0 leave ok
1 c update 01000000 0500000000000000 0 answer 0
";

/// The same as lines of JSON.
const JSON_AT_THE_END: &str = r#"{"map":0,"key":"07000000","value":"0300000000000000"}
{"map":1,"key":"00000000","value":"0000000000000000"}
{"map":1,"key":"01000000","value":"0500000000000000"}
"#;

/// What the journals' lines are in each form.
const LISTED_LINES: [(&str, ContentsForm, &str); 2] = [
    ("words", ContentsForm::Words, AT_THE_END),
    ("JSON", ContentsForm::Json, JSON_AT_THE_END),
];

/// An image with the maps of `STILL`.
fn image<R: Abort>(rt: &R, alloc: Global) -> Image {
    let hash = MapDef {
        kind: MapKind::Hash,
        key_size: 4,
        value_size: 8,
        max_entries: 4,
    };
    let array = MapDef {
        kind: MapKind::Array,
        max_entries: 2,
        ..hash
    };
    let maps = Vec::from_slice(alloc, &[hash, array]).expect(rt, "maps");
    let code = Vec::from_slice(alloc, &[Insn::Exit]).expect(rt, "code");
    Image::of(Version::V1, maps, code).expect(rt, "an image")
}

/// The lines of what the maps hold after these journals; none where they are not legal.
fn lines_after<R: Abort>(rt: &R, alloc: Global, form: ContentsForm, journals: &Journals) -> String
    requires { KeepsRows journals.now.options.journal }
{
    match audit(alloc, journals) {
        Ok(()) => contents_text(alloc, form, journals).expect(rt, "lines"),
        Err(_) => String::new(alloc),
    }
}

#[test]
fn the_calls_of_lists_are_made_again(rt: HostRuntime) {
    let alloc = rt.alloc();
    let image = image(&rt, alloc);
    let journals = journals_of(alloc, &image, LISTED.as_bytes()).expect(&rt, "journals");
    for (name, form, wanted) in LISTED_LINES {
        let lines = lines_after(&rt, alloc, form, &journals);
        same_bytes_of(&rt, name, "lines", lines.as_bytes(), wanted.as_bytes());
    }
}
