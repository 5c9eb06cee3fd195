//! Texts in the source form.

use super::first_path::IMAGE;
use super::{
    Wanted, compare, compare_begins, compare_digits, done, put, put_digits, put_printed, refused,
};
use folders::MemoryFolder;
use std::alloc::Global;
use std::process::Abort;
use std::sync::Wait;
use std::thread::Threads;

/// A source, and the exact text that it means.
const MEANINGS: [(&str, &str); 2] = [
    (
        "version 1\nmov r0, 2  # pass\n\nja end\nend:\nexit\n",
        "version 1\nmov r0, 2\nja +0\nexit\n",
    ),
    (
        "version 1\nmov r0, 0x2\nexit\n",
        "version 1\nmov r0, 2\nexit\n",
    ),
];

/// Holds the text of an image, which is assembled from a source, against the exact text.
fn compare_meaning<R: Abort + Threads + Wait + Sync>(
    rt: &R,
    alloc: Global,
    source: &str,
    text: &str,
) {
    let folder = put(
        rt,
        alloc,
        MemoryFolder::new(alloc),
        "source",
        source.as_bytes(),
    );
    let folder = done(rt, alloc, source, folder, "xlb asm --source source image");
    let wanted = Wanted {
        status: 0,
        out: text,
        err: "",
    };
    compare(rt, alloc, source, folder, "xlb disasm image", wanted);
}

#[test]
fn assembles_sources(rt: HostRuntime) {
    for row in &MEANINGS {
        compare_meaning(&rt, rt.alloc(), row.0, row.1);
    }
}

#[test]
fn shown_sources_are_read_again(rt: HostRuntime) {
    let alloc = rt.alloc();
    let name = "the first image";
    let folder = put_digits(&rt, alloc, MemoryFolder::new(alloc), "image", IMAGE);
    let folder = put_printed(
        &rt,
        alloc,
        name,
        folder,
        "xlb disasm --source image",
        "source",
    );
    let folder = done(&rt, alloc, name, folder, "xlb asm --source source again");
    compare_digits(&rt, alloc, name, folder, "again", IMAGE);
}

#[test]
fn refuses_a_bad_source(rt: HostRuntime) {
    let alloc = rt.alloc();
    let source = b"version 1\n\nja nowhere\nexit\n";
    let folder = put(&rt, alloc, MemoryFolder::new(alloc), "source", source);
    let wanted = refused("fault 21 BadLine line 3\n  ");
    let line = "xlb asm --source source image";
    compare_begins(&rt, alloc, "a bad source", folder, line, wanted);
}
