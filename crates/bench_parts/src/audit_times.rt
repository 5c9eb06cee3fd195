//! How long a long journal takes to be read and to be audited: a row a line, the rounds of calls and the microseconds of both.

use anyhow::Error;
use audit::audit;
use ebpf_decode::{Image, Insn, MapDef, MapKind, Version};
use journals::journals_of;
use std::alloc::Global;
use std::time::Instant;

/// How many elements the array has.
const ELEMENTS: u32 = 256;

/// An image of one array.
fn image(alloc: Global) -> Result<Image, Error> {
    let mut maps = Vec::new(alloc);
    maps.push(MapDef {
        kind: MapKind::Array,
        key_size: 4,
        value_size: 8,
        max_entries: ELEMENTS,
    })?;
    let mut code = Vec::new(alloc);
    code.push(Insn::Exit)?;
    Ok(Image::of(Version::V1, maps, code)?)
}

/// The lines of a round: a Lookup, a Store and a Load.
fn lines(alloc: Global, round: u32) -> Result<String, Error> {
    let [index, ..] = round.to_le_bytes();
    let key = hex::encode(alloc, &[index, 0, 0, 0])?;
    let key = key.as_str();
    Ok(format!(in alloc;
        "0 w0 lookup {key} cell {index}\n0 w0 store {index} 0 8 {round} ok\n0 w0 load {index} 0 8 word {round}\n"
    )?)
}

/// The file of a journal in which one run makes all calls.
fn file(alloc: Global, rounds: u32) -> Result<String, Error> {
    let mut text = String::from_str(alloc, "XLBJ 1 1 1 1048576\n0 w0 enter ok\n")?;
    for round in 0..rounds {
        let lines = lines(alloc, round)?;
        text.push_str(lines.as_str())?;
    }
    Ok(text)
}

/// Prints the row of a journal of this many rounds.
fn measure(rt: &HostRuntime, rounds: u32) -> Result<(), Error> {
    let alloc = rt.alloc();
    let image = image(alloc)?;
    let text = file(alloc, rounds)?;
    let start = Instant::now(rt)?;
    let journals = journals_of(alloc, &image, text.as_bytes())?;
    let read = start.elapsed(rt)?.as_micros();
    let start = Instant::now(rt)?;
    let found = audit(alloc, &journals);
    let audited = start.elapsed(rt)?.as_micros();
    let word = if found.is_ok() { "legal" } else { "illegal" };
    println!(rt; "{rounds} {read} {audited} {word}")?;
    Ok(())
}

/// Prints the rows of a shorter and a longer journal.
pub(crate) fn measure_all(rt: &HostRuntime) -> Result<(), Error> {
    measure(rt, 33_333)?;
    measure(rt, 333_333)
}
