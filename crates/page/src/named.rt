//! Which backends are listed, and which have a name and a pattern of their own in the charts.

ghost use Rattle.std.specs.Prelude.{◌≡◌, ◌==◌, ◌<◌, ◌^◌, IfOk, OnOk, count_by, map, take};
ghost use Rattle.std.specs.List.{position};
ghost use Rattle.page.specs.Tallies.{counts_by_cell};
ghost use Rattle.page.specs.Named.{busier, busiest, class_of_key, classes_of, frames_of, key_cell, key_in, listed_keys, named_by, named_keys};
ghost use Rattle.page.specs.Named.{pattern_of, place_or, with_busiest, with_key};

use crate::tallies::{at, counts_of};
use control::{Action, Command};
use std::alloc::{AllocError, Global};

/// So many backends have a name of their own.
const NAMED: usize = 8;

/// So many backends are listed.
pub(crate) const LISTED: usize = 32;

/// Keys below this one are of backends that a lookup table may have, or of none.
const KEYS: u64 = 257;

/// The key of the backend that a command names, and 0 where it names none.
fn key_in(action: Action) -> u64
    ensures { result ≡ key_in action }
{
    match action {
        Action::Up { backend, .. } => u64::from(backend) + 1,
        Action::Down { backend } => u64::from(backend) + 1,
        Action::Vip { .. } => 0,
        Action::Gateway { .. } => 0,
    }
}

/// How often a key is among these.
fn count_of(named: &[u64], key: u64) -> usize
    ensures { result ≡ count_by (λ other. other == key) named.now }
{
    named.iter().filter(|other| **other == key).count()
}

/// Appends a key, if it is one, is not there yet, and there are fewer than this many.
fn put_key(named: &mut Vec<u64>, most: usize, key: u64) -> Result<(), AllocError>
    ensures { OnOk result (named.new.items ≡ with_key most named.old.items key) }
{
    if key == 0 || (most <= named.len() || count_of(named, key) != 0) {
        return Ok(());
    }
    named.push(key)?;
    Ok(())
}

/// The first eight backends that commands name.
fn named_by(alloc: Global, commands: &[Command]) -> Result<Vec<u64>, AllocError>
    ensures { IfOk result (λ named. named.items ≡ named_by commands.now) }
{
    let mut named = Vec::new(alloc);
    'commands: for command in commands {
        put_key(&mut named, NAMED, key_in(command.action))?;
    }
    Ok(named)
}

/// How many frames a key has that is not there yet.
fn frames_of(counts: &[usize], named: &[u64], key: u64) -> usize
    ensures { result ≡ frames_of counts.now named.now key }
{
    if key == 0 || count_of(named, key) != 0 {
        0
    } else {
        at(counts, key as usize)
    }
}

/// The second key, if it has more frames than the first, which may be none.
fn busier(counts: &[usize], named: &[u64], best: u64, key: u64) -> u64
    ensures { result ≡ busier counts.now named.now best key }
{
    if frames_of(counts, named, best) < frames_of(counts, named, key) {
        key
    } else {
        best
    }
}

/// The key below this one that is not there yet and has the most frames.
fn busiest(counts: &[usize], named: &[u64], below: u64) -> u64
    ensures { result ≡ busiest counts.now named.now below }
{
    let mut best = 0;
    'keys: for key in 0..below {
        best = busier(counts, named, best, key);
    }
    best
}

/// Appends so many of the busiest keys, as far as there are fewer than 32.
fn put_busiest(counts: &[usize], named: &mut Vec<u64>, count: usize) -> Result<(), AllocError>
    ensures { OnOk result (named.new.items ≡ with_busiest counts.now named.old.items count) }
{
    'times: for _time in 0..count {
        let key = busiest(counts, named, KEYS);
        put_key(named, LISTED, key)?;
    }
    Ok(())
}

/// The cell of a key among 257, and none for a key above these.
fn key_cell(key: u64) -> usize
    ensures { result ≡ key_cell key }
{
    key.min(257) as usize
}

/// The cells of keys.
fn key_cells(alloc: Global, keys: &[u64]) -> Result<Vec<usize>, AllocError>
    ensures { IfOk result (λ cells. cells.items ≡ map key_cell keys.now) }
{
    keys.iter().map(|key| key_cell(*key)).collect(alloc)
}

/// How many frames there are of each of the first 257 keys.
fn counts_by_key(alloc: Global, keys: &[u64]) -> Result<Vec<usize>, AllocError>
    ensures { IfOk result (λ counts. counts.items ≡ counts_by_cell (map key_cell keys.now) 257) }
{
    let cells = key_cells(alloc, keys)?;
    counts_of(alloc, &cells, 257)
}

/// The keys of the backends that are listed, of frames with these keys.
pub(crate) fn listed_keys(
    alloc: Global,
    later: &[Command],
    keys: &[u64],
) -> Result<Vec<u64>, AllocError>
    ensures { IfOk result (λ listed. listed.items ≡ listed_keys later.now keys.now) }
{
    let counts = counts_by_key(alloc, keys)?;
    let mut listed = named_by(alloc, later)?;
    put_busiest(&counts, &mut listed, LISTED)?;
    Ok(listed)
}

/// The first of keys.
pub(crate) fn first_keys(keys: &[u64], count: usize) -> &[u64]
    ensures { result.now ≡ take count keys.now }
{
    if keys.len() <= count {
        keys
    } else {
        &keys[..count]
    }
}

/// Those of the listed backends with a name.
pub(crate) fn named_keys(listed: &[u64]) -> &[u64]
    ensures { result.now ≡ named_keys listed.now }
{
    first_keys(listed, NAMED)
}

/// The place of a key among these.
fn place_of(listed: &[u64], key: u64) -> Option<usize>
    ensures { result ≡ position (λ other. other == key) listed.now }
{
    listed.iter().position(|other| *other == key)
}

/// The place of a key among these, and this number for all others.
fn place_or(listed: &[u64], others: usize, key: u64) -> usize
    ensures { result ≡ place_or listed.now others key }
{
    match place_of(listed, key) {
        Some(place) => place,
        None => others,
    }
}

/// The pattern of a backend.
pub(crate) fn pattern_of(named: &[u64], key: u64) -> usize
    ensures { result ≡ pattern_of named.now key }
{
    place_or(named, NAMED, key)
}

/// The class of a frame.
fn class_of_key(listed: &[u64], others: usize, key: u64) -> usize
    requires { others < 2 ^ 32 }
    ensures { result ≡ class_of_key listed.now others key }
{
    if key == 0 {
        others + 1
    } else {
        place_or(listed, others, key)
    }
}

/// The classes of frames.
pub(crate) fn classes_of(
    alloc: Global,
    listed: &[u64],
    others: usize,
    keys: &[u64],
) -> Result<Vec<usize>, AllocError>
    requires { others < 2 ^ 32 }
    ensures { IfOk result (λ classes. classes.items ≡ classes_of listed.now others keys.now) }
{
    keys.iter()
        .map(|key| class_of_key(listed, others, *key))
        .collect(alloc)
}
