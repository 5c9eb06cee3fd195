//! The line of a map.

ghost use Rattle.std.specs.Prelude.{◌≡◌, ◌++◌, ◌<◌, string_bytes, OnOk, IfOk};
ghost use Rattle.std.specs.List.{find};
ghost use Rattle.std.specs.Option.{MatchOption};
ghost use Rattle.std.specs.Str.{bytes_eq};
ghost use Rattle.ebpf_decode.specs.declared.map.MapKind.{MapKind as Kind};
ghost use Rattle.ebpf_decode.specs.declared.map.MapDef.{MapDef as Definition};
ghost use Rattle.disasm.specs.AssemblyText.{kind_name, after_space, map_line_of, IsMapLine};
ghost use Rattle.disasm.specs.TextReading.{TellsMap, BeginsWithNoMap, IsFirstMap};

use ebpf_decode::{MapDef, MapKind};
use std::alloc::{AllocError, Global};
use text_lines::{after, count_of, cut};

fn kind_name(of: MapKind) -> &'static str
    ensures { result.now ≡ kind_name of }
{
    match of {
        MapKind::Hash => "hash",
        MapKind::Array => "array",
        MapKind::LruHash => "lru",
    }
}

/// Writes a space and a number.
fn put_number(alloc: Global, out: &mut String, value: u32) -> Result<(), AllocError>
    ensures { OnOk result (string_bytes out.new ≡ string_bytes out.old ++ after_space value) }
{
    out.push_str(" ")?;
    out.push_str(&format!(in alloc; "{value}")?)
}

/// Writes the map's line, without a line feed.
#[tactic(auto, unfolding(crate::specs::AssemblyText::map_line_of))]
pub(crate) fn put_map_line(alloc: Global, out: &mut String, map: MapDef) -> Result<(), AllocError>
    ensures { OnOk result (string_bytes out.new ≡ string_bytes out.old ++ map_line_of map) }
{
    out.push_str("map ")?;
    out.push_str(kind_name(map.kind))?;
    put_number(alloc, out, map.key_size)?;
    put_number(alloc, out, map.value_size)?;
    put_number(alloc, out, map.max_entries)
}

/// The map's line in the text form, without a line feed.
fn map_line(alloc: Global, map: MapDef) -> Result<String, AllocError>
    ensures { IfOk result (λ line. IsMapLine map (string_bytes line)) }
{
    let mut out = String::new(alloc);
    put_map_line(alloc, &mut out, map)?;
    Ok(out)
}

/// Every kind of map once.
const KINDS: [MapKind; 3] = [MapKind::Hash, MapKind::Array, MapKind::LruHash];

fn kind_of(name: &str) -> MapKind
    ensures { (kind : Kind) → name.now ≡ kind_name kind → result ≡ kind }
{
    first_kind(&KINDS, name).unwrap_or(MapKind::Array)
}

fn first_kind(all: &[MapKind], name: &str) -> Option<MapKind>
    ensures { result ≡ find (λ kind. bytes_eq (kind_name kind) name.now) all.now }
{
    all.iter().copied().find(|kind| kind_name(*kind) == name)
}

/// The map of the line, if it is spelled exactly so.
fn map_read(line: &str) -> MapDef
    ensures { (map : Definition) → IsMapLine map line.now → result ≡ map }
{
    let (kind, numbers) = cut(after(line, "map "), ' ');
    let (key_size, counts) = cut(numbers, ' ');
    let (value_size, max_entries) = cut(counts, ' ');
    MapDef {
        kind: kind_of(kind),
        key_size: count_of(key_size),
        value_size: count_of(value_size),
        max_entries: count_of(max_entries),
    }
}

/// The map whose line this is, if it is one's: what was read is printed again and compared.
fn map_of(alloc: Global, line: &str) -> Result<Option<MapDef>, AllocError>
    ensures { IfOk result (λ found. TellsMap line.now found) }
{
    let map = map_read(line);
    let again = map_line(alloc, map)?;
    if again.as_str() == line {
        Ok(Some(map))
    } else {
        Ok(None)
    }
}

/// The map of the first line and what comes after it, if that line is a map's.
pub(crate) fn first_map(alloc: Global, text: &str) -> Result<Option<(MapDef, &str)>, AllocError>
    ensures { IfOk result (λ found. MatchOption found (BeginsWithNoMap text.now) (λ x. IsFirstMap text.now x.0 x.1.now)) }
{
    match text.split_once('\n') {
        None => Ok(None),
        Some((line, rest)) => match map_of(alloc, line)? {
            None => Ok(None),
            Some(map) => Ok(Some((map, rest))),
        },
    }
}
