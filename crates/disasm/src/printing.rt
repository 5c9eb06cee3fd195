//! The text of an image.

ghost use Rattle.std.specs.Prelude.{◌≡◌, ◌++◌, string_bytes, OnOk, IfOk};
ghost use Rattle.disasm.specs.AssemblyText.{version_text, maps_text, code_text, IsAssemblyText};

use crate::map_line::put_map_line;
use crate::spelling::put_line;
use ebpf_decode::{Image, Insn, MapDef, Version};
use std::alloc::{AllocError, Global};

fn put_maps(alloc: Global, out: &mut String, maps: &[MapDef]) -> Result<(), AllocError>
    ensures { OnOk result (string_bytes out.new ≡ string_bytes out.old ++ maps_text maps.now) }
{
    for map in maps {
        put_map_line(alloc, out, *map)?;
        out.push_str("\n")?;
    }
    Ok(())
}

fn put_code(alloc: Global, out: &mut String, code: &[Insn]) -> Result<(), AllocError>
    ensures { OnOk result (string_bytes out.new ≡ string_bytes out.old ++ code_text code.now) }
{
    for insn in code {
        put_line(alloc, out, *insn)?;
        out.push_str("\n")?;
    }
    Ok(())
}

/// The first line, with its line feed.
pub(crate) fn version_text(version: Version) -> &'static str
    ensures { result.now ≡ version_text version }
{
    match version {
        Version::V1 => "version 1\n",
        Version::V2 => "version 2\n",
    }
}

/// The one text of an image: `version 1` or `version 2`, a line for each map, a line for each instruction, each ended by a line feed. It
/// fails only where memory is refused.
pub fn text(alloc: Global, image: &Image) -> Result<String, AllocError>
    ensures { IfOk result (λ text. IsAssemblyText (string_bytes text) image.now) }
{
    let mut out = String::new(alloc);
    out.push_str(version_text(image.version()))?;
    put_maps(alloc, &mut out, image.maps())?;
    put_code(alloc, &mut out, image.code())?;
    Ok(out)
}
