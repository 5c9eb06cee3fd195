//! What is known of a register and of a word of the stack, in words.

ghost use Rattle.std.specs.Prelude.{◌≡◌, ◌++◌, string_bytes, OnOk};
ghost use Rattle.reasons.specs.Wording.{range_text, packet_base_text, offset_text, packet_text, value_head_text, value_text, kind_text};
ghost use Rattle.reasons.specs.Wording.{byte_mark, marks_text, word_text};

use abstract_state::{Kind, Offsets, STACK_SIZE, StackWord};
use std::alloc::{AllocError, Global};

/// A number, or the least and the greatest of several.
#[tactic(auto, unfolding(crate::specs::Wording::range_text))]
fn put_range(alloc: Global, out: &mut String, low: u64, high: u64) -> Result<(), AllocError>
    ensures { OnOk result (string_bytes out.new ≡ string_bytes out.old ++ range_text low high) }
{
    out.push_str(&format!(in alloc; "{low}")?)?;
    if low == high {
        return Ok(());
    }
    out.push_str(&format!(in alloc; "..{high}")?)
}

/// What a packet pointer's offset counts from.
#[tactic(auto, unfolding(crate::specs::Wording::packet_base_text))]
fn put_packet_base(alloc: Global, out: &mut String, id: u16) -> Result<(), AllocError>
    ensures { OnOk result (string_bytes out.new ≡ string_bytes out.old ++ packet_base_text id) }
{
    if id == 0 {
        return out.push_str("packet");
    }
    out.push_str(&format!(in alloc; "packet past the sum of slot {id}")?)
}

/// A packet pointer: its base, its offset, and how many bytes from the base are known.
#[tactic(auto, unfolding(crate::specs::Wording::packet_text))]
fn put_packet(
    alloc: Global,
    out: &mut String,
    id: u16,
    off: u16,
    range: u32,
) -> Result<(), AllocError>
    ensures { OnOk result (string_bytes out.new ≡ string_bytes out.old ++ packet_text id off range) }
{
    put_packet_base(alloc, out, id)?;
    put_offset(alloc, out, off, range)
}

/// An offset, and how many bytes from the base are known.
#[tactic(auto, unfolding(crate::specs::Wording::offset_text))]
fn put_offset(alloc: Global, out: &mut String, off: u16, range: u32) -> Result<(), AllocError>
    ensures { OnOk result (string_bytes out.new ≡ string_bytes out.old ++ offset_text off range) }
{
    out.push_str(&format!(in alloc; " +{off}, {range} bytes known")?)
}

/// An address in a map's value.
#[tactic(auto, unfolding(crate::specs::Wording::value_text))]
fn put_value(
    alloc: Global,
    out: &mut String,
    map: u32,
    id: u16,
    off: Offsets,
) -> Result<(), AllocError>
    ensures { OnOk result (string_bytes out.new ≡ string_bytes out.old ++ value_text map id off) }
{
    put_value_head(alloc, out, map, id)?;
    put_range(alloc, out, u64::from(off.low), u64::from(off.high))
}

/// Which value an address lies in.
#[tactic(auto, unfolding(crate::specs::Wording::value_head_text))]
fn put_value_head(alloc: Global, out: &mut String, map: u32, id: u16) -> Result<(), AllocError>
    ensures { OnOk result (string_bytes out.new ≡ string_bytes out.old ++ value_head_text map id) }
{
    out.push_str(&format!(in alloc; "value of map {map} from slot {id} +")?)
}

/// What is known of a register.
#[tactic(auto, unfolding(crate::specs::Wording::kind_text))]
pub(crate) fn put_kind(alloc: Global, out: &mut String, kind: Kind) -> Result<(), AllocError>
    ensures { OnOk result (string_bytes out.new ≡ string_bytes out.old ++ kind_text kind) }
{
    match kind {
        Kind::Unset => out.push_str("unset"),
        Kind::Scalar(i) => {
            out.push_str("number ")?;
            put_range(alloc, out, i.low, i.high)
        }
        Kind::Ctx => out.push_str("context"),
        Kind::Stack(place) => {
            let below = STACK_SIZE.saturating_sub(place);
            out.push_str(&format!(in alloc; "stack r10-{below}")?)
        }
        Kind::Packet { id, off, range } => put_packet(alloc, out, id, off, range),
        Kind::PacketEnd => out.push_str("packet end"),
        Kind::Map(map) => out.push_str(&format!(in alloc; "map {map}")?),
        Kind::ValueOrNull { map, id } => {
            out.push_str(&format!(in alloc; "value of map {map} or null from slot {id}")?)
        }
        Kind::Value { map, id, off } => put_value(alloc, out, map, id, off),
    }
}

/// Whether a byte was written.
fn byte_mark(is_written: bool) -> &'static str
    ensures { result.now ≡ byte_mark is_written }
{
    if is_written { "w" } else { "-" }
}

/// Which bytes were written, the lowest first.
#[tactic(auto, unfolding(crate::specs::Wording::marks_text))]
fn put_marks(out: &mut String, set: &[bool]) -> Result<(), AllocError>
    ensures { OnOk result (string_bytes out.new ≡ string_bytes out.old ++ marks_text set.now) }
{
    for is_written in set {
        out.push_str(byte_mark(*is_written))?;
    }
    Ok(())
}

/// What is known of a word of the stack.
#[tactic(auto, unfolding(crate::specs::Wording::word_text))]
pub(crate) fn put_word(alloc: Global, out: &mut String, word: StackWord) -> Result<(), AllocError>
    ensures { OnOk result (string_bytes out.new ≡ string_bytes out.old ++ word_text word) }
{
    match word {
        StackWord::Spilled(kind) => {
            out.push_str("spilled ")?;
            put_kind(alloc, out, kind)
        }
        StackWord::Bytes(set) => {
            out.push_str("bytes ")?;
            put_marks(out, &set)
        }
    }
}
