//! An update, read from words.

ghost use Rattle.std.specs.Prelude.{◌≡◌, ◌⊎◌, Ok, IfOk, IfErr};
ghost use Rattle.hex.specs.Hex.{decode_of};
ghost use Rattle.map_updates.specs.UpdateWords.{IsWritten, AreMistakenWords, IsMapNumber, numeral_value, IsHex, IsNoHex, IsUndecoded};
ghost use Rattle.map_updates.specs.declared.reading.Mistake.TheVariants as mistakes;

use crate::update::MapUpdate;
use hex::FromHexError;
use semantics::{Key, Value};
use std::alloc::Global;
use thiserror::Error;

/// Why three words are no update.
#[derive(Clone, Copy, Debug, PartialEq, Eq, Error)]
pub enum Mistake {
    /// The first is no decimal number below 2^32.
    #[error("its map is no number below 4294967296")]
    Map,
    /// The second is no key: two hexadecimal digits for each of at most 32 bytes.
    #[error("its key has not two hexadecimal digits for each of at most 32 bytes")]
    Key,
    /// The third is no value: two hexadecimal digits for each of at most 256 bytes.
    #[error("its value has not two hexadecimal digits for each of at most 256 bytes")]
    Value,
    /// Memory was refused.
    #[error("out of memory")]
    Memory,
}

/// The update that three words say: a map's place in decimal, a key and a value in hexadecimal. Of several mistakes the first is returned.
pub fn update_of(alloc: Global, map: &str, key: &str, value: &str) -> Result<MapUpdate, Mistake>
    ensures read { IfOk result (IsWritten map.now key.now value.now) }
    ensures mistaken { IfErr result (AreMistakenWords map.now key.now value.now) }
{
    let map = number_of(map)?;
    let key = key_of(alloc, key)?;
    let value = value_of(alloc, value)?;
    Ok(MapUpdate { map, key, value })
}

/// The number that a decimal numeral writes.
fn number_of(text: &str) -> Result<u32, Mistake>
    ensures read { IfOk result (λ number. IsMapNumber text.now × (number ≡ numeral_value text.now)) }
    ensures mistaken { IfErr result (λ mistake. (mistake ≡ mistakes.Map) × ¬ IsMapNumber text.now) }
{
    match text.parse::<u32>() {
        Ok(number) => Ok(number),
        Err(_) => Err(Mistake::Map),
    }
}

/// The bytes that hexadecimal digits write, two for each byte.
fn bytes_of(alloc: Global, text: &str, mistake: Mistake) -> Result<Vec<u8>, Mistake>
    ensures read { IfOk result (λ bytes. decode_of text.now ≡ Ok bytes.items) }
    ensures mistaken { IfErr result (λ told. (told ≡ mistakes.Memory) ⊎ ((told ≡ mistake) × IsUndecoded text.now)) }
{
    match hex::decode(alloc, text) {
        Ok(bytes) => Ok(bytes),
        Err(FromHexError::OutOfMemory) => Err(Mistake::Memory),
        Err(_) => Err(mistake),
    }
}

/// The key that hexadecimal digits write.
fn key_of(alloc: Global, text: &str) -> Result<Key, Mistake>
    ensures read { IfOk result (λ key. IsHex 32 text.now key) }
    ensures mistaken { IfErr result (λ told. (told ≡ mistakes.Memory) ⊎ ((told ≡ mistakes.Key) × IsNoHex 32 text.now)) }
{
    let bytes = bytes_of(alloc, text, Mistake::Key)?;
    match Key::of(&bytes) {
        Some(key) => Ok(key),
        None => Err(Mistake::Key),
    }
}

/// The value that hexadecimal digits write.
fn value_of(alloc: Global, text: &str) -> Result<Value, Mistake>
    ensures read { IfOk result (λ value. IsHex 256 text.now value) }
    ensures mistaken { IfErr result (λ told. (told ≡ mistakes.Memory) ⊎ ((told ≡ mistakes.Value) × IsNoHex 256 text.now)) }
{
    let bytes = bytes_of(alloc, text, Mistake::Value)?;
    match Value::of(&bytes) {
        Some(value) => Ok(value),
        None => Err(Mistake::Value),
    }
}
