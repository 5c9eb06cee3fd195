//! What entries refer to: the lookup table, and the addresses of the backends.

ghost use Rattle.std.specs.Prelude.{◌≡◌, IfOk, string_bytes};
ghost use Rattle.map_meanings.specs.Meanings.{backend_address, entry_meaning, meaning_of, slot_word};

use crate::form::ContentsForm;
use crate::meanings::{
    backend_meaning, count_meaning, note_meaning, service_meaning, slot_meaning, tunnel_meaning,
};
use crate::pieces::{means_text, sized};
use conntrack::{BackendRecord, FlowRecord};
use std::alloc::{AllocError, Global};
use wire::Ipv4Address;

/// What entries of the maps of steering refer to.
#[derive(Debug, Drop)]
pub struct Tables {
    /// The words of the lookup table, by slot: one more than the owner's number, or 0.
    pub words: Vec<u32>,
    /// The addresses of the backends, by number.
    pub addresses: Vec<Ipv4Address>,
}

/// The word of a slot, by its record.
pub fn slot_word(value: &[u8]) -> u32
    ensures { result ≡ slot_word value.now }
{
    FlowRecord::of(&sized::<8>(value)).backend
}

/// The address in a backend's record.
pub fn backend_address(value: &[u8]) -> Ipv4Address
    ensures { result ≡ backend_address value.now }
{
    BackendRecord::of(&sized::<8>(value)).address
}

impl Tables {
    /// What an entry of the map at a place means: words, or the fields of a JSON object.
    fn meaning_of(
        &self,
        alloc: Global,
        form: ContentsForm,
        map: u32,
        key: &[u8],
        value: &[u8],
    ) -> Result<String, AllocError>
        ensures { IfOk result (λ text. string_bytes text ≡ meaning_of form self.now map key.now value.now) }
    {
        match map {
            0 => service_meaning(alloc, form, key, value),
            1 => note_meaning(alloc, form, &self.addresses, key, value),
            2 => slot_meaning(alloc, form, &self.addresses, key, value),
            3 => backend_meaning(alloc, form, &self.words, key, value),
            4 => tunnel_meaning(alloc, form, key, value),
            5 => count_meaning(alloc, form, key, value),
            _ => Ok(String::new(alloc)),
        }
    }

    /// What an entry of the map at a place means, as it stands behind the entry's bytes: a space and words, or a comma and the field `means`
    /// of a JSON object; nothing where an entry means nothing. It fails only for lack of memory.
    pub fn entry_meaning(
        &self,
        alloc: Global,
        form: ContentsForm,
        map: u32,
        key: &[u8],
        value: &[u8],
    ) -> Result<String, AllocError>
        ensures { IfOk result (λ text. string_bytes text ≡ entry_meaning form self.now map key.now value.now) }
    {
        let meaning = self.meaning_of(alloc, form, map, key, value)?;
        means_text(alloc, form, meaning.as_str())
    }
}
