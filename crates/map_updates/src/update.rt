//! One value that is set.

use semantics::{Key, Value};

/// A key of a map, and the value that it gets whether or not the key is there (the flags ANY of bpf(2)).
#[derive(Clone, Copy, Debug, PartialEq, Eq)]
pub struct MapUpdate {
    /// The map's place among the image's maps, from 0.
    pub map: u32,
    pub key: Key,
    pub value: Value,
}
