//! The search among the keys in order.

ghost use Rattle.std.specs.Prelude.{◌≡◌, ◌<◌, ◌≤◌, ◌+◌, ◌*◌, length, IfOk, IfErr};
ghost use Rattle.plain_maps.specs.Keyed.{key_of, IsOrder, IsAt, IsGapFor};

use crate::number_list::NumberList;
use std::cmp::Ordering;

/// The key of an entry number.
pub(crate) fn key_at(keys: &[u8], size: usize, number: usize) -> &[u8]
    requires { number * size + size ≤ length keys.now }
    ensures { result.now ≡ key_of size keys.now number }
{
    let start = number * size;
    &keys[start..start + size]
}

/// Where the key is, or where it would go.
pub(crate) fn search(
    keys: &[u8],
    size: usize,
    capacity: usize,
    order: &NumberList,
    key: &[u8],
) -> Result<usize, usize>
    requires { IsOrder size capacity keys.now order.now.numbers }
    ensures found { IfOk result (IsAt size keys.now order.now.numbers key.now) }
    ensures absent { IfErr result (IsGapFor size keys.now order.now.numbers key.now) }
{
    let mut low = 0;
    let mut high = order.len();
    while low < high {
        let middle = low + (high - low) / 2;
        let other = key_at(keys, size, order.get(middle) as usize);
        match other.cmp(&key) {
            Ordering::Less => low = middle + 1,
            Ordering::Equal => return Ok(middle),
            Ordering::Greater => high = middle,
        }
    }
    Err(low)
}
