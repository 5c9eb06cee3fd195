//! Buckets of entry numbers, by the hash of their keys.

ghost use Rattle.std.specs.Prelude.{◌≡◌, ◌≢◌, ◌<◌, ◌≤◌, ◌+◌, ◌*◌, ◌/◌, ◌↔◌, ℕ, length, bytes_eq};
ghost use Rattle.plain_maps.specs.Hashing.{mixed, hashed_with_bytes, hash_of, home_of};
ghost use Rattle.plain_maps.specs.Buckets.{nothing, StandsInBucket, has, found_in, placed, cleared_slot, cleared};

use crate::search::key_at;

/// In a bucket, a place without an entry number.
pub(crate) const NOTHING: u32 = u32::MAX;

/// Up to three entry numbers, whose keys have this bucket.
#[derive(Clone, Copy, Debug, PartialEq, Eq)]
pub struct Bucket {
    /// An entry number, or `u32::MAX`.
    pub first: u32,
    /// Another.
    pub second: u32,
    /// A third.
    pub third: u32,
    /// How many further keys of this bucket are in order instead.
    pub over: u32,
}

impl Bucket {
    /// A bucket with no number.
    pub(crate) const EMPTY: Bucket = Bucket {
        first: NOTHING,
        second: NOTHING,
        third: NOTHING,
        over: 0,
    };
}

fn mixed(hash: u64, word: u64) -> u64
    ensures { result ≡ mixed hash word }
{
    let product = (hash ^ word).wrapping_mul(0x9e37_79b9_7f4a_7c15);
    product ^ (product >> 32)
}

fn with_bytes(bytes: &[u8], start: u64) -> u64
    ensures { result ≡ hashed_with_bytes bytes.now start }
{
    let mut hash = start;
    for byte in bytes {
        hash = mixed(hash, u64::from(*byte));
    }
    hash
}

fn hash_of(key: &[u8]) -> u64
    ensures { result ≡ hash_of key.now }
{
    let mut hash = 0xcbf2_9ce4_8422_2325;
    let mut rest = key;
    'words: while let Some((word, later)) = rest.split_first_chunk::<8>() {
        hash = mixed(hash, u64::from_le_bytes(*word));
        rest = later;
    }
    with_bytes(rest, hash)
}

/// The bucket of a key.
pub(crate) fn home_of(key: &[u8], buckets: usize) -> usize
    requires { 0 < buckets }
    ensures home { result ≡ home_of buckets key.now }
    ensures within { result < buckets }
{
    hash_of(key) as usize & (buckets - 1)
}

/// Whether these are the same bytes. Compares with no early end, so that it goes by many bytes at a time.
fn is_same_key(a: &[u8], b: &[u8]) -> bool
    requires { length a.now ≡ length b.now }
    ensures { result ≡ bytes_eq a.now b.now }
{
    let mut same = true;
    for i in 0..a.len() {
        same &= a[i] == b[i];
    }
    same
}

/// Whether this is an entry number, with this key.
fn has(keys: &[u8], size: usize, number: u32, key: &[u8]) -> bool
    requires size { length key.now ≡ size }
    requires within { number ≢ nothing → number * size + size ≤ length keys.now }
    ensures { result ≡ has size keys.now key.now number }
{
    number != NOTHING && is_same_key(key_at(keys, size, number as usize), key)
}

/// The entry number of a key, if it is in the bucket.
pub(crate) fn found_in(keys: &[u8], size: usize, bucket: &Bucket, key: &[u8]) -> Option<u32>
    requires size { length key.now ≡ size }
    requires within { (n : ℕ) → StandsInBucket n bucket.now → n ≢ nothing → n * size + size ≤ length keys.now }
    ensures { result ≡ found_in size keys.now key.now bucket.now }
{
    if has(keys, size, bucket.first, key) {
        return Some(bucket.first);
    }
    if has(keys, size, bucket.second, key) {
        return Some(bucket.second);
    }
    if has(keys, size, bucket.third, key) {
        return Some(bucket.third);
    }
    None
}

/// The bucket with one more number, if it has a free place.
pub(crate) fn placed(number: u32, bucket: Bucket) -> Option<Bucket>
    ensures { result ≡ placed number bucket }
{
    if bucket.first == NOTHING {
        Some(Bucket {
            first: number,
            ..bucket
        })
    } else if bucket.second == NOTHING {
        Some(Bucket {
            second: number,
            ..bucket
        })
    } else if bucket.third == NOTHING {
        Some(Bucket {
            third: number,
            ..bucket
        })
    } else {
        None
    }
}

fn cleared_slot(number: u32, slot: u32) -> u32
    ensures { result ≡ cleared_slot number slot }
{
    if slot == number { NOTHING } else { slot }
}

/// The bucket without a number.
pub(crate) fn cleared(number: u32, bucket: Bucket) -> Bucket
    ensures { result ≡ cleared number bucket }
{
    Bucket {
        first: cleared_slot(number, bucket.first),
        second: cleared_slot(number, bucket.second),
        third: cleared_slot(number, bucket.third),
        over: bucket.over,
    }
}
