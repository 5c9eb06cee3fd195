//! Keys that were chosen to meet in one bucket, so that all but three are in order.

ghost use Rattle.std.specs.Prelude.{◌≡◌};

use super::try_insert;
use crate::asserting::same;
use plain_maps::HashShard;
use std::alloc::AllocError;

type KeyBytes = [u8; 16];

const FACTOR: u64 = 0x9e37_79b9_7f4a_7c15;

/// The number that the factor is multiplied with for 1.
const INVERSE: u64 = 0xf1de_83e1_9937_733d;

/// A key of the hash that all of them have: its second word is what the first one's hash has to be mixed with.
fn colliding_key(first: u64) -> KeyBytes {
    let product = (0xcbf2_9ce4_8422_2325 ^ first).wrapping_mul(FACTOR);
    let goal: u64 = 0x0123_4567_89ab_cdef;
    let before = (goal ^ (goal >> 32)).wrapping_mul(INVERSE);
    let second = before ^ product ^ (product >> 32);
    let [a, b, c, d, e, f, g, h] = first.to_le_bytes();
    let [i, j, k, l, m, n, o, p] = second.to_le_bytes();
    [a, b, c, d, e, f, g, h, i, j, k, l, m, n, o, p]
}

/// Inserts 4096 keys, each with its number for its cell, in an order that goes to and fro.
fn fill(shard: &mut HashShard)
    requires { shard.old.size ≡ 16 }
    ensures { shard.new.size ≡ 16 }
{
    for i in 0..4096_u32 {
        let number = u64::from(i.wrapping_mul(40503) & 4095);
        try_insert(shard, &colliding_key(number), number);
    }
}

/// How many keys below a number have the cell that they were given.
fn found(shard: &HashShard) -> u32
    requires { shard.now.size ≡ 16 }
{
    let mut count: u32 = 0;
    for number in 0..4096_u64 {
        if shard.find(&colliding_key(number)) == Some(number) {
            count = count.saturating_add(1);
        }
    }
    count
}

/// Takes each third key out, and returns how many were there.
fn take_thirds(shard: &mut HashShard) -> u32
    requires { shard.old.size ≡ 16 }
    ensures { shard.new.size ≡ 16 }
{
    let mut count: u32 = 0;
    for number in 0..4096_u64 {
        if number % 3 == 0 && shard.remove(&colliding_key(number)).is_some() {
            count = count.saturating_add(1);
        }
    }
    count
}

#[test]
fn keys_chosen_to_collide_come_and_go(rt: HostRuntime) -> Result<(), AllocError> {
    let mut shard = HashShard::new(rt.alloc(), 16, 4096)?;
    fill(&mut shard);
    same(&rt, "all are found", &found(&shard), &4096);
    // 0, 3, .., 4095
    same(
        &rt,
        "each third is taken out",
        &take_thirds(&mut shard),
        &1366,
    );
    same(&rt, "the others are found", &found(&shard), &2730);
    same(
        &rt,
        "none of the thirds is left",
        &take_thirds(&mut shard),
        &0,
    );
    fill(&mut shard);
    same(&rt, "all are found again", &found(&shard), &4096);
    Ok(())
}
