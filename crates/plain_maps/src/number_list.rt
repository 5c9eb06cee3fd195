//! A list of numbers in blocks, so that putting one in and taking one out moves few.

ghost use Rattle.std.specs.Prelude.{◌≡◌, ◌<◌, ◌≤◌, ◌+◌, ◌-◌, ◌*◌, ◌/◌, ◌^◌, [], ◌∷◌, ◌++◌, IfOk, length, slice_index_or};
ghost use Rattle.std.specs.List.{insert, remove};
ghost use Rattle.plain_maps.specs.NumberBlocks.{BoundedList, block_size, joined, Shaped, Over, Under};

use crate::number_block::{BLOCK, NumberBlock};
use std::alloc::{AllocError, Global};
use std::marker::Model;

/// A list of numbers, in room that is all taken when it is made. All blocks before the last that has numbers are full, so the number at
/// a place is found at once; one that is put in or taken out moves numbers of its block, and one number of each later block.
#[derive(Drop)]
pub struct NumberList {
    blocks: Vec<NumberBlock>,
    len: usize,
}

impl Model for NumberList {
    ghost use Rattle.std.specs.Prelude.{length};
    ghost use Rattle.plain_maps.specs.NumberBlocks.{BoundedList, bounded_list, IsInBlocks};

    ghost Value = { BoundedList };

    ghost view = { λ list. bounded_list list.blocks.items };

    ghost invariant = { λ list. IsInBlocks list.len list.blocks.items };
}

impl NumberList {
    /// A list without numbers, with room for this many. Fails only for lack of memory; no other call takes any.
    pub fn new(alloc: Global, room: usize) -> Result<Self, AllocError>
        requires { room < 2 ^ 32 }
        ensures numbers { IfOk result (λ list. list.numbers ≡ []) }
        ensures room { IfOk result (λ list. room ≤ list.room) }
    {
        let count = room / BLOCK + 1;
        let mut blocks = Vec::with_capacity(alloc, count)?;
        'blocks: for _ in 0..count {
            blocks.push(NumberBlock::new(alloc)?)?;
        }
        Ok(NumberList { blocks, len: 0 })
    }

    /// How many numbers there are.
    pub fn len(&self) -> usize
        ensures { result ≡ length self.now.numbers }
    {
        self.len
    }

    /// The number at a place.
    pub fn get(&self, at: usize) -> u32
        requires { at < length self.now.numbers }
        ensures { result ≡ slice_index_or self.now.numbers at 0 }
    {
        self.blocks[at / BLOCK].get(at % BLOCK)
    }

    /// Puts a number at a place; those from it on move one place back.
    pub fn insert(&mut self, at: usize, number: u32)
        requires place { at ≤ length self.old.numbers }
        requires room { length self.old.numbers < self.old.room }
        ensures numbers { self.new.numbers ≡ insert self.old.numbers at number }
        ensures room { self.new.room ≡ self.old.room }
    {
        put(&mut self.blocks, self.len, at, number);
        settle(&mut self.blocks, self.len, at / BLOCK);
        self.len += 1;
    }

    /// Takes the number at a place out; those after it move one place forward.
    pub fn remove(&mut self, at: usize) -> u32
        requires { at < length self.old.numbers }
        ensures number { result ≡ slice_index_or self.old.numbers at 0 }
        ensures numbers { self.new.numbers ≡ remove self.old.numbers at }
        ensures room { self.new.room ≡ self.old.room }
    {
        let number = take(&mut self.blocks, self.len, at);
        fill(&mut self.blocks, self.len, at / BLOCK);
        self.len -= 1;
        number
    }
}

/// Puts a number among this many: its block has one more.
fn put(blocks: &mut Vec<NumberBlock>, len: usize, at: usize, number: u32)
    requires shaped { Shaped len blocks.old.items }
    requires place { at ≤ len }
    requires room { len < length blocks.old.items * block_size }
    ensures over { Over (at / block_size) len blocks.new.items }
    ensures joined { joined blocks.new.items ≡ insert (joined blocks.old.items) at number }
    ensures count { length blocks.new.items ≡ length blocks.old.items }
{
    blocks[at / BLOCK].insert(at % BLOCK, number);
}

/// The last number of a block goes to the front of the next one.
fn pass_on(blocks: &mut Vec<NumberBlock>, len: usize, here: usize)
    requires over { Over here len blocks.old.items }
    requires more { here * block_size + block_size ≤ len }
    requires room { len < length blocks.old.items * block_size }
    ensures over { Over (here + 1) len blocks.new.items }
    ensures joined { joined blocks.new.items ≡ joined blocks.old.items }
    ensures count { length blocks.new.items ≡ length blocks.old.items }
{
    let last = blocks[here].pop_back();
    blocks[here + 1].push_front(last);
}

/// Each full block from this one on passes its last number on.
fn settle(blocks: &mut Vec<NumberBlock>, len: usize, first: usize)
    requires over { Over first len blocks.old.items }
    requires room { len < length blocks.old.items * block_size }
    ensures shaped { Shaped (len + 1) blocks.new.items }
    ensures joined { joined blocks.new.items ≡ joined blocks.old.items }
    ensures count { length blocks.new.items ≡ length blocks.old.items }
{
    'blocks: for here in first..len / BLOCK {
        pass_on(blocks, len, here);
    }
}

/// Takes a number out of this many: its block lacks one.
fn take(blocks: &mut Vec<NumberBlock>, len: usize, at: usize) -> u32
    requires shaped { Shaped len blocks.old.items }
    requires place { at < len }
    ensures number { result ≡ slice_index_or (joined blocks.old.items) at 0 }
    ensures under { Under (at / block_size) len blocks.new.items }
    ensures joined { joined blocks.new.items ≡ remove (joined blocks.old.items) at }
    ensures count { length blocks.new.items ≡ length blocks.old.items }
{
    blocks[at / BLOCK].remove(at % BLOCK)
}

/// The first number of the next block goes to the end of a block.
fn take_over(blocks: &mut Vec<NumberBlock>, len: usize, here: usize)
    requires under { Under here len blocks.old.items }
    requires more { here * block_size + block_size < len }
    ensures under { Under (here + 1) len blocks.new.items }
    ensures joined { joined blocks.new.items ≡ joined blocks.old.items }
    ensures count { length blocks.new.items ≡ length blocks.old.items }
{
    let first = blocks[here + 1].pop_front();
    blocks[here].push_back(first);
}

/// Each block from this one on takes the first number of the next one over.
fn fill(blocks: &mut Vec<NumberBlock>, len: usize, first: usize)
    requires under { Under first len blocks.old.items }
    requires some { 0 < len }
    ensures shaped { Shaped (len - 1) blocks.new.items }
    ensures joined { joined blocks.new.items ≡ joined blocks.old.items }
    ensures count { length blocks.new.items ≡ length blocks.old.items }
{
    'blocks: for here in first..(len - 1) / BLOCK {
        take_over(blocks, len, here);
    }
}
