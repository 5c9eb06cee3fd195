//! A block of a list of numbers.

ghost use Rattle.std.specs.Prelude.{◌≡◌, ◌<◌, ◌≤◌, ◌+◌, [], ◌∷◌, ◌++◌, IfOk, length, slice_index_or};
ghost use Rattle.std.specs.List.{insert, remove};
ghost use Rattle.plain_maps.specs.NumberBlocks.{block_size};

use std::alloc::{AllocError, Global};
use std::collections::VecDeque;
use std::marker::Model;

/// How many numbers a block has, where it is not the last.
pub(crate) const BLOCK: usize = 1024;

/// Up to `BLOCK` numbers, and room for one more. Contracts see the list of them.
#[derive(Drop)]
pub struct NumberBlock {
    numbers: VecDeque<u32>,
}

impl Model for NumberBlock {
    ghost use Rattle.std.specs.Prelude.{ℕ, List, ◌≤◌, ◌+◌};
    ghost use Rattle.std.specs.VecDeque.{deque_capacity};
    ghost use Rattle.plain_maps.specs.NumberBlocks.{block_size};

    ghost Value = { List ℕ };

    ghost view = { λ block. block.numbers.items };

    ghost invariant = { λ block. block_size + 1 ≤ deque_capacity block.numbers };
}

impl NumberBlock {
    /// A block without numbers. Fails only for lack of memory; no other call takes any.
    pub(crate) fn new(alloc: Global) -> Result<Self, AllocError>
        ensures { IfOk result (λ block. block ≡ []) }
    {
        Ok(NumberBlock {
            numbers: VecDeque::with_capacity(alloc, BLOCK + 1)?,
        })
    }

    /// The number at a place.
    pub(crate) fn get(&self, at: usize) -> u32
        requires { at < length self.now }
        ensures { result ≡ slice_index_or self.now at 0 }
    {
        self.numbers[at]
    }

    /// Puts a number at a place; those from it on move one place back.
    pub(crate) fn insert(&mut self, at: usize, number: u32)
        requires place { at ≤ length self.old }
        requires room { length self.old ≤ block_size }
        ensures { self.new ≡ insert self.old at number }
    {
        if self.numbers.insert(at, number).is_err() {
            unreachable!()
        }
    }

    /// Takes the number at a place out; those after it move one place forward.
    pub(crate) fn remove(&mut self, at: usize) -> u32
        requires { at < length self.old }
        ensures number { result ≡ slice_index_or self.old at 0 }
        ensures rest { self.new ≡ remove self.old at }
    {
        match self.numbers.remove(at) {
            Some(number) => number,
            None => unreachable!(),
        }
    }

    /// Puts a number before all others.
    pub(crate) fn push_front(&mut self, number: u32)
        requires { length self.old ≤ block_size }
        ensures { self.new ≡ number ∷ self.old }
    {
        if self.numbers.push_front(number).is_err() {
            unreachable!()
        }
    }

    /// Puts a number behind all others.
    pub(crate) fn push_back(&mut self, number: u32)
        requires { length self.old ≤ block_size }
        ensures { self.new ≡ self.old ++ number ∷ [] }
    {
        if self.numbers.push_back(number).is_err() {
            unreachable!()
        }
    }

    /// Takes the first number out.
    pub(crate) fn pop_front(&mut self) -> u32
        requires { 0 < length self.old }
        ensures { self.old ≡ result ∷ self.new }
    {
        match self.numbers.pop_front() {
            Some(number) => number,
            None => unreachable!(),
        }
    }

    /// Takes the last number out.
    pub(crate) fn pop_back(&mut self) -> u32
        requires { 0 < length self.old }
        ensures { self.old ≡ self.new ++ result ∷ [] }
    {
        match self.numbers.pop_back() {
            Some(number) => number,
            None => unreachable!(),
        }
    }
}
