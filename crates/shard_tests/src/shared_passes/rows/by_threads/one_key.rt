//! A hash shard of one entry and two cells, as one thread has it: its one key is set only while it is absent, and one worker reads.

use semantics::{Call, CellRef, Reply, Value};

/// The value of a cell by its number, which counts the cells that were ever made: a thousand, and the number.
pub(super) fn first_value(cell: u64) -> u64 {
    cell.wrapping_add(1000)
}

#[derive(Clone, Copy)]
struct Cell {
    number: u64,
    value: u64,
}

#[derive(Clone, Copy)]
pub(super) struct OneKey {
    /// The key's cell, where the key is there.
    present: Option<Cell>,
    /// What the worker found last.
    found: Option<Cell>,
    is_inside: bool,
    /// How many cells were ever made.
    made: u64,
    /// How many are retired that the worker may hold.
    held: u64,
    /// How many are retired that it cannot: it entered after they were, or is outside.
    free: u64,
}

impl OneKey {
    pub(super) fn new() -> OneKey {
        OneKey {
            present: None,
            found: None,
            is_inside: false,
            made: 0,
            held: 0,
            free: 0,
        }
    }

    /// Makes a call. Done is no reply of those that are made here.
    pub(super) fn reply(&mut self, call: &Call) -> Reply {
        match call {
            Call::Enter { .. } => {
                self.cross(true);
                Reply::Entered
            }
            Call::Leave { .. } => {
                self.cross(false);
                Reply::Left
            }
            Call::Lookup { .. } => self.look(),
            Call::Load { cell, .. } => self.load(cell),
            Call::Update { value, .. } => Reply::Answer {
                code: self.set(number_of(value)),
            },
            Call::Delete { .. } => Reply::Answer {
                code: self.delete(),
            },
            Call::Reclaim { .. } => self.reclaim(),
            _ => Reply::Done,
        }
    }

    /// The worker enters or leaves: then it holds nothing that was retired before.
    fn cross(&mut self, is_inside: bool) {
        self.is_inside = is_inside;
        self.found = None;
        self.free = self.free.wrapping_add(self.held);
        self.held = 0;
    }

    fn look(&mut self) -> Reply {
        match self.present {
            Some(cell) => {
                self.found = Some(cell);
                Reply::Cell {
                    cell: CellRef {
                        shard: 0,
                        id: cell.number,
                    },
                }
            }
            None => Reply::Null,
        }
    }

    fn load(&self, cell: &CellRef) -> Reply {
        match self.found {
            Some(found) if found.number == cell.id => Reply::Word { value: found.value },
            _ => Reply::Done,
        }
    }

    /// Sets the key: no memory, where both cells are retired.
    fn set(&mut self, value: u64) -> i32 {
        if self.held.wrapping_add(self.free) == 2 {
            return -12;
        }
        let number = self.made;
        self.present = Some(Cell { number, value });
        self.made = number.wrapping_add(1);
        0
    }

    /// Deletes the key, and retires its cell: there is no entry, where the key is absent.
    fn delete(&mut self) -> i32 {
        if self.present.is_none() {
            return -2;
        }
        self.present = None;
        if self.is_inside {
            self.held = self.held.wrapping_add(1);
        } else {
            self.free = self.free.wrapping_add(1);
        }
        0
    }

    fn reclaim(&mut self) -> Reply {
        let count = self.free;
        self.free = 0;
        Reply::Freed { count }
    }
}

/// The number of a value's bytes, the lowest first.
fn number_of(value: &Value) -> u64 {
    let mut number: u64 = 0;
    for byte in value.as_slice().iter().rev() {
        number = number.wrapping_mul(256).wrapping_add(u64::from(*byte));
    }
    number
}
