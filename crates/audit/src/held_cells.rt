//! Which cells each worker holds while a journal is audited. Each entry is looked at once: kept are the serial of a worker's newest Enter or Leave, and by
//! cell that of its newest Lookup that found it; it holds the cell if the Lookup is newer.

ghost use Rattle.std.specs.Prelude.{◌≡◌, ◌+◌, ◌<◌, ◌==◌, ℕ, List, [], ◌∷◌, IfOk, OnOk, length, cond};
ghost use Rattle.semantics.specs.declared.call.Entry.{Entry as Told};
ghost use Rattle.semantics.specs.Reclamation.{holds};
ghost use Rattle.audit.specs.HeldCells.{serial_found, is_found_since, since_after, found_after, Tells, AreHeld};

use semantics::{Caller, Entry, HeldChange, MOST_WORKERS};
use std::alloc::{AllocError, Global};

/// What a worker's own entries so far say of the cells that it holds. A serial is an entry's place counted from 1; 0 is none.
#[derive(Drop)]
pub(crate) struct WorkerCells {
    /// The serial of its newest Enter or Leave.
    since: u64,
    /// Of each cell, by its id, the serial of its newest Lookup that found the cell.
    found: Vec<u64>,
}

impl WorkerCells {
    /// No cell is held. Allocates nothing.
    fn new(alloc: Global) -> WorkerCells
        ensures { (worker : ℕ) → Tells worker [] result }
    {
        WorkerCells {
            since: 0,
            found: Vec::new(alloc),
        }
    }

    /// Whether a Lookup found the cell since the worker's newest Enter or Leave.
    fn has(&self, cell: u64) -> bool
        ensures { result ≡ is_found_since self.now cell }
    {
        match self.found.get(cell as usize) {
            Some(serial) => self.since < *serial,
            None => false,
        }
    }

    /// Makes room for a cell's serial.
    fn extend_to(&mut self, cell: usize) -> Result<(), AllocError>
        ensures since { self.new.since ≡ self.old.since }
        ensures same { OnOk result ((other : ℕ) → serial_found self.new other ≡ serial_found self.old other) }
        ensures reached { OnOk result (cell < length self.new.found.items) }
    {
        'places: while self.found.len() <= cell {
            self.found.push(0)?;
        }
        Ok(())
    }

    /// Records that the Lookup with this serial found the cell.
    fn put(&mut self, cell: u64, serial: u64) -> Result<(), AllocError>
        ensures since { self.new.since ≡ self.old.since }
        ensures found { OnOk result ((other : ℕ) → serial_found self.new other ≡ cond (cell == other) serial (serial_found self.old other)) }
    {
        let at = cell as usize;
        self.extend_to(at)?;
        self.found[at] = serial;
        Ok(())
    }

    /// Applies the effect of the worker's entry with this serial.
    fn note(&mut self, change: HeldChange, serial: u64) -> Result<(), AllocError>
        ensures since { OnOk result (self.new.since ≡ since_after change serial self.old.since) }
        ensures found { OnOk result ((cell : ℕ) → serial_found self.new cell ≡ found_after change serial cell (serial_found self.old cell)) }
    {
        match change {
            HeldChange::LetsGo => {
                self.since = serial;
                Ok(())
            }
            HeldChange::Finds { id } => self.put(id, serial),
            HeldChange::Stays => Ok(()),
        }
    }
}

/// Which cells each worker holds after the entries that were noted.
#[derive(Drop)]
pub(crate) struct HeldCells {
    /// Of each worker, by its number.
    workers: Vec<WorkerCells>,
}

impl HeldCells {
    /// Nothing was noted.
    pub(crate) fn new(alloc: Global) -> Result<HeldCells, AllocError>
        ensures { IfOk result (λ held. AreHeld held []) }
    {
        let mut workers = Vec::new(alloc);
        'numbers: for _ in 0..MOST_WORKERS {
            workers.push(WorkerCells::new(alloc))?;
        }
        Ok(HeldCells { workers })
    }

    /// Whether the worker holds the cell.
    pub(crate) fn has(&self, worker: u8, cell: u64) -> bool
        requires { worker < 8 }
        ensures { (history : List Told) → AreHeld self.now history → result ≡ holds worker cell history }
    {
        match self.workers.get(usize::from(worker)) {
            Some(cells) => cells.has(cell),
            None => false,
        }
    }

    /// Records an entry; its serial is one more than that of the one before.
    pub(crate) fn note(&mut self, entry: &Entry, serial: u64) -> Result<(), AllocError>
        ensures { (history : List Told) → AreHeld self.old history → serial ≡ length history + 1 →
            OnOk result (AreHeld self.new (entry.now ∷ history)) }
    {
        match &entry.who {
            Caller::Worker { number } => match self.workers.get_mut(usize::from(*number)) {
                Some(cells) => cells.note(HeldChange::of(&entry.call, &entry.reply), serial),
                None => Ok(()),
            },
            Caller::Controller => Ok(()),
            Caller::Reclaimer => Ok(()),
        }
    }
}
