//! Who is inside a shard, and in which epoch each entered.

ghost use Rattle.std.specs.Prelude.{◌≡◌, ◌+◌, ◌<◌, ◌^◌, ℕ, true, Some, None, count_by, is_some, nat_lt, slice_set};
ghost use Rattle.std.specs.List.{list_all};
ghost use Rattle.semantics.specs.Reclamation.{began_after};
ghost use Rattle.shard_core.specs.Sections.{ReaderEpochs, no_readers, epoch_of, with_next_epoch};

use epochs::EpochBook;
use std::marker::Model;

/// The workers inside a shard. Contracts see the present epoch, and of each worker by its number the epoch of its Enter.
#[derive(Drop)]
pub struct Readers {
    book: EpochBook,
    /// Of each worker inside, by its number, the epoch in which it entered.
    epochs: [Option<u64>; 8],
    /// How many workers are inside.
    count: usize,
}

impl Model for Readers {
    ghost use Rattle.shard_core.specs.Sections.{ReaderEpochs, IsCounted};

    ghost Value = { ReaderEpochs };

    ghost view = { λ readers. record { present = readers.book.present; epochs = readers.epochs } };

    ghost invariant = { λ readers. IsCounted readers.book readers.epochs readers.count };
}

impl Readers {
    /// Nobody is inside, and nothing was retired.
    pub(crate) fn new() -> Self
        ensures { result ≡ no_readers }
    {
        Readers {
            book: EpochBook::new(),
            epochs: [None; 8],
            count: 0,
        }
    }

    /// Whether the worker is inside.
    pub(crate) fn is_inside(&self, worker: u8) -> bool
        requires { worker < 8 }
        ensures { result ≡ is_some (epoch_of self.now worker) }
    {
        self.epochs[worker as usize].is_some()
    }

    /// How many workers are inside.
    pub(crate) fn count(&self) -> usize
        ensures { result ≡ count_by is_some self.now.epochs }
    {
        self.count
    }

    /// A worker that is outside enters, in the present epoch.
    pub(crate) fn enter(&mut self, worker: u8)
        requires worker { worker < 8 }
        requires outside { epoch_of self.old worker ≡ None }
        ensures { self.new ≡ record self.old { epochs = slice_set self.old.epochs worker (Some self.old.present) } }
    {
        let epoch = self.book.enter();
        self.epochs[worker as usize] = Some(epoch);
        self.count += 1;
    }

    /// A worker that is inside leaves.
    pub(crate) fn leave(&mut self, worker: u8)
        requires worker { worker < 8 }
        requires inside { is_some (epoch_of self.old worker) ≡ true }
        ensures { self.new ≡ record self.old { epochs = slice_set self.old.epochs worker None } }
    {
        let Some(epoch) = self.epochs[worker as usize] else {
            unreachable!()
        };
        self.book.leave(epoch);
        self.epochs[worker as usize] = None;
        self.count -= 1;
    }

    /// The stamp of a retirement, which ends the present epoch.
    pub(crate) fn stamp(&mut self) -> u64
        requires { self.old.present < 2 ^ 62 }
        ensures stamp { result ≡ self.old.present }
        ensures next { self.new ≡ with_next_epoch self.old }
    {
        self.book.stamp()
    }

    /// What was retired with a stamp below this has no reader left: every worker inside entered after it.
    pub(crate) fn floor(&self) -> u64
        ensures { (stamp : ℕ) → stamp < self.now.present → nat_lt stamp result ≡ list_all (began_after stamp) self.now.epochs }
    {
        self.book.floor()
    }
}
