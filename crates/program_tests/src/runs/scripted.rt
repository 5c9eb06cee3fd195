//! A port whose replies a test chooses, and which keeps the last call that it was asked.

ghost use Rattle.std.specs.Prelude.{◌≡◌};

use ebpf_decode::Image;
use isa::AtomicOp;
use map_port::MapPort;
use semantics::{JournalFull, Key, Value};

/// What a port was asked, beside lookups.
#[derive(Clone, Copy, Debug, PartialEq, Eq)]
pub(super) enum Asked {
    Nothing,
    Load {
        handle: u64,
        offset: u64,
        size: u64,
    },
    Store {
        handle: u64,
        offset: u64,
        size: u64,
        value: u64,
    },
    Atomic {
        handle: u64,
        offset: u64,
        size: u64,
        op: AtomicOp,
        value: u64,
        expected: u64,
    },
    Update {
        map: u32,
        key: Key,
        value: Value,
        flags: u64,
    },
    Delete {
        map: u32,
        key: Key,
    },
}

/// What a port replies.
#[derive(Clone, Copy, Debug, PartialEq, Eq)]
pub(super) struct Replies {
    /// The number that atomic operations find is its lowest byte.
    pub(super) number: u64,
    /// The answer of updates and deletions.
    pub(super) answer: i32,
    /// How many calls it answers before it refuses one.
    pub(super) before_refusal: u32,
}

/// The port of an image's maps, one shard each: every key of map 0 is found, in the cell of handle 1, and a lookup in another is refused.
#[derive(Drop)]
pub(super) struct ScriptedPort<'a> {
    image: &'a Image,
    replies: Replies,
    asked: Asked,
}

impl<'a> ScriptedPort<'a> {
    pub(super) fn over(image: &'a Image, replies: Replies) -> ScriptedPort<'a>
        ensures { result.image.now.maps ≡ image.now.maps }
    {
        let _ = image.maps();
        ScriptedPort {
            image,
            replies,
            asked: Asked::Nothing,
        }
    }

    /// The last call.
    pub(super) fn asked(&self) -> Asked {
        self.asked
    }

    /// Whether the next call is refused; it counts as a call.
    fn is_refused(&mut self) -> bool
        ensures { self.new.image ≡ self.old.image }
    {
        if self.replies.before_refusal == 0 {
            return true;
        }
        self.replies.before_refusal -= 1;
        false
    }
}

impl<'a> MapPort for ScriptedPort<'a> {
    ghost use Rattle.std.specs.Prelude.{true};
    ghost use Rattle.std.proofs.Common.{refl, ap};
    ghost use Rattle.semantics.specs.RunTrace.{IsReplyTo};
    ghost use Rattle.semantics.specs.ServedCalls.{IsHandedOut};
    ghost use Rattle.map_port.specs.Served.{Maps, program_over};

    ghost serves = { λ port. record { maps = port.image.now.maps; shards = 1 } };

    ghost gives = { λ before call reply after. (after.image ≡ before.image)
        × IsReplyTo (program_over (record { maps = before.image.now.maps; shards = 1 })) call reply
        × IsHandedOut (program_over (record { maps = before.image.now.maps; shards = 1 })) (λ map shard cell. true) call reply };

    ghost refuses = { λ before call after. after.image ≡ before.image };

    ghost has_handed_out = { λ port map shard cell. true };

    ghost cell_of = { λ port handle. record { shard = 0; id = 0 } };

    ghost stays = { λ before after call refused. ap (λ image. record { maps = image.now.maps; shards = 1 }) refused };

    ghost keeps = { λ before after call reply given. record {
      same = ap (λ image. record { maps = image.now.maps; shards = 1 }) given.0;
      kept = λ map shard cell held. held;
      named = λ map handle held. refl;
    } };

    ghost hands_out = { λ before after call reply given. given.2 };

    ghost replies = { λ before after call reply given. given.1 };

    fn lookup(&mut self, map: u32, _key: &Key) -> Result<u64, JournalFull> {
        if self.is_refused() {
            return Err(JournalFull { shard: map });
        }
        if map == 0 {
            Ok(1)
        } else {
            Err(JournalFull { shard: map })
        }
    }

    fn load(&mut self, handle: u64, offset: u64, size: u64) -> Result<u64, JournalFull> {
        self.asked = Asked::Load {
            handle,
            offset,
            size,
        };
        if self.is_refused() {
            return Err(JournalFull { shard: 0 });
        }
        Ok(0)
    }

    fn store(
        &mut self,
        handle: u64,
        offset: u64,
        size: u64,
        value: u64,
    ) -> Result<(), JournalFull> {
        self.asked = Asked::Store {
            handle,
            offset,
            size,
            value,
        };
        if self.is_refused() {
            return Err(JournalFull { shard: 0 });
        }
        Ok(())
    }

    fn atomic(
        &mut self,
        handle: u64,
        offset: u64,
        size: u64,
        op: AtomicOp,
        value: u64,
        expected: u64,
    ) -> Result<u64, JournalFull> {
        self.asked = Asked::Atomic {
            handle,
            offset,
            size,
            op,
            value,
            expected,
        };
        if self.is_refused() {
            return Err(JournalFull { shard: 0 });
        }
        Ok(self.replies.number % 0x100)
    }

    fn update(
        &mut self,
        map: u32,
        key: &Key,
        value: &Value,
        flags: u64,
    ) -> Result<i32, JournalFull> {
        self.asked = Asked::Update {
            map,
            key: *key,
            value: *value,
            flags,
        };
        if self.is_refused() {
            return Err(JournalFull { shard: map });
        }
        Ok(self.replies.answer)
    }

    fn delete(&mut self, map: u32, key: &Key) -> Result<i32, JournalFull> {
        self.asked = Asked::Delete { map, key: *key };
        if self.is_refused() {
            return Err(JournalFull { shard: map });
        }
        Ok(self.replies.answer)
    }
}
