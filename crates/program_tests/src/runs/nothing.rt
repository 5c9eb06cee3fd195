//! A port of maps that refuses lookups, and in which every number is 0.

ghost use Rattle.std.specs.Prelude.{◌≡◌};

use ebpf_decode::Image;
use isa::AtomicOp;
use map_port::MapPort;
use semantics::{JournalFull, Key, Value};

/// The port of an image's maps, one shard each: lookups are refused, and updates and deletions are answered by -22. It would read 0 from
/// any cell.
#[derive(Drop)]
pub(super) struct NothingPort<'a> {
    image: &'a Image,
}

impl<'a> NothingPort<'a> {
    pub(super) fn over(image: &'a Image) -> NothingPort<'a>
        ensures { result.image.now.maps ≡ image.now.maps }
    {
        let _ = image.maps();
        NothingPort { image }
    }
}

impl<'a> MapPort for NothingPort<'a> {
    ghost use Rattle.std.specs.Prelude.{true};
    ghost use Rattle.std.proofs.Common.{refl, ap};
    ghost use Rattle.semantics.specs.RunTrace.{IsReplyTo};
    ghost use Rattle.semantics.specs.ServedCalls.{IsHandedOut};
    ghost use Rattle.map_port.specs.Served.{Maps, program_over};

    ghost serves = { λ port. record { maps = port.image.now.maps; shards = 1 } };

    ghost gives = { λ before call reply after. (after ≡ before)
        × IsReplyTo (program_over (record { maps = before.image.now.maps; shards = 1 })) call reply
        × IsHandedOut (program_over (record { maps = before.image.now.maps; shards = 1 })) (λ map shard cell. true) call reply };

    ghost refuses = { λ before call after. after ≡ before };

    ghost has_handed_out = { λ port map shard cell. true };

    ghost cell_of = { λ port handle. record { shard = 0; id = 0 } };

    ghost stays = { λ before after call refused. ap (λ port. record { maps = port.image.now.maps; shards = 1 }) refused };

    ghost keeps = { λ before after call reply given. record {
      same = ap (λ port. record { maps = port.image.now.maps; shards = 1 }) given.0;
      kept = λ map shard cell held. held;
      named = λ map handle held. refl;
    } };

    ghost hands_out = { λ before after call reply given. given.2 };

    ghost replies = { λ before after call reply given. given.1 };

    fn lookup(&mut self, map: u32, _key: &Key) -> Result<u64, JournalFull> {
        Err(JournalFull { shard: map })
    }

    fn load(&mut self, _handle: u64, _offset: u64, _size: u64) -> Result<u64, JournalFull> {
        Ok(0)
    }

    fn store(
        &mut self,
        _handle: u64,
        _offset: u64,
        _size: u64,
        _value: u64,
    ) -> Result<(), JournalFull> {
        Ok(())
    }

    fn atomic(
        &mut self,
        _handle: u64,
        _offset: u64,
        _size: u64,
        _op: AtomicOp,
        _value: u64,
        _expected: u64,
    ) -> Result<u64, JournalFull> {
        Ok(0)
    }

    fn update(
        &mut self,
        _map: u32,
        _key: &Key,
        _value: &Value,
        _flags: u64,
    ) -> Result<i32, JournalFull> {
        Ok(-22)
    }

    fn delete(&mut self, _map: u32, _key: &Key) -> Result<i32, JournalFull> {
        Ok(-22)
    }
}
