//! The seats of one shard that wait for their callers.

ghost use Rattle.std.specs.Prelude.{◌≡◌, ◌≢◌, ◌<◌, ℕ, length};
ghost use Rattle.shards.specs.Passes.{badge_at};

use crate::rule::Known;
use atomic_table::Badge;
use std::marker::Model;
use std::mem;

/// The controller's seat, the reclaimer's, then the workers'. Contracts see the list of them.
#[derive(Drop)]
pub struct Waiting {
    seats: Vec<Badge<Known>>,
}

impl Model for Waiting {
    ghost use Rattle.std.specs.Prelude.{List};
    ghost use Rattle.atomic_table.specs.declared.badge.Badge.{Badge};
    ghost use Rattle.shards.specs.declared.rule.Known.{Known};

    ghost Value = { List (Badge Known) };

    ghost view = { λ waiting. waiting.seats.items };
}

impl Waiting {
    pub(crate) fn new(seats: Vec<Badge<Known>>) -> Self
        ensures { result ≡ seats.items }
    {
        Waiting { seats }
    }

    /// Takes a seat out of its place.
    pub(crate) fn take(&mut self, place: usize) -> Badge<Known>
        requires { place < length self.old }
        ensures badge { result ≡ badge_at self.old place }
        ensures others { (other : ℕ) → other ≢ place → badge_at self.new other ≡ badge_at self.old other }
        ensures count { length self.new ≡ length self.old }
    {
        mem::replace(&mut self.seats[place], Badge::blank())
    }
}
