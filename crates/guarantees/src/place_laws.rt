//! Who is inside a shard and which cells it holds, by places in the history alone.

ghost use Rattle.guarantees.specs.Places.{InsideIsByPlace, HeldIsByPlace};

/// A worker is inside exactly where the history has an Enter of its own that no Leave of its own follows.
pub fn inside_is_by_place()
    ensures { InsideIsByPlace }
{}

/// In a legal history a worker holds a cell exactly where such an Enter is followed by a Lookup of its own that returned the cell.
pub fn held_is_by_place()
    ensures { HeldIsByPlace }
{}
