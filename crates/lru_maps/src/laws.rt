//! Laws of the order by last uses: each is the contract of a function that does nothing.

ghost use Rattle.lru_maps.specs.ByUse.{LastIsLeast, OthersKeepOrder, UseBringsForward, NewKeyIsFirst, RemovalKeepsOrder};
ghost use Rattle.lru_maps.specs.ByUse.{EvictionKeepsOrder};

/// Where a table belongs to a history, its last key is the one whose last use in the history is earliest, and that key is one.
pub fn last_is_least()
    ensures { LastIsLeast }
{}

/// What each kind of call does to a history and to a table leaves the table beside the history.
pub fn calls_keep_order()
    ensures others { OthersKeepOrder }
    ensures used { UseBringsForward }
    ensures new { NewKeyIsFirst }
    ensures removed { RemovalKeepsOrder }
    ensures evicted { EvictionKeepsOrder }
{}
