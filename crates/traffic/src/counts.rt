//! Counts that are added up, place by place.

ghost use Rattle.std.specs.Prelude.{◌≡◌, OnOk, slice_index};
ghost use Rattle.traffic.specs.Tallies.{sums};

use std::alloc::AllocError;

/// The count at a place; 0 where there is none.
pub(crate) fn count_at(counts: &[u64], place: usize) -> u64
    ensures { result ≡ slice_index counts.now place }
{
    counts.get(place).copied().unwrap_or(0)
}

/// Adds to each count the one at its place among others. It fails where a count would reach 2^64.
pub(crate) fn add_counts(counts: &mut [u64], others: &[u64]) -> Result<(), AllocError>
    ensures { OnOk result (counts.new ≡ sums counts.old others.now) }
{
    'places: for place in 0..counts.len() {
        let Some(sum) = counts[place].checked_add(count_at(others, place)) else {
            return Err(AllocError);
        };
        counts[place] = sum;
    }
    Ok(())
}
