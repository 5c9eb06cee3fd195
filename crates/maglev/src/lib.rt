//! The lookup table that Maglev's population makes of a list of backends.
#![tactic(auto)]

mod backend;
mod fault;
mod population;
mod preference;
mod repeats;
mod ring;

pub use backend::Backend;
pub use fault::RingFault;
pub use preference::Preference;
pub use ring::{MOST_BACKENDS, RING_SIZES, Ring, is_ring_size};
