//! Which backend a frame goes to: the maps of steering, the layouts of their records, and the steering rule in plain Rust.
//!
//! The rule decides by what is in the maps. A frame without a flow, or for no service, passes. A frame that cannot be tunnelled, or
//! that comes before the tunnel is set up, is dropped. Otherwise it goes to the backend that was noted for its flow if that one is up, else
//! to the owner of the flow's slot in the ring, which is then noted; and where neither is up it is dropped. A service may be marked *no
//! tracking*: then nothing is noted and only the ring decides.
#![tactic(auto)]

mod choosing;
mod fault;
mod keys;
pub mod laws;
mod records;
mod steering;
mod steering_maps;

pub use choosing::{Assigned, Choice, Records, choose};
pub use fault::SteerFault;
pub use keys::{Service, index_key};
pub use records::{BackendRecord, FlowRecord, RingRecord, TunnelRecord, VipRecord};
pub use steering::steer;
pub use steering_maps::{
    BACKENDS, MOST_SERVICES, NOTE_COUNTS, NOTES, SteeringMap, is_note_count, maps, maps_with,
    table_size,
};
