//! Ethernet frames with their headroom, flow keys, checksums, hashes and devices.
#![tactic(auto)]

mod big_endian;
mod capture_fault;
mod capture_reader;
mod capture_writer;
mod checksum;
mod device;
mod ethernet;
mod flow;
mod frame_buffer;
mod hash;
mod ipv4;
mod memory;
mod records;
mod stream;
mod transfer;

pub use big_endian::{be_bytes, word_at};
pub use capture_fault::CaptureFault;
pub use capture_reader::{
    CAPTURE_HEADER_LEN, RECORD_HEAD_LEN, check_capture_header, read_capture, record_of,
};
pub use capture_writer::write_capture;
pub use checksum::ones_sum;
pub use device::{Failed, Sink, Source};
pub use ethernet::{EthernetHeader, Ipv4Address, MacAddress};
pub use flow::{FlowKey, Transport, flow_of};
pub use frame_buffer::{Frame, FrameFault, MAX_FRAME, MIN_FRAME};
pub use hash::fnv1a64;
pub use ipv4::Ipv4Packet;
pub use memory::{MemorySink, MemorySource};
pub use records::{Capture, Sent};
pub use stream::{MOST_GIVEN, StreamSink, StreamSource};
pub use transfer::{ReadFault, read_all, write_all};
