//! eBPF images: their instructions and maps as types, and the image format read and written.
#![tactic(auto)]

mod arithmetic;
mod codes;
mod encoding;
pub mod fault;
pub mod image;
pub mod insn;
mod jump;
pub mod map;
mod memory;
mod reading;
mod reading_slot;
pub mod slot;
pub mod version;
pub mod wide;
mod writing;

pub use fault::DecodeFault;
pub use image::Image;
pub use insn::Insn;
pub use map::{MapDef, MapKind};
pub use reading::decode;
pub use version::Version;
pub use writing::{encode, one_encoding};
