//! Files by their names, whole or in pieces: the system's, or in memory; and captures that are read from them record by record.
#![tactic(auto)]

mod altering;
mod capture_reader;
mod copies;
mod failure;
mod files;
mod folder;
mod links;
mod making;
mod memory_folder;
mod record_buffer;
mod record_head;
mod window;

pub use altering::Alterations;
pub use capture_reader::CaptureReader;
pub use files::{FileFolder, STANDARD_INPUT, STANDARD_OUTPUT};
pub use folder::{Folder, FolderFault, Front};
pub use memory_folder::MemoryFolder;
pub use record_buffer::RecordBuffer;
pub use record_head::RecordHead;
