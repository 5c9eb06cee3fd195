//! The text form of eBPF images: printed, and read.
#![tactic(auto)]

mod assembling;
pub mod fault;
mod head;
mod instruction_reading;
mod map_line;
mod operand;
mod printing;
mod reading;
mod spelling;

pub use assembling::{assemble, round_trip};
pub use fault::AsmFault;
pub use head::is_first_word;
pub use operand::{Operand, operand_text};
pub use printing::text;
pub use spelling::line;
