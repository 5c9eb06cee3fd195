//! The ways in which the bytes of a file are read as a capture: as they are, or altered.
#![tactic(auto)]

mod readings;

pub use readings::{
    AlteredCapture, Reading, altered_capture, filled_by, put_record, record_len, skipped_by,
};
