//! The line of each fault, by the number and the fields that the crate that found it returns.

ghost use Rattle.std.specs.Prelude.{◌≡◌, true, IfOk, string_bytes};
ghost use Rattle.faults.specs.Explanations.{is_fault};
ghost use Rattle.xlb_commands.specs.FaultLines.{fault_line, fields_of, number_of_fault};

use crate::fault::Fault;
use faults::Fields;
use std::alloc::{AllocError, Global};

/// The number of a fault that a command is refused with.
fn number_of(fault: Fault) -> u8
    ensures number { result ≡ number_of_fault fault }
    ensures known { is_fault result ≡ true }
{
    match fault {
        Fault::Folder(fault) => fault.number(),
        Fault::Decode(fault) => fault.number(),
        Fault::Text(fault) => fault.number(),
        Fault::Source(fault) => fault.number(),
        Fault::Program(fault) => fault.number(),
        Fault::Frame(fault) => fault.number(),
        Fault::Options(fault) => fault.number(),
        Fault::Run(fault) => fault.number(),
        Fault::Journals(fault) => fault.number(),
        Fault::Audit(fault) => fault.number(),
        Fault::Steering(fault) => fault.number(),
        Fault::Script(fault) => fault.number(),
        Fault::Capture(fault) => fault.number(),
        Fault::Replay(fault) => fault.number(),
        Fault::Output => 7,
        Fault::Memory => 8,
    }
}

/// The numbers of its fields.
fn fields_of(fault: Fault) -> Fields
    ensures { result ≡ fields_of fault }
{
    match fault {
        Fault::Decode(fault) => fault.fields(),
        Fault::Text(fault) => fault.fields(),
        Fault::Source(fault) => fault.fields(),
        Fault::Program(fault) => fault.fields(),
        Fault::Run(fault) => fault.fields(),
        Fault::Journals(fault) => fault.fields(),
        Fault::Audit(fault) => fault.fields(),
        Fault::Script(fault) => fault.fields(),
        Fault::Capture(fault) => fault.fields(),
        Fault::Replay(fault) => fault.fields(),
        _ => Fields::Empty,
    }
}

/// The line of a fault that a command is refused with, without its line feed.
pub fn fault_line(alloc: Global, fault: Fault) -> Result<String, AllocError>
    ensures { IfOk result (λ line. string_bytes line ≡ fault_line fault) }
{
    faults::fault_line(alloc, number_of(fault), fields_of(fault))
}
