//! The line of a fault.

ghost use Rattle.std.specs.Prelude.{◌≡◌, true, IfOk, string_bytes};
ghost use Rattle.faults.specs.Explanations.{is_fault};
ghost use Rattle.faults.specs.FaultTable.{line_of_fault};

use crate::explanation::Explanation;
use crate::fields::Fields;
use std::alloc::{AllocError, Global};

/// The line that is printed of a fault, without its line feed: its number and its name, then each field as name and number.
pub fn fault_line(alloc: Global, number: u8, fields: Fields) -> Result<String, AllocError>
    requires { is_fault number ≡ true }
    ensures { IfOk result (λ line. string_bytes line ≡ line_of_fault number fields) }
{
    let row = match Explanation::of(u32::from(number)) {
        Some(row) => row,
        None => unreachable!(),
    };
    let name = row.name;
    let first = row.fields.first();
    let second = row.fields.second();
    match fields {
        Fields::Empty => format!(in alloc; "fault {number} {name}"),
        Fields::One(value) => format!(in alloc; "fault {number} {name} {first} {value}"),
        Fields::Two(value, other) => {
            format!(in alloc; "fault {number} {name} {first} {value} {second} {other}")
        }
        Fields::Signed(value) => format!(in alloc; "fault {number} {name} {first} {value}"),
    }
}
