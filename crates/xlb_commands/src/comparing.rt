//! The reports of two replays compared.

ghost use Rattle.std.specs.Prelude.{◌≡◌, ◌-◌, ◌<◌, ◌^◌, IfErr, IfOk};
ghost use Rattle.xlb_commands.specs.Comparing.{IsAnswerOf, IsComparisonAnswer};
ghost use Rattle.xlb_commands.specs.Files.{AreKept};
ghost use Rattle.xlb_commands.specs.Refused.{HasFailed, IsComparisonRefusal};
ghost use Rattle.xlb_commands.specs.declared.fault.Fault.TheVariants.{Memory};

use crate::fault::{Fault, Refusal};
use crate::files::bytes_of;
use crate::printable::in_one_line;
use comparison::{Unlike, compare};
use folders::Folder;
use std::alloc::Global;

/// What a comparison comes to.
#[derive(Drop)]
pub(crate) enum ComparisonAnswer {
    /// What is printed, and whether a record is treated differently.
    Compared { text: String, differs: bool },
    /// The files cannot be compared: the line that says why.
    Unlike(String),
}

/// What of two files that were read is printed. Refused with 8 where memory is.
fn compared(
    alloc: Global,
    names: (&str, &str),
    first: &[u8],
    second: &[u8],
) -> Result<ComparisonAnswer, Refusal>
    ensures answered { IfOk result (IsAnswerOf names.entry.0.now names.entry.1.now first.now second.now) }
    ensures refused { IfErr result (λ refusal. refusal.fault ≡ Memory) }
{
    match compare(alloc, first, second) {
        Ok(comparison) => Ok(ComparisonAnswer::Compared {
            text: comparison.text,
            differs: comparison.differs,
        }),
        Err(Unlike::Memory) => Err(Refusal::from(Fault::Memory)),
        Err(unlike) => {
            let first_name = in_one_line(alloc, names.0)?;
            let second_name = in_one_line(alloc, names.1)?;
            let text = unlike.text(alloc, first_name.as_str(), second_name.as_str())?;
            Ok(ComparisonAnswer::Unlike(text))
        }
    }
}

/// Compares the reports of two files. Refused with 7 or 8 where a file is not read, and with 8 where memory is refused. No file changes.
pub(crate) fn compare_files<D: Folder>(
    alloc: Global,
    folder: &mut D,
    first: &str,
    second: &str,
) -> Result<ComparisonAnswer, Refusal>
    requires { D.failure_count folder.old < 2 ^ 64 - 1 }
    ensures answered { IfOk result (IsComparisonAnswer (D.holds folder.old) first.now second.now) }
    ensures kept { AreKept (D.holds folder.old) (D.holds folder.new) }
    ensures refused { IfErr result (λ refusal. IsComparisonRefusal
        (HasFailed (D.failure_count folder.old) (D.failure_count folder.new)) refusal.fault) }
{
    let first_bytes = bytes_of(alloc, folder, first)?;
    let second_bytes = bytes_of(alloc, folder, second)?;
    compared(alloc, (first, second), &first_bytes, &second_bytes)
}
