//! The commands of a script before the first record, and the later ones.

ghost use Rattle.std.specs.Prelude.{◌≡◌, IfOk, count_by};
ghost use Rattle.page.specs.Commands.{first_ones, is_first, later_ones, records_before};

use control::Command;
use std::alloc::{AllocError, Global};

/// The commands before the first record.
pub(crate) fn first_ones(alloc: Global, commands: &[Command]) -> Result<Vec<Command>, AllocError>
    ensures { IfOk result (λ firsts. firsts.items ≡ first_ones commands.now) }
{
    commands
        .iter()
        .copied()
        .filter(|command| command.frame == 0)
        .collect(alloc)
}

/// How many commands come before the first record.
pub(crate) fn first_count(commands: &[Command]) -> usize
    ensures { result ≡ count_by is_first commands.now }
{
    commands.iter().filter(|command| command.frame == 0).count()
}

/// The commands behind it.
pub(crate) fn later_ones(alloc: Global, commands: &[Command]) -> Result<Vec<Command>, AllocError>
    ensures { IfOk result (λ later. later.items ≡ later_ones commands.now) }
{
    commands
        .iter()
        .copied()
        .filter(|command| command.frame != 0)
        .collect(alloc)
}

/// How many records come before the first of commands.
pub(crate) fn records_before(commands: &[Command]) -> Option<u32>
    ensures { result ≡ records_before commands.now }
{
    match commands.first() {
        Some(command) => Some(command.frame),
        None => None,
    }
}
