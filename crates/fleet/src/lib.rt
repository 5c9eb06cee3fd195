//! Parts of a capture: which records each has, and which numbers a script's commands have there.
#![tactic(auto)]

mod laws;
mod numbering;
mod part;
mod taking;

pub use laws::{
    commands_keep_their_side, flows_are_in_one_part, flows_move_only_at_the_loss, lengths_add_up,
    numbers_never_fall, only_the_lost_part_moves, others_are_named, parts_are_a_partition,
    totals_add_up,
};
pub use numbering::{Numbering, numbers_in_part};
pub use part::{Loss, Part};
pub use taking::{part_behind, part_of};

#[cfg(test)]
mod tests;
