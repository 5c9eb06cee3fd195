//! Updates of maps that the commands of a script set.

ghost use Rattle.std.specs.Prelude.{◌≡◌, IfNone, IfSome};
ghost use Rattle.command_line.specs.Commanded.{AreLeftByCommands, IsFirstOfCommands, is_of_commands};

use map_updates::MapUpdate;

/// Whether commands of a script set values of this map of steering: all but the map of the flows and that of the counts.
fn is_of_commands(map: u32) -> bool
    ensures { result ≡ is_of_commands map }
{
    map != 1 && map != 5
}

/// The place of the first update, from 0, of a map that commands of a script set; none where there is no such update.
pub(crate) fn first_of_commands(updates: &[MapUpdate]) -> Option<usize>
    ensures none { IfNone result (AreLeftByCommands updates.now) }
    ensures some { IfSome result (λ place. IsFirstOfCommands updates.now place) }
{
    'updates: for place in 0..updates.len() {
        if is_of_commands(updates[place].map) {
            return Some(place);
        }
    }
    None
}
