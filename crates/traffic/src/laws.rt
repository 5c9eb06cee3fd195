//! What holds of the lines that are printed, as contracts of functions that do nothing.

ghost use Rattle.traffic.specs.Leaving.{DownsAreCounted};

/// What a `down` moves. In the text of `tables_of`, and so in what `xlb table` prints, the number of slots that change hands is the share of
/// the backend that goes down, and the number of slots that leave a backend which stays: those whose owner before, by the population of the
/// backends that are up then, is another backend, and which have another owner behind, by the population of the backends that are left.
pub fn downs_are_counted()
    ensures { DownsAreCounted }
{}
