//! What holds of the parts of every capture, as contracts of functions that do nothing.

ghost use Rattle.fleet.specs.PartLaws.{CommandsKeepTheirSide, FlowsAreInOnePart, LengthsAddUp, NumbersNeverFall, PartsAreAPartition};
ghost use Rattle.fleet.specs.PartLaws.{FlowsMoveOnlyAtTheLoss, OnlyTheLostPartMoves, OthersAreNamed, TotalsAddUp};

/// Each record of a capture is in one part, in the capture's order: merged by their places the parts are the capture.
pub fn parts_are_a_partition()
    ensures { PartsAreAPartition }
{}

/// No flow is in two parts.
pub fn flows_are_in_one_part()
    ensures { FlowsAreInOnePart }
{}

/// With a loss: a flow's records before it are in one part, and so are those behind it.
pub fn flows_move_only_at_the_loss()
    ensures { FlowsMoveOnlyAtTheLoss }
{}

/// A loss moves no record before it and none of another part, and leaves none behind it in the lost part.
pub fn only_the_lost_part_moves()
    ensures { OnlyTheLostPartMoves }
{}

/// The second hash can name each of the other parts, and no other.
pub fn others_are_named()
    ensures { OthersAreNamed }
{}

/// What is a sum over the records of a capture is the sum of those of its parts.
pub fn totals_add_up()
    ensures { TotalsAddUp }
{}

/// The numbers of records of the parts add up to that of the capture.
pub fn lengths_add_up()
    ensures { LengthsAddUp }
{}

/// A command comes before the same records of a part as in the whole capture.
pub fn commands_keep_their_side()
    ensures { CommandsKeepTheirSide }
{}

/// The numbers of commands in a part never fall, and none is higher than that of the whole capture.
pub fn numbers_never_fall()
    ensures { NumbersNeverFall }
{}
