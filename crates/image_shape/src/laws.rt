//! Laws of the definitions: each is the contract of a function that does nothing.

ghost use Rattle.image_shape.specs.Laws.{EdgesGoUp, HasNoFault, HasOneFault};
ghost use Rattle.image_shape.specs.Runs.{RunsFollowEdges};

/// In a program with structure each edge goes to an instruction at a larger slot.
pub fn edges_go_up()
    ensures { EdgesGoUp }
{}

/// A program has structure or a first fault, never both, and never two first faults.
pub fn one_answer()
    ensures no_fault { HasNoFault }
    ensures one_fault { HasOneFault }
{}

/// Whatever instruction a run does next, it goes on along an edge, whatever a map replies.
pub fn runs_follow_edges()
    ensures { RunsFollowEdges }
{}
