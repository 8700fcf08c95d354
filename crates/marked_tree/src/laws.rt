//! What the definitions say together. Each law holds for every value.
ghost use Rattle.marked_tree.specs.Laws.{MarkStrips, MarksOnce, MarksClose, Choice, ChosenIsLeft};

/// Marking changes no tree.
pub fn mark_strips()
    ensures { MarkStrips }
{}

/// Each number below the count of hidden places marks exactly one node, and no other number does.
pub fn marks_once()
    ensures { MarksOnce }
{}

/// Mark k stands at the hidden place that has k others before it in closing order.
pub fn marks_close()
    ensures { MarksClose }
{}

/// Where no mark stands on two nodes, the marks of the nodes that lead to a wanted path are closed,
/// and the least that keep the way to each wanted path.
pub fn choice()
    ensures { Choice }
{}

/// What is left of a marked tree by the marks that lead to a wanted path is the
/// tree without the hidden places that lead to none.
pub fn chosen_is_left()
    ensures { ChosenIsLeft }
{}
