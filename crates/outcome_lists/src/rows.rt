// Lists worked by computation. The function does nothing.
ghost use Rattle.outcome_lists.specs.Worked.{WorkedLists};

/// Some programs, what they look at, and the lists of its outcomes.
pub fn worked_lists()
    ensures { WorkedLists }
{}
