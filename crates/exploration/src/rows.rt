ghost use Rattle.exploration.specs.MarkRows.{MarkRows};
ghost use Rattle.exploration.specs.Rows.{ScriptRows};

/// What the worked scripts are.
pub fn worked_scripts()
    ensures { ScriptRows }
{}

/// What those with marks are.
pub fn worked_marks()
    ensures { MarkRows }
{}
