// Reports worked by computation. The function does nothing.
ghost use Rattle.explorer.specs.Worked.{WorkedReports};

/// Some programs, which refusals are wanted, and what is reported of them.
pub fn worked_reports()
    ensures { WorkedReports }
{}
