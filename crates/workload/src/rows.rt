ghost use Rattle.workload.specs.Rows.{LineRows, SummaryRows};

/// The lines of some workloads.
pub fn worked_lines()
    ensures { LineRows }
{}

/// What some lines and replies add to a summary.
pub fn worked_summaries()
    ensures { SummaryRows }
{}
