ghost use Rattle.line_rows.specs.FlushRows.{FlushRows};
ghost use Rattle.line_rows.specs.MappedRows.{MappedRows};
ghost use Rattle.line_rows.specs.Rows.{LineRows};

/// What the worked lines ask for.
pub fn worked_lines()
    ensures { LineRows }
{}

/// What the worked lines on mapped files ask for.
pub fn worked_mapped_lines()
    ensures { MappedRows }
{}

/// What the worked lines on flushes, events and bad lines of files ask for.
pub fn worked_flush_lines()
    ensures { FlushRows }
{}
