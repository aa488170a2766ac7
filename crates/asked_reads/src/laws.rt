// Laws of what is asked, each a function without a body.
ghost use Rattle.asked_reads.specs.Rows.{FittingRows};

/// Worked lines and blocks, and whether they may be read as is asked.
pub fn worked_fits()
    ensures { FittingRows }
{}
