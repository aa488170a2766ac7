ghost use Rattle.machine_rows.specs.Rows.{Rows};
ghost use Rattle.machine_rows.specs.BlockRows.{BlockRows};
ghost use Rattle.machine_rows.specs.CutRows.{CutRows, CutRuns};
ghost use Rattle.machine_rows.specs.VolumeRows.{VolumeRows, VolumeRuns};
ghost use Rattle.machine_rows.specs.MediaRows.{MediaRows};
ghost use Rattle.machine_rows.specs.FailureRows.{FailureRows, FailureRuns};
ghost use Rattle.machine_rows.specs.FileRows.{FileRows, FileRuns};
ghost use Rattle.machine_rows.specs.PageRows.{PageRows, PageRuns};
ghost use Rattle.machine_rows.specs.MappingRows.{MappingRows};
ghost use Rattle.machine_rows.specs.FlushRows.{FlushRows};
ghost use Rattle.machine_rows.specs.FileErrorRows.{FileErrorRows};
ghost use Rattle.machine_rows.specs.EventRows.{EventRows};
ghost use Rattle.machine_rows.specs.AttributeRows.{AttributeRows};
ghost use Rattle.machine_rows.specs.ByteRows.{ByteRows};
ghost use Rattle.machine_rows.specs.FileActionRows.{FileActionRows, FileActionRuns};

/// What the machine writes for the worked scripts.
pub fn worked_scripts()
    ensures volume { Rows }
    ensures blocks { BlockRows }
    ensures pages { VolumeRows }
    ensures errors { MediaRows }
{}

/// What it writes for those with cuts and with blocks that are written together, and what it may write after a cut.
pub fn worked_cuts()
    ensures writes { CutRows }
    ensures may_write { CutRuns }
    ensures pages { VolumeRuns }
{}

/// What it writes for those with bad metadata, and with failures that are armed, and what it may write after a failed call.
pub fn worked_failures()
    ensures failures { FailureRows }
    ensures may_fail { FailureRuns }
{}

/// What it writes for those with files, and what it may write after a cut in a change of them.
pub fn worked_files()
    ensures files { FileRows }
    ensures may_change { FileRuns }
{}

/// What it writes for those with the bytes of files, and what it may write after a cut in a store.
pub fn worked_pages()
    ensures bytes { PageRows }
    ensures may_store { PageRuns }
{}

/// What it writes for those with mappings of files.
pub fn worked_mappings()
    ensures mappings { MappingRows }
{}

/// What it writes for those that make bytes of mapped files durable.
pub fn worked_flushes()
    ensures flushes { FlushRows }
{}

/// What it writes for those with media errors of files.
pub fn worked_file_errors()
    ensures errors { FileErrorRows }
{}

/// What it writes for those with actions on whole files, and what it may write after a cut in an atomic write.
pub fn worked_file_actions()
    ensures actions { FileActionRows }
    ensures may_write { FileActionRuns }
{}

/// What it writes for those that are informed of bad lines of files.
pub fn worked_events()
    ensures events { EventRows }
{}

/// What it writes for those that ask for attributes and for write-back.
pub fn worked_attributes()
    ensures attributes { AttributeRows }
{}

/// What it writes where the medium keeps each byte of a word independently.
pub fn worked_bytes()
    ensures bytes { ByteRows }
{}
