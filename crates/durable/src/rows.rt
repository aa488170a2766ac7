// Worked scripts with mappings and weak lines.
ghost use Rattle.durable.specs.MappedRows.{MappedRows};
ghost use Rattle.durable.specs.WornRows.{WornRows};

/// Which commands of worked scripts change a byte of a file, and which make it durable, by what their handles are mapped to; and
/// which scripts make a byte durable in place while its line is weak.
pub fn worked_mappings()
    ensures mapped { MappedRows }
    ensures worn { WornRows }
{}
