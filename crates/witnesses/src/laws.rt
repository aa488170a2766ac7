// Laws of what is kept, each a function without a body.
ghost use Rattle.witnesses.specs.FileRows.{FileWitnessRows};
ghost use Rattle.witnesses.specs.Rows.{WitnessRows};

/// Some cuts, what is read after them, and what is printed of how they leave it.
pub fn worked_witnesses()
    ensures { WitnessRows }
{}

/// Some of files.
pub fn worked_file_witnesses()
    ensures { FileWitnessRows }
{}
