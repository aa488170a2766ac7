// Whether a line of a file may be read as reads of that file ask. Those of other files are passed over.
ghost use Rattle.std.specs.Prelude.{◌≡◌, ◌<◌, ◌^◌};
ghost use Rattle.sights.specs.Outcomes.Files.{reads_of};
ghost use Rattle.sights.specs.Outcomes.Pages.{all_agree, all_allow_bad, all_allow_good};
ghost use Rattle.sights.specs.AskedReads.Fitting.{WordFits, WordsFit, cell_fits};
ghost use Rattle.sights.specs.AskedReads.Reads.{file_reads_asked};

use line_histories::HeldLine;
use nvm_base::Name;
use sights::reads_asked::FileRead;
use sights::{agrees, allows_bad, allows_good};

/// Whether all of them may be answered so where this is line n of the file.
pub(crate) fn line_fits(reads: &[FileRead], name: &Name, n: u64, line: &HeldLine) -> bool
    requires { n < 2 ^ 32 }
    ensures { result ≡ cell_fits (reads_of name.now (file_reads_asked reads.now)) n line.now }
{
    if line.is_bad() {
        return all_allow_bad(reads, name, n);
    }
    all_allow_good(reads, name, n) && words_fit(reads, name, n, line)
}

fn all_allow_bad(reads: &[FileRead], name: &Name, n: u64) -> bool
    requires { n < 2 ^ 32 }
    ensures { result ≡ all_allow_bad (reads_of name.now (file_reads_asked reads.now)) n }
{
    reads
        .iter()
        .all(|read| read.name != *name || allows_bad(&read.pages, n))
}

fn all_allow_good(reads: &[FileRead], name: &Name, n: u64) -> bool
    ensures { result ≡ all_allow_good (reads_of name.now (file_reads_asked reads.now)) n }
{
    reads
        .iter()
        .all(|read| read.name != *name || allows_good(&read.pages, n))
}

fn words_fit(reads: &[FileRead], name: &Name, n: u64, line: &HeldLine) -> bool
    requires { n < 2 ^ 32 }
    ensures { WordsFit (reads_of name.now (file_reads_asked reads.now)) n line.now result }
{
    (0..8_u64).all(|w| word_fits(reads, name, n, w, line))
}

// Whether word w of line n has a value on which all reads agree.
fn word_fits(reads: &[FileRead], name: &Name, n: u64, w: u64, line: &HeldLine) -> bool
    requires line { n < 2 ^ 32 }
    requires word { w < 8 }
    ensures { WordFits (reads_of name.now (file_reads_asked reads.now)) n w line.now result }
{
    let (durable, log) = line.values(w);
    let p = 8 * n + w;
    agree(reads, name, p, durable)
        || log.iter().any(|stored| stored.word == w && agree(reads, name, p, stored.value))
}

fn agree(reads: &[FileRead], name: &Name, p: u64, value: u64) -> bool
    requires { p < 2 ^ 36 }
    ensures { result ≡ all_agree (reads_of name.now (file_reads_asked reads.now)) p value }
{
    reads
        .iter()
        .all(|read| read.name != *name || agrees(&read.pages, p, value))
}
