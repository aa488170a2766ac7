// Where a part is stored.
ghost use Rattle.std.specs.Prelude.{◌≡◌};
ghost use Rattle.outcome_lists.specs.Mixing.{page_of, same_kind, same_storage, unit_of};

use explorer::reads_asked::Read;
use nvm_base::{LINE, PAGE};

/// Whether both are words of the volume, blocks, or words of files.
pub fn same_kind(part: &Read, other: &Read) -> bool
    ensures { result ≡ same_kind part.now other.now }
{
    match (part, other) {
        (Read::Volume { .. }, Read::Volume { .. })
        | (Read::Blocks { .. }, Read::Blocks { .. })
        | (Read::File { .. }, Read::File { .. }) => true,
        (Read::Volume { .. }, Read::Blocks { .. } | Read::File { .. })
        | (Read::Blocks { .. }, Read::Volume { .. } | Read::File { .. })
        | (Read::File { .. }, Read::Volume { .. } | Read::Blocks { .. }) => false,
    }
}

/// Whether both are of one kind, and of one file where they are of files.
pub fn same_storage(part: &Read, other: &Read) -> bool
    ensures { result ≡ same_storage part.now other.now }
{
    match (part, other) {
        (Read::File { name, .. }, Read::File { name: text, .. }) => name == text,
        _ => same_kind(part, other),
    }
}

/// The number of its line, or of its block.
pub fn unit_of(part: &Read) -> u64
    ensures { result ≡ unit_of part.now }
{
    match part {
        Read::Volume { start, .. } => *start / LINE,
        Read::Blocks { first, .. } => u64::from(*first),
        Read::File { start, .. } => u64::from(*start) / LINE,
    }
}

/// The number of its page, or of its block, which has none.
pub fn page_of(part: &Read) -> u64
    ensures { result ≡ page_of part.now }
{
    match part {
        Read::Volume { start, .. } => *start / PAGE,
        Read::Blocks { first, .. } => u64::from(*first),
        Read::File { start, .. } => u64::from(*start) / PAGE,
    }
}
