ghost use Rattle.std.specs.Prelude.{◌≡◌, ◌+◌, ℕ};
ghost use Rattle.word_tables.specs.Bounds.{IsValid};
ghost use Rattle.cut_places.specs.MachineModel.Meaning.{most_refusal};
ghost use Rattle.value_tables.specs.Rows.{read_refusal};

use cut_places::reads_asked::Read;
use cut_places::sights_seen::most_refusal;
use nvm_base::{MOST, MOST_READ, PAGE};
use reply_text::Why;
use word_tables::Geometry;

/// Why a read is refused, whatever is stored.
pub fn read_refusal(geometry: Geometry, read: &Read) -> Option<Why>
    requires { IsValid geometry }
    ensures { result ≡ read_refusal geometry read.now }
{
    match read {
        Read::Volume { start, len } => most_refusal(MOST, PAGE * geometry.vpages, *start, *len),
        Read::Blocks { first, count } => {
            most_refusal(MOST_READ, geometry.blocks, u64::from(*first), *count)
        }
        Read::File { len, .. } => length_refusal(*len),
    }
}

// A file may have any size.
fn length_refusal(len: u64) -> Option<Why>
    ensures { (start : ℕ) → result ≡ most_refusal 65536 (start + len) start len }
{
    if len == 0 {
        Some(Why::Length)
    } else if len > MOST {
        Some(Why::Limit)
    } else {
        None
    }
}
