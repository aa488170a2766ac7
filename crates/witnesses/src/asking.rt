// Whether a read asks about a word.
ghost use Rattle.std.specs.Prelude.{◌≡◌, ◌*◌, ◌<◌, ◌^◌};
ghost use Rattle.std.specs.List.{list_any, range_with_len};
ghost use Rattle.nvm_model.specs.Numbered.{is_among};
ghost use Rattle.cut_places.specs.AskedReads.Reads.{page_reply};
ghost use Rattle.witnesses.specs.Texts.{asks_word};

use cut_places::reads_asked::{PageRead, PageReply};
use cut_places::sights_seen::is_among;

/// Whether it is not refused, and has a byte of word p.
pub fn asks_word(read: &PageRead, p: u64) -> bool
    requires { p < 2 ^ 36 }
    ensures { result ≡ asks_word p read.now.start read.now.len (page_reply read.now.reply) }
{
    match &read.reply {
        PageReply::Shows(_) | PageReply::Poison(_) => reaches(read.start, read.len, p),
        PageReply::Refuses(_) => false,
    }
}

// Whether a byte of word p is one of so many from this one on.
fn reaches(start: u64, len: u64, p: u64) -> bool
    requires { p < 2 ^ 36 }
    ensures { result ≡ list_any (is_among start len) (range_with_len (8 * p) 8) }
{
    (8 * p..8 * p + 8).any(|i| is_among(start, len, i))
}
