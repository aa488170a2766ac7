// Whether a line of the volume may be read as a question asks.
ghost use Rattle.std.specs.Prelude.{◌≡◌, ◌+◌, ◌-◌, ◌*◌, ◌<◌, ◌^◌, ◌%◌, ◌==◌, ◌&&◌, ◌||◌, nat_lt, not, slice_index};
ghost use Rattle.std.specs.Int.{byte_at};
ghost use Rattle.nvm_model.specs.Cell.{touches};
ghost use Rattle.nvm_model.specs.Numbered.{is_among};
ghost use Rattle.asked_reads.specs.Outcomes.Pages.{agrees, all_agree, all_allow_bad, all_allow_good, allows_bad, allows_good};
ghost use Rattle.asked_reads.specs.Outcomes.Pages.PageReply.{Shows};
ghost use Rattle.asked_reads.specs.Reads.{page_reply, pages_asked};
ghost use Rattle.asked_reads.specs.Fitting.{WordFits, WordsFit, cell_fits};

use asked_reads::{PageRead, PageReply};
use line_histories::HeldLine;
use nvm_base::LINE;

/// Whether all of these reads may be answered so where this is line n: it may be bad or good, and each of its words has a value on
/// which they agree.
pub fn line_fits(reads: &[PageRead], n: u64, line: &HeldLine) -> bool
    requires { n < 2 ^ 32 }
    ensures { result ≡ cell_fits (pages_asked reads.now) n line.now }
{
    if line.is_bad() {
        return all_allow_bad(reads, n);
    }
    all_allow_good(reads, n) && words_fit(reads, n, line)
}

fn all_allow_bad(reads: &[PageRead], n: u64) -> bool
    requires { n < 2 ^ 32 }
    ensures { result ≡ all_allow_bad (pages_asked reads.now) n }
{
    reads.iter().all(|read| allows_bad(read, n))
}

fn all_allow_good(reads: &[PageRead], n: u64) -> bool
    ensures { result ≡ all_allow_good (pages_asked reads.now) n }
{
    reads.iter().all(|read| allows_good(read, n))
}

fn words_fit(reads: &[PageRead], n: u64, line: &HeldLine) -> bool
    requires { n < 2 ^ 32 }
    ensures { WordsFit (pages_asked reads.now) n line.now result }
{
    (0..8_u64).all(|w| word_fits(reads, n, w, line))
}

// Whether word w of line n has a value on which all reads agree.
fn word_fits(reads: &[PageRead], n: u64, w: u64, line: &HeldLine) -> bool
    requires line { n < 2 ^ 32 }
    requires word { w < 8 }
    ensures { WordFits (pages_asked reads.now) n w line.now result }
{
    let (durable, log) = line.values(w);
    let p = 8 * n + w;
    agree(reads, p, durable)
        || log
            .iter()
            .any(|stored| stored.word == w && agree(reads, p, stored.value))
}

/// Whether all reads agree on this value of word p.
pub fn agree(reads: &[PageRead], p: u64, value: u64) -> bool
    requires { p < 2 ^ 36 }
    ensures { result ≡ all_agree (pages_asked reads.now) p value }
{
    reads.iter().all(|read| agrees(read, p, value))
}

/// Whether line n may be bad where the read is answered so.
pub fn allows_bad(read: &PageRead, n: u64) -> bool
    requires { n < 2 ^ 32 }
    ensures { result ≡ allows_bad n read.now.start read.now.len (page_reply read.now.reply) }
{
    match &read.reply {
        PageReply::Shows(_) => !touches(read.start, read.len, n),
        PageReply::Poison(at) => !(touches(read.start, read.len, n) && n < *at / LINE),
        PageReply::Refuses(_) => true,
    }
}

/// Whether it may be good.
pub fn allows_good(read: &PageRead, n: u64) -> bool
    ensures { result ≡ allows_good n (page_reply read.now.reply) }
{
    match &read.reply {
        PageReply::Shows(_) | PageReply::Refuses(_) => true,
        PageReply::Poison(at) => n != *at / LINE,
    }
}

/// Whether word p may have this value.
pub fn agrees(read: &PageRead, p: u64, value: u64) -> bool
    requires { p < 2 ^ 36 }
    ensures { result ≡ agrees p value read.now.start read.now.len (page_reply read.now.reply) }
{
    match &read.reply {
        PageReply::Shows(bytes) => {
            !reaches(read.start, read.len, p) || word_agrees(read, bytes.as_slice(), p, value)
        }
        PageReply::Poison(_) | PageReply::Refuses(_) => true,
    }
}

// Whether a span reaches word p. Most reads of a look don't reach most words.
fn reaches(start: u64, len: u64, p: u64) -> bool
    requires { p < 2 ^ 36 }
    ensures { result ≡ (nat_lt start (8 * p + 8) && nat_lt (8 * p) (start + len)) }
{
    // The span may end past the last address.
    start < 8 * p + 8 && (8 * p < start || 8 * p - start < len)
}

// Whether word p may have this value, where these bytes are shown of the read's span.
fn word_agrees(read: &PageRead, bytes: &[u8], p: u64, value: u64) -> bool
    requires { p < 2 ^ 36 }
    ensures { result ≡ agrees p value read.now.start read.now.len (Shows bytes.now) }
{
    (8 * p..8 * p + 8).all(|i| byte_agrees(read.start, read.len, bytes, i, value))
}

// Whether byte i may be that of a word of this value, where these bytes are shown of a span.
fn byte_agrees(start: u64, len: u64, bytes: &[u8], i: u64, value: u64) -> bool
    ensures { result ≡ (not (is_among start len i) || (slice_index bytes.now (i - start) == byte_at (i % 8) value)) }
{
    !is_among(start, len, i) || byte_in(bytes, i - start) == value.to_le_bytes()[(i % 8) as usize]
}

/// Byte i, or 0 past the last.
pub fn byte_in(bytes: &[u8], i: u64) -> u8
    ensures { result ≡ slice_index bytes.now i }
{
    bytes.get(i as usize).copied().unwrap_or(0)
}

/// Whether the span touches line n.
pub fn touches(start: u64, len: u64, n: u64) -> bool
    requires { n < 2 ^ 58 }
    ensures { result ≡ touches start len n }
{
    // The span may end past the last address.
    start / LINE <= n && (LINE * n < start || LINE * n - start < len)
}

/// Whether i is one of a number of numbers.
pub fn is_among(start: u64, count: u64, i: u64) -> bool
    ensures { result ≡ is_among start count i }
{
    start <= i && i - start < count
}
