// Units of the medium, in bytes, and stretches of them.
ghost use Rattle.std.specs.Prelude.{◌≡◌, ℕ, ◌+◌, ◌^◌, ◌<◌, ◌≤◌, ◌↔◌, IsTrue};
ghost use Rattle.nvm_base.specs.Units.{Holds, Touches, SharesByte, units_of, overlap};

/// Bytes of a line: what one media error makes unavailable.
pub const LINE: u64 = 64;

/// Bytes of an aligned word: what a power cut never tears.
pub const WORD: u64 = 8;

/// Bytes of a block.
pub const BLOCK: u64 = 512;

/// Bytes of a page.
pub const PAGE: u64 = 4096;

/// Lines of a page.
pub const PAGE_LINES: u64 = PAGE / LINE;

/// The most spans that one command names.
pub const MOST_SPANS: usize = 8;

/// The most bytes that one command reads or writes, and the most bytes of a script's line.
pub const MOST: u64 = 65536;

/// The most blocks that one command reads.
pub const MOST_READ: u64 = MOST / BLOCK;

/// Inodes, and so the most files.
pub const INODES: u64 = 64;

/// A line of a device, counted from 0.
#[derive(Clone, Copy, Debug, PartialEq, Eq, PartialOrd, Ord)]
pub struct LineNo(pub u64);

/// A stretch of bytes, or of another unit where that is stated.
#[derive(Clone, Copy, Debug, PartialEq, Eq)]
pub struct Span {
    pub start: u64,
    pub len: u64,
}

/// The lines that the span touches: the first, and how many.
pub fn lines_of(span: Span) -> Span
    requires some { 1 ≤ span.len }
    requires within { span.start + span.len ≤ 2 ^ 40 }
    ensures value { result ≡ units_of LINE span }
    ensures touched { (k : ℕ) → Holds result k ↔ Touches LINE span k }
{
    touched(LINE, span)
}

/// The blocks that the span touches: the first, and how many.
pub fn blocks_of(span: Span) -> Span
    requires some { 1 ≤ span.len }
    requires within { span.start + span.len ≤ 2 ^ 40 }
    ensures value { result ≡ units_of BLOCK span }
    ensures touched { (k : ℕ) → Holds result k ↔ Touches BLOCK span k }
{
    touched(BLOCK, span)
}

/// The pages that the span touches: the first, and how many.
pub fn pages_of(span: Span) -> Span
    requires some { 1 ≤ span.len }
    requires within { span.start + span.len ≤ 2 ^ 40 }
    ensures value { result ≡ units_of PAGE span }
    ensures touched { (k : ℕ) → Holds result k ↔ Touches PAGE span k }
{
    touched(PAGE, span)
}

/// Whether two spans share a byte.
pub fn overlaps(a: Span, b: Span) -> bool
    requires some { (1 ≤ a.len) × (1 ≤ b.len) }
    requires within { (a.start + a.len ≤ 2 ^ 40) × (b.start + b.len ≤ 2 ^ 40) }
    ensures value { result ≡ overlap a b }
    ensures shared { IsTrue result ↔ SharesByte a b }
{
    a.start < b.start + b.len && b.start < a.start + a.len
}

// The units of that size that the span touches.
fn touched(unit: u64, span: Span) -> Span
    requires unit { 0 < unit }
    requires some { 1 ≤ span.len }
    requires within { span.start + span.len ≤ 2 ^ 40 }
    ensures value { result ≡ units_of unit span }
    ensures touched { (k : ℕ) → Holds result k ↔ Touches unit span k }
{
    let start = span.start / unit;
    let last = (span.start + span.len - 1) / unit;
    Span {
        start,
        len: last + 1 - start,
    }
}
