// Blocks among those of a span, and the bytes of a range.
ghost use Rattle.std.specs.Prelude.{◌≡◌, take, drop};
ghost use Rattle.std.specs.List.{list_any};
ghost use Rattle.nvm_base.specs.declared.units.Span.{Span as Blocks};
ghost use Rattle.nvm_model.specs.Numbered.{is_among};

use nvm_base::Span;

/// Whether block b is one of `count` from `start` on.
pub(crate) fn is_among(start: u64, count: u64, b: u64) -> bool
    ensures { result ≡ is_among start count b }
{
    start <= b && b - start < count
}

/// Whether block b is one of some spans.
pub(crate) fn is_in_any(spans: &[Span], b: u64) -> bool
    ensures { result ≡ list_any (λ (span : Blocks). is_among span.start span.len b) spans.now }
{
    spans.iter().any(|span| is_among(span.start, span.len, b))
}

/// First `len` bytes, or all where there are fewer, and the others.
pub(crate) fn split(bytes: &[u8], len: u64) -> (&[u8], &[u8])
    ensures part { result.0.now ≡ take len bytes.now }
    ensures others { result.1.now ≡ drop len bytes.now }
{
    bytes.split_at(bytes.len().min(len as usize))
}
