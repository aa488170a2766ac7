// The bytes of lines as last stored.
ghost use Rattle.std.specs.Prelude.{◌≡◌, ◌+◌, ◌*◌, ◌/◌, ◌<◌, ◌≤◌, ◌^◌, ◌%◌, ℕ, true, false, Some, IsTrue, OnErr, OnOk, length};
ghost use Rattle.line_device.specs.Medium.{WritesBack, IsHealthy};
ghost use Rattle.line_device.specs.Panel.{Runs};
ghost use Rattle.line_words.specs.Ending.{ended};
ghost use Rattle.nvm_base.specs.declared.units.Span.{Span};
ghost use Rattle.nvm_model.specs.Cell.{touches};
ghost use Rattle.nvm_model.specs.Numbered.{AreMixed, list_from};
ghost use Rattle.page_lines.specs.Placed.{AreApart, one_there, there_in};
ghost use Rattle.page_lines.specs.Shown.{byte_in_line, part_of, placed_byte};
ghost use Rattle.nvm_model.specs.Lines.{shown_byte};

use crate::Places;
use line_device::Lines;
use line_words::{Interruption, stop_of};
use nvm_base::{LINE, LineNo, Span, lines_of};

/// Loads the bytes from an offset of the storage on, as many as fill the buffer; zeros where a line is nowhere.
pub fn load_lines<L: Lines, P: Places>(
    dev: &mut L,
    places: &P,
    offset: u64,
    out: &mut [u8],
) -> Result<(), Interruption>
    requires some { 1 ≤ length out.old }
    requires within { offset + length out.old ≤ 2 ^ 40 }
    requires apart { AreApart (P.place places.now) (L.state dev.old).medium.count }
    requires good { (n line : ℕ) → touches offset (length out.old) n ≡ true → P.place places.now n ≡ Some line
        → (L.state dev.old).medium.is_bad line ≡ false }
    requires on { IsTrue (L.state dev.old).panel.power }
    ensures ok { OnOk result (out.new
        ≡ list_from (placed_byte (P.place places.now) (L.state dev.old).medium) offset (length out.old)) }
    ensures err { OnErr result (AreMixed ℕ out.old
        (list_from (placed_byte (P.place places.now) (L.state dev.old).medium) offset (length out.old)) out.new) }
    ensures lines { WritesBack (L.state dev.old).medium (L.state dev.new).medium }
    ensures runs { Runs (there_in (P.place places.now) (record { start = offset; len = length out.old })) 0 (ended result)
        (L.state dev.old).panel (L.state dev.new).panel }
{
    let span = Span {
        start: offset,
        len: out.len() as u64,
    };
    let touched = lines_of(span);
    let end = touched.start + touched.len;
    let mut stretch = places.stretch(touched.start, end);
    for k in 0..touched.len {
        let n = touched.start + k;
        stretch = stretch.reaching(places, n, end);
        let part = part_in(span, n);
        let at = (part.start - offset) as usize;
        load_at(
            dev,
            &stretch,
            part.start,
            &mut out[at..at + part.len as usize],
        )?;
    }
    Ok(())
}

// The bytes of the span that lie in line n.
pub(crate) fn part_in(span: Span, n: u64) -> Span
    requires small { span.start + span.len ≤ 2 ^ 40 }
    requires touched { (64 * n < span.start + span.len) × (span.start < 64 * n + 64) }
    ensures { result ≡ part_of span n }
{
    let start = span.start.max(LINE * n);
    let end = (span.start + span.len).min(LINE * n + LINE);
    Span {
        start,
        len: end - start,
    }
}

// Loads bytes of one line, or as many zeros.
fn load_at<L: Lines, P: Places>(
    dev: &mut L,
    places: &P,
    offset: u64,
    out: &mut [u8],
) -> Result<(), Interruption>
    requires one_line { offset % 64 + length out.old ≤ 64 }
    requires apart { AreApart (P.place places.now) (L.state dev.old).medium.count }
    requires good { (line : ℕ) → P.place places.now (offset / 64) ≡ Some line → (L.state dev.old).medium.is_bad line ≡ false }
    requires on { IsTrue (L.state dev.old).panel.power }
    ensures ok { OnOk result (out.new
        ≡ list_from (placed_byte (P.place places.now) (L.state dev.old).medium) offset (length out.old)) }
    ensures err { OnErr result (out.new ≡ out.old) }
    ensures lines { WritesBack (L.state dev.old).medium (L.state dev.new).medium }
    ensures runs { Runs (one_there (P.place places.now (offset / 64))) 0 (ended result) (L.state dev.old).panel (L.state dev.new).panel }
{
    match places.line(offset / LINE) {
        Some(line) => load_part(dev, line, offset % LINE, out),
        None => {
            out.fill(0);
            Ok(())
        }
    }
}

// Loads bytes of a line of the device.
fn load_part<L: Lines>(
    dev: &mut L,
    line: u64,
    start: u64,
    out: &mut [u8],
) -> Result<(), Interruption>
    requires one_line { start + length out.old ≤ 64 }
    requires healthy { IsHealthy (L.state dev.old).medium line }
    requires on { IsTrue (L.state dev.old).panel.power }
    ensures ok { OnOk result (out.new ≡ list_from (shown_byte (L.state dev.old).medium) (64 * line + start) (length out.old)) }
    ensures err { OnErr result (out.new ≡ out.old) }
    ensures lines { WritesBack (L.state dev.old).medium (L.state dev.new).medium }
    ensures runs { Runs 1 0 (ended result) (L.state dev.old).panel (L.state dev.new).panel }
{
    match dev.load(LineNo(line)) {
        Ok(bytes) => {
            copy_part(out, bytes, start as usize);
            Ok(())
        }
        Err(fault) => Err(stop_of(fault, line)),
    }
}

// Fills the buffer with bytes of a line.
fn copy_part(out: &mut [u8], line: &[u8], start: usize)
    requires within { start + length out.old ≤ length line.now }
    ensures length { length out.new ≡ length out.old }
    ensures bytes { out.new ≡ list_from (byte_in_line line.now) start (length out.old) }
{
    let end = start + out.len();
    out.copy_from_slice(&line[start..end]);
}
