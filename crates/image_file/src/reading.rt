// Bytes as an image, field by field from the first one on.
ghost use Rattle.std.specs.Prelude.{◌≡◌, ◌<◌, ◌≤◌, ◌++◌, IfOk, length, MatchOption};
ghost use Rattle.std.specs.List.{AllByRecursion};
ghost use Rattle.image_file.specs.Text.{IsOfBytes, IsSnapshot, Snapshot, TakesUnit, image_text};
ghost use Rattle.image_file.specs.WrongField.{field_number, unit_number};
ghost use Rattle.image_file.specs.Results.{GivesImage, ReadsHead, ReadsImage, ReadsLine, ReadsLines};

use crate::{BAD, HEALTHY, Image, ImageFault, MAGIC, MOST_LINES, Units, WEAK};
use byteorder::{ByteOrder, LittleEndian};
use line_device::{BYTE_UNIT, LineList, LineState, WORD_UNIT};
use std::alloc::Global;

// The bytes before the first line.
const HEADER: usize = 24;

/// The image that the bytes spell, if its unit is one of these. It takes memory for its list of lines alone.
pub fn read(alloc: Global, bytes: &[u8], units: Units) -> Result<Image, ImageFault>
    ensures image { ReadsImage units bytes.now result }
    ensures bytes { IfOk result (λ image. AllByRecursion IsOfBytes image.lines.items) }
    ensures only { (m : Snapshot) → IsSnapshot m → TakesUnit units m.unit → bytes.now ≡ image_text m → GivesImage m result }
{
    match read_head(bytes, units) {
        Ok((unit, count)) => {
            let lines = read_lines(alloc, count, bytes)?;
            Ok(Image { unit, lines })
        }
        Err(offset) => Err(ImageFault::Bad(offset)),
    }
}

// The unit and how many lines the fields before the lines announce, or the offset of the first wrong one.
#[tactic(auto, unfolding(crate::specs::WrongField::first_wrong_offset))]
fn read_head(bytes: &[u8], units: Units) -> Result<(u64, u64), u64>
    ensures { ReadsHead units bytes.now result }
{
    if !bytes.starts_with(MAGIC) {
        return Err(0);
    }
    let Some(unit) = unit_at(bytes, units) else {
        return Err(8);
    };
    let Some(count) = number_at(bytes, 16, 1, MOST_LINES) else {
        return Err(16);
    };
    Ok((unit, count))
}

// The unit in the eight bytes at offset 8, if the bytes reach so far and it is taken.
fn unit_at(bytes: &[u8], units: Units) -> Option<u64>
    ensures { result ≡ unit_number units bytes.now }
{
    let word = number_at(bytes, 8, WORD_UNIT, WORD_UNIT);
    match units {
        Units::Words => word,
        Units::All => word.or(number_at(bytes, 8, BYTE_UNIT, BYTE_UNIT)),
    }
}

// The number in the eight bytes at an offset, if these are there and it is within the bounds.
fn number_at(bytes: &[u8], offset: usize, least: u64, most: u64) -> Option<u64>
    requires { offset ≤ 16 }
    ensures { result ≡ field_number bytes.now offset least most }
{
    if bytes.len() < offset + 8 {
        return None;
    }
    let number = LittleEndian::read_u64(&bytes[offset..]);
    (number >= least && number <= most).then_some(number)
}

// So many lines, from the end of the header on.
fn read_lines(alloc: Global, count: u64, bytes: &[u8]) -> Result<LineList, ImageFault>
    requires { 24 ≤ length bytes.now }
    ensures { ReadsLines count bytes.now result }
{
    let mut lines = LineList::new(alloc);
    lines.reserve(count)?;
    let mut rest = &bytes[HEADER..];
    for _ in 0..count {
        match read_line(rest) {
            Ok((line, after)) => {
                lines.push(line)?;
                rest = after;
            }
            Err(skip) => {
                let offset = (bytes.len() - rest.len()) as u64;
                return Err(ImageFault::Bad(offset + skip));
            }
        }
    }
    if !rest.is_empty() {
        return Err(ImageFault::Bad((bytes.len() - rest.len()) as u64));
    }
    Ok(lines)
}

// The line at the front and what follows it, or how far into the bytes the first wrong field begins.
#[tactic(auto, unfolding(crate::specs::WrongField::wrong_in_lines))]
fn read_line(bytes: &[u8]) -> Result<(LineState, &[u8]), u64>
    ensures { ReadsLine bytes.now result }
{
    match bytes {
        [HEALTHY, rest @ ..] => match line_bytes(rest) {
            Some((line, rest)) => Ok((LineState::Healthy(*line), rest)),
            None => Err(1),
        },
        [WEAK, rest @ ..] => match line_bytes(rest) {
            Some((line, rest)) => Ok((LineState::Weak(*line), rest)),
            None => Err(1),
        },
        [BAD, rest @ ..] => Ok((LineState::Bad, rest)),
        [] | [_, ..] => Err(0),
    }
}

// The bytes of a line and what follows them, if all are there.
fn line_bytes(bytes: &[u8]) -> Option<(&[u8; 64], &[u8])>
    ensures { MatchOption result (length bytes.now < 64) (λ p. (bytes.now ≡ p.0.now ++ p.1.now) × (length p.0.now ≡ 64)) }
{
    bytes.split_first_chunk::<64>()
}
