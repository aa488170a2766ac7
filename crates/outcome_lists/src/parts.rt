// The reads of a look, parted: each is of one word, of the volume or of a file, or of one block.
ghost use Rattle.std.specs.Prelude.{◌≡◌, ◌+◌, ◌*◌, ◌≤◌, ◌<◌, ◌^◌, ◌++◌, IfOk, None, OnOk, not, position};
ghost use Rattle.std.specs.List.{position_or_len};
ghost use Rattle.word_tables.specs.Bounds.{IsValid};
ghost use Rattle.nvm_base.specs.Units.{units_of};
ghost use Rattle.explorer.specs.ValueTables.Rows.{read_refusal};
ghost use Rattle.outcome_lists.specs.Parts.{AreInOrder, AreParts, IsPart, comes_before, part, parts_of, parts_read, reach, same_part, unless_refused, with_part, with_parts};

use explorer::reads_asked::Read;
use explorer::tables::read_refusal;
use nvm_base::{Span, WORD};
use std::alloc::{AllocError, Global};
use word_tables::Geometry;

/// No file has a byte from here on.
const FILE_END: u64 = 4_294_967_296;

/// The parts of the reads that are not refused, each once, in order: words of the volume, blocks, words of files by name, each by
/// address.
pub fn parts_of(alloc: Global, geometry: Geometry, reads: &[Read]) -> Result<Vec<Read>, AllocError>
    requires { IsValid geometry }
    ensures parts { IfOk result (λ parts. parts.items ≡ parts_of geometry reads.now) }
    ensures taken { IfOk result (λ parts. AreParts geometry parts.items) }
    ensures order { IfOk result (λ parts. AreInOrder parts.items) }
{
    let mut parts = Vec::new(alloc);
    for read in reads {
        add_read(geometry, read, &mut parts)?;
    }
    Ok(parts)
}

// Those of one read.
fn add_read(geometry: Geometry, read: &Read, parts: &mut Vec<Read>) -> Result<(), AllocError>
    requires { IsValid geometry }
    ensures parts { OnOk result (parts.new.items ≡ with_parts parts.old.items (unless_refused (read_refusal geometry read.now) (parts_read read.now))) }
    ensures taken { AreParts geometry parts.old.items → OnOk result (AreParts geometry parts.new.items) }
    ensures order { AreInOrder parts.old.items → OnOk result (AreInOrder parts.new.items) }
{
    if read_refusal(geometry, read).is_some() {
        return Ok(());
    }
    add_parts(geometry, read, parts)
}

fn add_parts(geometry: Geometry, read: &Read, parts: &mut Vec<Read>) -> Result<(), AllocError>
    requires valid { IsValid geometry }
    requires taken { read_refusal geometry read.now ≡ None }
    ensures parts { OnOk result (parts.new.items ≡ with_parts parts.old.items (parts_read read.now)) }
    ensures taken { AreParts geometry parts.old.items → OnOk result (AreParts geometry parts.new.items) }
    ensures order { AreInOrder parts.old.items → OnOk result (AreInOrder parts.new.items) }
{
    let reach = reach_of(geometry, read);
    for n in reach.start..reach.start + reach.len {
        add_part(part(geometry, read, n), parts)?;
    }
    Ok(())
}

// One more, in its place, unless it is there.
fn add_part(part: Read, parts: &mut Vec<Read>) -> Result<(), AllocError>
    ensures parts { OnOk result (parts.new.items ≡ with_part parts.old.items part) }
{
    let place = place_of(parts, &part);
    match parts.get(place) {
        Some(other) if same_part(other, &part) => {}
        _ => parts.insert(place, part)?,
    }
    Ok(())
}

// Behind those that come before it.
fn place_of(parts: &[Read], part: &Read) -> usize
    ensures { result ≡ position_or_len (λ other. not (comes_before other part.now)) parts.now }
{
    first_behind(parts, part).unwrap_or(parts.len())
}

fn first_behind(parts: &[Read], part: &Read) -> Option<usize>
    ensures { result ≡ position (λ other. not (comes_before other part.now)) parts.now }
{
    parts.iter().position(|other| !comes_before(other, part))
}

fn comes_before(part: &Read, other: &Read) -> bool
    ensures { result ≡ comes_before part.now other.now }
{
    match (part, other) {
        (Read::Volume { start: a, .. }, Read::Volume { start: b, .. }) => a < b,
        (Read::Blocks { first: a, .. }, Read::Blocks { first: b, .. }) => a < b,
        (
            Read::File {
                name: x,
                start: a,
                ..
            },
            Read::File {
                name: y,
                start: b,
                ..
            },
        ) => x < y || (x == y && a < b),
        (Read::Volume { .. }, Read::Blocks { .. } | Read::File { .. })
        | (Read::Blocks { .. }, Read::File { .. }) => true,
        (Read::Blocks { .. }, Read::Volume { .. })
        | (Read::File { .. }, Read::Volume { .. } | Read::Blocks { .. }) => false,
    }
}

fn same_part(part: &Read, other: &Read) -> bool
    ensures { result ≡ same_part part.now other.now }
{
    match (part, other) {
        (Read::Volume { start: a, .. }, Read::Volume { start: b, .. }) => a == b,
        (Read::Blocks { first: a, .. }, Read::Blocks { first: b, .. }) => a == b,
        (
            Read::File {
                name: x,
                start: a,
                ..
            },
            Read::File {
                name: y,
                start: b,
                ..
            },
        ) => x == y && a == b,
        (Read::Volume { .. }, Read::Blocks { .. } | Read::File { .. })
        | (Read::Blocks { .. }, Read::Volume { .. } | Read::File { .. })
        | (Read::File { .. }, Read::Volume { .. } | Read::Blocks { .. }) => false,
    }
}

// The words or the blocks that the read touches: the first, and how many.
fn reach_of(geometry: Geometry, read: &Read) -> Span
    requires valid { IsValid geometry }
    requires taken { read_refusal geometry read.now ≡ None }
    ensures reach { result ≡ reach read.now }
    ensures few { result.start + result.len ≤ 2 ^ 29 }
{
    match read {
        Read::Volume { start, len } => words_of(*start, *len),
        Read::Blocks { first, count } => Span {
            start: u64::from(*first),
            len: *count,
        },
        Read::File { start, len, .. } => {
            let start = u64::from(*start);
            words_of(start, (*len).min(FILE_END - start))
        }
    }
}

fn words_of(start: u64, len: u64) -> Span
    requires some { 1 ≤ len }
    requires within { start + len ≤ 2 ^ 40 }
    ensures { result ≡ units_of 8 (record { start = start; len = len }) }
{
    let first = start / WORD;
    Span {
        start: first,
        len: (start + len - 1) / WORD + 1 - first,
    }
}

fn part(geometry: Geometry, read: &Read, n: u64) -> Read
    requires valid { IsValid geometry }
    requires taken { read_refusal geometry read.now ≡ None }
    requires from { (reach read.now).start ≤ n }
    requires below { n < (reach read.now).start + (reach read.now).len }
    requires few { n < 2 ^ 29 }
    ensures part { result ≡ part read.now n }
    ensures is { IsPart geometry result }
{
    match read {
        Read::Volume { .. } => Read::Volume {
            start: WORD * n,
            len: WORD,
        },
        Read::Blocks { .. } => Read::Blocks {
            first: n as u32,
            count: 1,
        },
        Read::File { name, .. } => Read::File {
            name: *name,
            start: (WORD * n) as u32,
            len: WORD,
        },
    }
}
