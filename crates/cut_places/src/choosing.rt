// Which change a command makes.
ghost use Rattle.std.specs.Prelude.{◌≡◌, ◌<◌, ◌^◌, IfOk, List};
ghost use Rattle.std.specs.List.{All};
ghost use Rattle.sights.specs.MachineModel.OnFlushes.{all_moved};
ghost use Rattle.script_text.specs.Action.{action_of};
ghost use Rattle.script_text.specs.Parsing.{InBounds, IsSmall};
ghost use Rattle.cut_places.specs.FileChanges.{change_of};
ghost use Rattle.cut_places.specs.FileCommands.{files_change, persisted_at, stored_at, through};
ghost use Rattle.cut_places.specs.Maps.{shown};

use crate::change::{FilesChange, LinesChange};
use crate::map::Stretch;
use crate::maps::MapsSeen;
use nvm_base::{LINE, Span};
use script_text::Command;
use std::alloc::{AllocError, Global};

/// The most bytes that a file has.
const FILE: u64 = 1 << 20;

/// What the command makes of files and of mappings, where these are the mappings.
pub(crate) fn change_of<'a>(
    alloc: Global,
    maps: &MapsSeen,
    command: &'a Command,
) -> Result<FilesChange<'a>, AllocError>
    requires bounded { InBounds (action_of command.now) }
    ensures { IfOk result (λ change. change_of change ≡ files_change maps.now.mappings (action_of command.now)) }
{
    Ok(match command {
        Command::Create { name, pages } => FilesChange::Makes {
            name: *name,
            pages: *pages as u32,
        },
        Command::Delete { name } => FilesChange::Removes(*name),
        Command::Rename { name, to } => FilesChange::Renames {
            name: *name,
            to: *to,
        },
        Command::Resize { name, pages } => FilesChange::Resizes {
            name: *name,
            pages: *pages as u32,
        },
        Command::FWrite {
            name,
            offset,
            bytes,
        } => {
            let at = *offset;
            let bytes = bytes.as_slice();
            FilesChange::Changes(*name, LinesChange::Puts { at, bytes })
        }
        Command::FAtomic {
            name,
            offset,
            bytes,
        } => {
            let range = Span {
                start: *offset,
                len: bytes.len(),
            };
            let ranges = Vec::from_slice(alloc, &[range])?;
            let bytes = bytes.as_slice();
            FilesChange::Changes(*name, LinesChange::Rewrites { ranges, bytes })
        }
        Command::FMulti {
            name,
            ranges,
            bytes,
        } => {
            let ranges = Vec::from_slice(alloc, ranges.as_slice())?;
            let bytes = bytes.as_slice();
            FilesChange::Changes(*name, LinesChange::Rewrites { ranges, bytes })
        }
        Command::FDiscard { name, page, count } => {
            let (page, count) = (*page, *count);
            FilesChange::Changes(*name, LinesChange::Zeroes { page, count })
        }
        Command::FSync { name } => {
            let all = Span {
                start: 0,
                len: FILE,
            };
            let spans = Vec::from_slice(alloc, &[all])?;
            FilesChange::Changes(*name, LinesChange::Persists(spans))
        }
        Command::Map { name, span, kind } => FilesChange::Maps(Stretch {
            name: *name,
            start: span.start as u32,
            len: span.len as u32,
            kind: *kind,
        }),
        Command::Unmap { handle } => FilesChange::Unmaps(*handle),
        Command::Store {
            handle,
            offset,
            bytes,
        } => stored(maps, *handle, *offset, bytes.as_slice()),
        Command::Sync {
            handle,
            offset,
            len,
        } => {
            let span = Span {
                start: *offset,
                len: *len,
            };
            persisted(alloc, maps, *handle, &[span])?
        }
        Command::Flush { handle, spans }
        | Command::FlushVerify { handle, spans }
        | Command::DeepFlush { handle, spans } => {
            persisted(alloc, maps, *handle, spans.as_slice())?
        }
        Command::PoisonFile { name, offset } => {
            FilesChange::Changes(*name, LinesChange::Loses(*offset / LINE))
        }
        Command::WeakenFile { name, offset } => {
            FilesChange::Changes(*name, LinesChange::Weakens(*offset / LINE))
        }
        Command::ClearFile { name, offset } => {
            FilesChange::Changes(*name, LinesChange::Clears(*offset / LINE))
        }
        Command::BRead { .. }
        | Command::BWrite { .. }
        | Command::BAtomic { .. }
        | Command::BMulti { .. }
        | Command::BDiscard { .. }
        | Command::BDiscardIf { .. }
        | Command::BExists { .. }
        | Command::BScar { .. }
        | Command::VLoad { .. }
        | Command::VStore { .. }
        | Command::VSync { .. }
        | Command::VRanges
        | Command::VPSync { .. }
        | Command::VDiscard { .. }
        | Command::VDiscardIf { .. }
        | Command::VExists { .. }
        | Command::List
        | Command::FRead { .. }
        | Command::Load { .. }
        | Command::NextEvent
        | Command::CheckFile { .. }
        | Command::PoisonBlock { .. }
        | Command::PoisonVolume { .. }
        | Command::PoisonMeta { .. }
        | Command::WeakenVolume { .. }
        | Command::ClearVolume { .. }
        | Command::Cut
        | Command::CutIn { .. }
        | Command::FailIn { .. }
        | Command::Restart { .. }
        | Command::Recover
        | Command::Attr { .. }
        | Command::Evict { .. } => FilesChange::Nothing,
    })
}

// Bytes are stored in the file that the mapping shows.
fn stored<'a>(maps: &MapsSeen, handle: u64, offset: u64, bytes: &'a [u8]) -> FilesChange<'a>
    requires { offset < 2 ^ 32 }
    ensures { change_of result ≡ through (shown handle maps.now.mappings) (stored_at offset bytes.now) }
{
    match maps.shown(handle) {
        None => FilesChange::Nothing,
        Some(stretch) => {
            let at = u64::from(stretch.start) + offset;
            FilesChange::Changes(stretch.name, LinesChange::Puts { at, bytes })
        }
    }
}

// Spans of the mapping are made durable in the file that it shows.
fn persisted<'a>(
    alloc: Global,
    maps: &MapsSeen,
    handle: u64,
    spans: &[Span],
) -> Result<FilesChange<'a>, AllocError>
    requires { All IsSmall spans.now }
    ensures { IfOk result (λ change. change_of change ≡ through (shown handle maps.now.mappings) (persisted_at spans.now)) }
{
    match maps.shown(handle) {
        None => Ok(FilesChange::Nothing),
        Some(stretch) => {
            let spans = moved(alloc, u64::from(stretch.start), spans)?;
            Ok(FilesChange::Changes(stretch.name, LinesChange::Persists(spans)))
        }
    }
}

// Spans so much further on.
fn moved(alloc: Global, by: u64, spans: &[Span]) -> Result<Vec<Span>, AllocError>
    requires by { by < 2 ^ 32 }
    requires spans { All IsSmall spans.now }
    ensures { IfOk result (λ moved. moved.items ≡ all_moved by spans.now) }
{
    let mut moved = Vec::new(alloc);
    for span in spans {
        moved.push(Span {
            start: by + span.start,
            len: span.len,
        })?;
    }
    Ok(moved)
}
