// The line that answers a question, and whether the answer is the one that is wanted.
ghost use Rattle.std.specs.Prelude.{◌≡◌, IfOk};
ghost use Rattle.outcome_lists.specs.AskedReads.Asking.{files_asked, volume_asked};
ghost use Rattle.explore_program.specs.Telling.{answer_text, is_missed};

use exploration::Wanted;
use nvm_base::Bytes;
use outcome_lists::exploring::Found;
use outcome_lists::print_place;
use outcome_lists::reads_asked::Question;
use outcome_lists::witness::kept_text;
use program_base::plain_line;
use std::alloc::{AllocError, Global};

/// Whether what was asked is never found, or where a cut leaves it first, and what it keeps then of all that is looked at.
pub fn answer_line(
    alloc: Global,
    looked: &Question,
    found: &Option<Found>,
) -> Result<Bytes, AllocError>
    ensures { IfOk result (λ line. line.items ≡ answer_text (volume_asked looked.now) (files_asked looked.now) found.now) }
{
    let Some(found) = found else {
        return plain_line(alloc, b"never");
    };
    let mut line = Bytes::new(alloc);
    line.extend(b"may ")?;
    print_place(found.place, &mut line)?;
    let kept = kept_text(alloc, looked, &found.kept)?;
    line.extend(kept.as_slice())?;
    line.push(b'\n')?;
    Ok(line)
}

/// Whether a question is answered otherwise than it is to be.
pub fn is_missed(wanted: Wanted, found: &Option<Found>) -> bool
    ensures { result ≡ is_missed wanted found.now }
{
    match wanted {
        Wanted::Never => found.is_some(),
        Wanted::May => found.is_none(),
    }
}
