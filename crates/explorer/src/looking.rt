// What a table looks at.
ghost use Rattle.std.specs.Prelude.{◌≡◌, ◌*◌, ◌/◌, ◌++◌, ◌∷◌, [], IfOk, List, OnOk};
ghost use Rattle.word_tables.specs.Bounds.{IsValid};
ghost use Rattle.cut_places.specs.Outcomes.Pages.PageReply.{Poison};
ghost use Rattle.cut_places.specs.AskedReads.Reads.{page_read};
ghost use Rattle.cut_places.specs.AskedReads.declared.read.Read.{Read as Asked};
ghost use Rattle.explorer.specs.Tabulating.{LooksAt};

use cut_places::reads_asked::{
    BlockRead, BlockReply, FileRead, PageRead, PageReply, Question, Read,
};
use nvm_base::LINE;
use std::alloc::{AllocError, Global};
use value_tables::read_refusal;
use word_tables::Geometry;

/// A question that looks at all that the reads touch which are not refused. Nobody asks it: any replies that they may have will do.
pub fn look_at(alloc: Global, geometry: Geometry, reads: &[Read]) -> Result<Question, AllocError>
    requires { IsValid geometry }
    ensures { IfOk result (LooksAt geometry reads.now) }
{
    let mut question = Question {
        volume: Vec::new(alloc),
        blocks: Vec::new(alloc),
        files: Vec::new(alloc),
    };
    for read in reads {
        add(geometry, &mut question, *read)?;
    }
    Ok(question)
}

fn add(geometry: Geometry, question: &mut Question, read: Read) -> Result<(), AllocError>
    requires { IsValid geometry }
    ensures { (look : List Asked) → LooksAt geometry look question.old → OnOk result (LooksAt geometry (look ++ read ∷ []) question.new) }
{
    if read_refusal(geometry, &read).is_some() {
        return Ok(());
    }
    match read {
        Read::Volume { start, len } => question.volume.push(all_lines(start, len))?,
        Read::Blocks { first, count } => question.blocks.push(BlockRead {
            first: u64::from(first),
            count,
            reply: BlockReply::Scar(u64::from(first)),
        })?,
        Read::File { name, start, len } => question.files.push(FileRead {
            name,
            pages: all_lines(u64::from(start), len),
        })?,
    }
    Ok(())
}

// A read of all these lines, of which the first may be bad.
fn all_lines(start: u64, len: u64) -> PageRead
    ensures { page_read result ≡ record { start = start; len = len; reply = Poison (start / 64 * 64) } }
{
    PageRead {
        start,
        len,
        reply: PageReply::Poison(start / LINE * LINE),
    }
}
