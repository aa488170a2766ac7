// The ways that a part of a look may be found.
ghost use Rattle.std.specs.Prelude.{◌≡◌, ◌++◌, IfOk, OnOk, map};
ghost use Rattle.explorer.specs.AskedReads.Reads.{page_reply};
ghost use Rattle.explorer.specs.AskedReads.declared.read.Read.TheVariants.{Blocks as OfBlocks};
ghost use Rattle.outcome_lists.specs.Asking.{choice_held, choices_held};
ghost use Rattle.outcome_lists.specs.Choices.{block_choice, block_choices, choices_from, file_choices, head, value_choice, word_choices};
ghost use Rattle.outcome_lists.specs.Words.{part_of_word, seen_of_word, start_of_word};

use crate::choice::{Asks, Choice};
use crate::copies::bytes_copy;
use crate::gathered::Gathered;
use crate::word::Word;
use block_sights::{HeldBlock, Unreadable};
use explorer::reads_asked::{BlockRead, BlockReply, PageReply, Read};
use explorer::sights_seen::print_sight;
use nvm_base::{Bytes, LINE, print_bytes, print_number};
use reply_text::Why;
use std::alloc::{AllocError, Global};

/// Choices of a part at these places: of a word also that it can't be read, and of a file's that it may not exist.
pub fn choices_from(
    alloc: Global,
    part: &Read,
    gathered: &Gathered,
) -> Result<Vec<Choice>, AllocError>
    ensures { IfOk result (λ choices. choices_held choices.items ≡ choices_from part.now gathered.now.word.word.values.items gathered.now.blocks.items) }
{
    let values = &gathered.word.word.values;
    match part {
        Read::Volume { start, len } => {
            let word = Word::OfVolume {
                start: *start,
                len: *len,
            };
            of_word(alloc, &word, values)
        }
        Read::Blocks { first, .. } => of_block(alloc, *first, &gathered.blocks),
        Read::File { name, start, len } => {
            let word = Word::OfFile {
                name,
                start: *start,
                len: *len,
            };
            of_file_word(alloc, &word, values)
        }
    }
}

fn of_word(alloc: Global, word: &Word<'_>, values: &[u64]) -> Result<Vec<Choice>, AllocError>
    ensures { IfOk result (λ choices. choices_held choices.items
        ≡ word_choices (head (part_of_word word.now)) (seen_of_word word.now) (start_of_word word.now) values.now) }
{
    let mut choices = Vec::new(alloc);
    add_word(alloc, word, values, &mut choices)?;
    Ok(choices)
}

fn of_file_word(alloc: Global, word: &Word<'_>, values: &[u64]) -> Result<Vec<Choice>, AllocError>
    ensures { IfOk result (λ choices. choices_held choices.items
        ≡ file_choices (head (part_of_word word.now)) (seen_of_word word.now) (start_of_word word.now) values.now) }
{
    let mut choices = Vec::new(alloc);
    let missing = choice(alloc, word, PageReply::Refuses(Why::Missing), b" missing")?;
    choices.push(missing)?;
    let range = choice(alloc, word, PageReply::Refuses(Why::Range), b" range")?;
    choices.push(range)?;
    add_word(alloc, word, values, &mut choices)?;
    Ok(choices)
}

// That its line is bad, and each value.
fn add_word(
    alloc: Global,
    word: &Word<'_>,
    values: &[u64],
    choices: &mut Vec<Choice>,
) -> Result<(), AllocError>
    ensures { OnOk result (choices_held choices.new.items ≡ choices_held choices.old.items
        ++ word_choices (head (part_of_word word.now)) (seen_of_word word.now) (start_of_word word.now) values.now) }
{
    let at = LINE * (word.start() / LINE);
    choices.push(choice(alloc, word, PageReply::Poison(at), b" poison")?)?;
    add_values(alloc, word, values, choices)
}

fn add_values(
    alloc: Global,
    word: &Word<'_>,
    values: &[u64],
    choices: &mut Vec<Choice>,
) -> Result<(), AllocError>
    ensures { OnOk result (choices_held choices.new.items ≡ choices_held choices.old.items
        ++ map (value_choice (head (part_of_word word.now)) (seen_of_word word.now)) values.now) }
{
    for value in values {
        choices.push(value_choice(alloc, word, *value)?)?;
    }
    Ok(())
}

fn value_choice(alloc: Global, word: &Word<'_>, value: u64) -> Result<Choice, AllocError>
    ensures { IfOk result (λ choice. choice_held choice ≡ value_choice (head (part_of_word word.now)) (seen_of_word word.now) value) }
{
    let bytes = value.to_le_bytes();
    let mut text = Bytes::new(alloc);
    text.push(b' ')?;
    print_bytes(&bytes, &mut text)?;
    let reply = PageReply::Shows(bytes_copy(alloc, &bytes)?);
    choice(alloc, word, reply, text.as_slice())
}

// With that text behind where it is.
fn choice(
    alloc: Global,
    word: &Word<'_>,
    reply: PageReply,
    told: &[u8],
) -> Result<Choice, AllocError>
    ensures { IfOk result (λ choice. choice_held choice ≡ record {
      seen = seen_of_word word.now (page_reply reply);
      text = head (part_of_word word.now) ++ told.now;
    }) }
{
    let mut text = Bytes::new(alloc);
    word.print_head(&mut text)?;
    text.extend(told)?;
    Ok(Choice {
        asks: word.asks(reply),
        text,
    })
}

fn of_block(alloc: Global, b: u32, blocks: &[HeldBlock]) -> Result<Vec<Choice>, AllocError>
    ensures { IfOk result (λ choices. choices_held choices.items ≡ block_choices (head (OfBlocks b 1)) b blocks.now) }
{
    let mut choices = Vec::new(alloc);
    for block in blocks {
        choices.push(block_choice(alloc, b, block)?)?;
    }
    Ok(choices)
}

fn block_choice(alloc: Global, b: u32, block: &HeldBlock) -> Result<Choice, AllocError>
    ensures { IfOk result (λ choice. choice_held choice ≡ block_choice (head (OfBlocks b 1)) b block.now) }
{
    let first = u64::from(b);
    let reply = match block.read() {
        Ok(bytes) => BlockReply::Shows(bytes_copy(alloc, bytes)?),
        Err(Unreadable::Scarred) => BlockReply::Scar(first),
        Err(Unreadable::BadLine(line)) => BlockReply::BadLine { block: first, line },
    };
    let mut text = Bytes::new(alloc);
    text.extend(b" | block ")?;
    print_number(first, &mut text)?;
    print_sight(block, &mut text)?;
    Ok(Choice {
        asks: Asks::Blocks(BlockRead {
            first,
            count: 1,
            reply,
        }),
        text,
    })
}
