// The question that replies ask of reads.
ghost use Rattle.std.specs.Prelude.{◌≡◌, List, [], is_some, map, option_map};
ghost use Rattle.std.specs.List.{list_any};
ghost use Rattle.word_tables.specs.Bounds.{IsValid};
ghost use Rattle.questions.specs.Asked.{answer_asked};
ghost use Rattle.outcomes.specs.Seen.{Seen};
ghost use Rattle.outcomes.specs.Seen.Seen.{of_file};
ghost use Rattle.asked_reads.specs.Asking.{IsLook};
ghost use Rattle.exploration.specs.Exploration.{asked_from, asking_of, asks_nothing, question_of};
ghost use Rattle.exploration.specs.Fitting.{fits};
ghost use Rattle.exploration.specs.Reads.{seen_by, seen_of};
ghost use Rattle.asked_reads.specs.Looking.{read_action};
ghost use Rattle.asked_reads.specs.Reads.{file_read as asked_file_read};
ghost use Rattle.asked_reads.specs.declared.read.Read.TheVariants.{File};
ghost use Rattle.exploration.specs.Steps.{AddsRead, AsksRead, FindsAsking, FindsQuestion, FindsReply};

use crate::asking::{Asking, Wanted};
use crate::fitting::{has_length, has_place, has_refusal};
use crate::reason::Reason;
use crate::replies::{block_reply, file_reply, volume_reply};
use crate::stop::{LineStop, ReplyStop};
use asked_reads::{BlockRead, FileRead, PageRead, Question, Read};
use nvm_base::Name;
use questions::AskedReply;
use sights::may_be_replies;
use std::alloc::{AllocError, Global};
use word_tables::Geometry;

// What has to be found is asked of some read.
pub(crate) fn asking_of(
    alloc: Global,
    geometry: Geometry,
    reads: &[Read],
    wanted: Wanted,
    replies: &[Option<AskedReply>],
) -> Result<Asking, LineStop>
    requires { IsValid geometry }
    ensures { FindsAsking (asking_of geometry (map read_action reads.now) wanted (map (option_map answer_asked) replies.now)) result }
{
    let question = question_of(alloc, geometry, reads, replies)?;
    if asks_nothing(wanted, replies) {
        return Err(LineStop::Untaken(Reason::NothingAsked));
    }
    Ok(Asking { wanted, question })
}

// Any replies will do, where some have to be found.
fn asks_nothing(wanted: Wanted, replies: &[Option<AskedReply>]) -> bool
    ensures { result ≡ asks_nothing wanted (map (option_map answer_asked) replies.now) }
{
    match wanted {
        Wanted::Never => false,
        Wanted::May => !has_reply(replies),
    }
}

fn has_reply(replies: &[Option<AskedReply>]) -> bool
    ensures { result ≡ list_any is_some replies.now }
{
    replies.iter().any(|reply| reply.is_some())
}

// Each read needs a reply, or None for any.
fn question_of(
    alloc: Global,
    geometry: Geometry,
    reads: &[Read],
    replies: &[Option<AskedReply>],
) -> Result<Question, LineStop>
    requires { IsValid geometry }
    ensures { FindsQuestion (question_of geometry (map read_action reads.now) (map (option_map answer_asked) replies.now)) result }
{
    if replies.len() != reads.len() {
        return Err(LineStop::Untaken(Reason::Replies {
            given: replies.len() as u64,
            reads: reads.len() as u64,
        }));
    }
    ask_all(alloc, geometry, reads, replies)
}

// All of them, where they are as many.
fn ask_all(
    alloc: Global,
    geometry: Geometry,
    reads: &[Read],
    replies: &[Option<AskedReply>],
) -> Result<Question, LineStop>
    requires { IsValid geometry }
    ensures { FindsQuestion (asked_from geometry 1 (map read_action reads.now) (map (option_map answer_asked) replies.now)) result }
{
    let mut question = no_reads(alloc);
    let mut left = replies;
    for read in reads {
        let Some((reply, others)) = left.split_first() else {
            return Ok(question);
        };
        if let Some(reply) = reply {
            let number = (replies.len() - others.len()) as u64;
            ask(alloc, geometry, &mut question, read, reply, number)?;
        }
        left = others;
    }
    Ok(question)
}

// A question that asks nothing yet.
fn no_reads(alloc: Global) -> Question
    ensures { IsLook [] result }
{
    Question {
        volume: Vec::new(alloc),
        blocks: Vec::new(alloc),
        files: Vec::new(alloc),
    }
}

// One read more that is asked, where its reply, which has that number, is one that it may have.
fn ask(
    alloc: Global,
    geometry: Geometry,
    question: &mut Question,
    read: &Read,
    reply: &AskedReply,
    number: u64,
) -> Result<(), LineStop>
    requires { IsValid geometry }
    ensures { (look : List Seen) → IsLook look question.old
        → AsksRead look (fits geometry number (read_action read.now) (answer_asked reply.now)) question.new result }
{
    let mut alone = no_reads(alloc);
    if let Err(stop) = add(alloc, &mut alone, read, reply) {
        return Err(stop.of(number));
    }
    if !has_length(read, reply) {
        return Err(LineStop::Untaken(Reason::Length(number)));
    }
    if !has_place(read, reply) {
        return Err(LineStop::Untaken(Reason::Place(number)));
    }
    if !has_refusal(read, reply) || !may_be_replies(&alone, geometry) {
        return Err(LineStop::Untaken(Reason::Refusal(number)));
    }
    match add(alloc, question, read, reply) {
        Ok(()) => Ok(()),
        Err(stop) => Err(stop.of(number)),
    }
}

// One read more that is asked.
fn add(
    alloc: Global,
    question: &mut Question,
    read: &Read,
    reply: &AskedReply,
) -> Result<(), ReplyStop>
    ensures { (look : List Seen) → IsLook look question.old
        → AddsRead look (seen_of (read_action read.now) (answer_asked reply.now)) question.new result }
{
    match read {
        Read::Volume { start, len } => {
            let reply = volume_reply(alloc, reply)?;
            let read = PageRead {
                start: *start,
                len: *len,
                reply,
            };
            question.volume.push(read).map_err(AllocError::from)?;
        }
        Read::Blocks { first, count } => {
            let reply = block_reply(alloc, reply)?;
            let read = BlockRead {
                first: u64::from(*first),
                count: *count,
                reply,
            };
            question.blocks.push(read).map_err(AllocError::from)?;
        }
        Read::File { name, start, len } => {
            let read = file_read(alloc, *name, *start, *len, reply)?;
            question.files.push(read).map_err(AllocError::from)?;
        }
    }
    Ok(())
}

// One of a file, with its reply.
fn file_read(
    alloc: Global,
    name: Name,
    start: u32,
    len: u64,
    reply: &AskedReply,
) -> Result<FileRead, ReplyStop>
    ensures { FindsReply (λ r. of_file (asked_file_read r)) (seen_by (File name start len) (answer_asked reply.now)) result }
{
    let reply = file_reply(alloc, &name, reply)?;
    let pages = PageRead {
        start: u64::from(start),
        len,
        reply,
    };
    Ok(FileRead { name, pages })
}
