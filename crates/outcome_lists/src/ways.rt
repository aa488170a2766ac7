// How the parts of a look go together where a cut falls inside a command.
ghost use Rattle.std.specs.Prelude.{◌≡◌, option_map};
ghost use Rattle.script_text.specs.Action.{action_of};
ghost use Rattle.explorer.specs.MachineModel.Machine.{Machine};
ghost use Rattle.explorer.specs.CutPlaces.SeesFiles.{SeesFiles};
ghost use Rattle.outcome_lists.specs.Mixing.{go_together, link, link_to, still, ways_inside};

use crate::storage::{page_of, same_kind, same_storage, unit_of};
use explorer::places::FilesSeen;
use explorer::reads_asked::Read;
use explorer::sights_seen::Way;
use outcome_walk::Link;
use script_text::Command;

/// How old and new are mixed, by the kind of storage; None where all of it is as it was.
#[derive(Clone, Copy, Debug, PartialEq, Eq)]
pub struct Ways {
    pub lines: Option<Way>,
    pub blocks: Option<Way>,
    pub files: Option<Way>,
}

impl Ways {
    /// Before a command nothing is mixed.
    pub fn still() -> Self
        ensures { result ≡ still }
    {
        Ways {
            lines: None,
            blocks: None,
            files: None,
        }
    }

    /// Inside the command, where files are so before it.
    pub fn inside(files: &FilesSeen, command: &Command) -> Self
        ensures { (h : Machine) → SeesFiles files.now h → result ≡ ways_inside h.mappings (action_of command.now) }
    {
        Ways {
            lines: Way::of_lines(command),
            blocks: Way::of_blocks(command),
            files: files.way_inside(command),
        }
    }

    /// How a part stands to the one before it.
    pub fn link(self, before: Option<&Read>, part: &Read) -> Link
        ensures { result ≡ link self (option_map (λ part. part.now) before.entry) part.now }
    {
        let way = match part {
            Read::Volume { .. } => self.lines,
            Read::Blocks { .. } => self.blocks,
            Read::File { .. } => self.files,
        };
        match way {
            None => Link::Alone,
            Some(way) => link_to(way, before, part),
        }
    }
}

fn link_to(way: Way, before: Option<&Read>, part: &Read) -> Link
    ensures { result ≡ link_to way (option_map (λ part. part.now) before.entry) part.now }
{
    match before {
        Some(before) if go_together(way, before, part) => Link::Joins,
        _ => Link::Opens,
    }
}

fn go_together(way: Way, part: &Read, other: &Read) -> bool
    ensures { result ≡ go_together way part.now other.now }
{
    match way {
        Way::Each => same_storage(part, other) && unit_of(part) == unit_of(other),
        Way::ByPage => same_storage(part, other) && page_of(part) == page_of(other),
        Way::Together => same_kind(part, other),
    }
}
