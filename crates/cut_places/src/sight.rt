// What a question looks at.
ghost use Rattle.std.specs.Prelude.{◌≡◌, ◌&&◌, IfOk, OnOk, Some, None, map};
ghost use Rattle.std.specs.List.{list_all};
ghost use Rattle.script_text.specs.Action.{action_of};
ghost use Rattle.script_text.specs.Parsing.{InBounds};
ghost use Rattle.word_tables.specs.Bounds.{IsValid};
ghost use Rattle.cut_places.specs.Sights.{files_once_done, shows, shows_inside};
ghost use Rattle.sights.specs.Units.{block_once_done, line_once_done};

use crate::files::FilesSeen;
use script_text::Command;
use sights::reads_asked::Question;
use sights::{BlockSeen, LineSeen, Way, all_fit, change_all, fit_inside};
use std::alloc::AllocError;
use word_tables::Geometry;

/// The lines of the volume, the blocks, and the files that a question looks at.
#[derive(Drop)]
pub struct Sight {
    pub lines: Vec<LineSeen>,
    pub blocks: Vec<BlockSeen>,
    pub files: FilesSeen,
}

impl Sight {
    /// Whether a cut that falls now may leave what the question asks for.
    pub fn shows(&self, question: &Question) -> bool
        ensures { result ≡ shows question.now self.now }
    {
        all_fit(&self.lines, question)
            && all_fit(&self.blocks, question)
            && self.files.fits(&question.files)
    }

    /// Whether one that falls inside the command may.
    pub fn shows_inside(
        &self,
        question: &Question,
        geometry: Geometry,
        command: &Command,
    ) -> Result<bool, AllocError>
        requires valid { IsValid geometry }
        requires bounded { InBounds (action_of command.now) }
        ensures { IfOk result (λ may. may ≡ shows_inside geometry (action_of command.now) question.now self.now) }
    {
        let lines = Way::of_lines(command);
        let blocks = Way::of_blocks(command);
        Ok(
            fit_inside(&self.lines, question, geometry, command, lines)?
                && fit_inside(&self.blocks, question, geometry, command, blocks)?
                && self.files.fits_inside(&question.files, command)?,
        )
    }

    /// Sight once the command is done.
    pub fn change(&mut self, geometry: Geometry, command: &Command) -> Result<(), AllocError>
        requires valid { IsValid geometry }
        requires bounded { InBounds (action_of command.now) }
        ensures lines { OnOk result (self.new.lines.items ≡ map (line_once_done geometry (action_of command.now)) self.old.lines.items) }
        ensures blocks { OnOk result (self.new.blocks.items ≡ map (block_once_done geometry (action_of command.now)) self.old.blocks.items) }
        ensures files { OnOk result (self.new.files ≡ files_once_done (action_of command.now) self.old.files) }
    {
        change_all(&mut self.lines, geometry, command)?;
        change_all(&mut self.blocks, geometry, command)?;
        self.files.change(command)
    }
}
