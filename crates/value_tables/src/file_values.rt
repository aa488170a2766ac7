// What may be found in place of a word of a file.
ghost use Rattle.std.specs.Prelude.{◌≡◌, ◌%◌, ◌<◌, ◌^◌, ◌++◌, [], false, codes, OnOk, Some, if◌then◌else◌};
ghost use Rattle.value_tables.specs.Rows.{words_text};
ghost use Rattle.value_tables.specs.Sides.{side_at, side_held};
ghost use Rattle.value_tables.specs.Adding.{Adds};

use crate::row::WORDS;
use crate::values::WordValues;
use cut_places::{FileSeen, FilesSeen};
use nvm_base::{Bytes, Name, PAGE, WORD};
use std::alloc::{AllocError, Global};

/// Words of a page.
const PAGE_WORDS: u64 = PAGE / WORD;

/// The values of the word, and whether there may be no such file, or one that ends before it.
#[derive(Drop)]
pub struct FileValues {
    pub is_missing: bool,
    pub is_past: bool,
    pub word: WordValues,
}

impl FileValues {
    pub fn none(alloc: Global) -> Self
        ensures there { result.is_missing ≡ false }
        ensures within { result.is_past ≡ false }
        ensures good { result.word.is_bad ≡ false }
        ensures none { result.word.values.items ≡ [] }
    {
        FileValues {
            is_missing: false,
            is_past: false,
            word: WordValues::none(alloc),
        }
    }

    /// Adds what word p of the file of that name may be.
    pub fn add(&mut self, files: &FilesSeen, name: &Name, p: u64) -> Result<(), AllocError>
        requires { p < 2 ^ 34 }
        ensures { OnOk result (Adds (p % 8) (side_at files.now name.now p) self.old self.new) }
    {
        match files.find(name) {
            None => {
                self.is_missing = true;
                Ok(())
            }
            Some(file) => self.add_of(file, p),
        }
    }

    fn add_of(&mut self, file: &FileSeen, p: u64) -> Result<(), AllocError>
        requires { p < 2 ^ 34 }
        ensures { OnOk result (Adds (p % 8) (side_held p (Some file.now)) self.old self.new) }
    {
        if p / PAGE_WORDS >= u64::from(file.pages()) {
            self.is_past = true;
            return Ok(());
        }
        match file.line((p / WORDS) as u32) {
            Some(line) => self.word.add(line, p % WORDS),
            None => Ok(()),
        }
    }

    /// Appends it as a row has it.
    pub fn print(&self, out: &mut Bytes) -> Result<(), AllocError>
        ensures { OnOk result (out.new.items ≡ out.old.items ++ ((if self.now.is_missing then codes " missing" else [])
            ++ ((if self.now.is_past then codes " range" else []) ++ ((if self.now.word.is_bad then codes " poison" else []) ++ words_text self.now.word.values.items)))) }
    {
        if self.is_missing {
            out.extend(b" missing")?;
        }
        if self.is_past {
            out.extend(b" range")?;
        }
        self.word.print(out)
    }
}
