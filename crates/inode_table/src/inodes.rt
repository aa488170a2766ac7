ghost use Rattle.std.specs.Prelude.{◌≡◌, ◌≤◌, ◌<◌, ◌↔◌, ℕ, IfErr, IfOk, IfSome, IsNone, None, OnOk, Some, length, slice_get, slice_set};
ghost use Rattle.inode_table.specs.Cause.{IsCause};
ghost use Rattle.inode_table.specs.Slots.{IsNamed, IsTable, MayTake, file_count, free_inode, inode_of, name_at, pages_at};
ghost use Rattle.inode_table.specs.Words.{slot_of, slots_of, words_of};
ghost use Rattle.inode_table.specs.Wrong.{first_wrong_word};

use crate::{TableFault, reading, slots, words};
use nvm_base::{FileEntry, Name};
use std::alloc::Global;
use std::marker::Model;

/// The inodes. Contracts see for each the file that it is, or None where it is free.
#[derive(Debug, Drop)]
pub struct Inodes {
    slots: Vec<Option<FileEntry>>,
}

impl Model for Inodes {
    ghost use Rattle.std.specs.Prelude.{List, Option};
    ghost use Rattle.nvm_base.specs.declared.files.FileEntry.{FileEntry};
    ghost use Rattle.inode_table.specs.Slots.{IsTable};

    ghost Value = { List (Option FileEntry) };

    ghost view = { λ t. t.slots.items };

    ghost invariant = { λ t. IsTable t.slots.items };
}

impl Inodes {
    /// The inodes that the words of their area stand for.
    pub fn read(alloc: Global, words: &[u64]) -> Result<Self, TableFault>
        requires { length words.now ≡ 512 }
        ensures ok { IfOk result (λ inodes. inodes ≡ slots_of words.now) }
        ensures right { OnOk result (first_wrong_word words.now ≡ None) }
        ensures table { IfOk result IsTable }
        ensures err { IfErr result (IsCause words.now) }
    {
        let slots = reading::read_slots(alloc, words)?;
        Ok(Inodes { slots })
    }

    /// The inode of that name.
    pub fn find(&self, name: &Name) -> Option<u64>
        ensures value { result ≡ inode_of name.now self.now }
        ensures named { IfSome result (λ inode. IsNamed self.now inode name.now) }
        ensures none { IsNone result ↔ ((inode : ℕ) → IsNamed self.now inode name.now → ⊥) }
        ensures table { IsTable self.now }
    {
        let inode = slots::find(self.slots.as_slice(), name)?;
        Some(inode as u64)
    }

    /// The name of an inode; None where it is free.
    pub fn name(&self, inode: u64) -> Option<Name>
        requires { inode < 64 }
        ensures name { result ≡ name_at self.now inode }
        ensures table { IsTable self.now }
    {
        match &self.slots[inode as usize] {
            Some(file) => Some(file.name),
            None => None,
        }
    }

    /// The pages of an inode; 0 where it is free.
    pub fn pages(&self, inode: u64) -> u64
        requires { inode < 64 }
        ensures pages { result ≡ pages_at self.now inode }
        ensures table { IsTable self.now }
    {
        match &self.slots[inode as usize] {
            Some(file) => file.pages,
            None => 0,
        }
    }

    /// How many files there are.
    pub fn count(&self) -> u64
        ensures files { result ≡ file_count self.now }
        ensures table { IsTable self.now }
    {
        slots::count(self.slots.as_slice()) as u64
    }

    /// The lowest free inode.
    pub fn free_slot(&self) -> Option<u64>
        ensures value { result ≡ free_inode self.now }
        ensures free { IfSome result (λ inode. slice_get self.now inode ≡ Some None) }
        ensures full { IsNone result ↔ (file_count self.now ≡ 64) }
        ensures table { IsTable self.now }
    {
        let inode = slots::free(self.slots.as_slice())?;
        Some(inode as u64)
    }

    /// Makes an inode that file.
    pub fn set(&mut self, inode: u64, name: &Name, pages: u64)
        requires inode { inode < 64 }
        requires name { MayTake self.old inode name.now }
        requires pages { pages ≤ 256 }
        ensures slots { self.new ≡ slice_set self.old inode (Some (record { name = name.now; pages = pages })) }
        ensures table { IsTable self.new }
    {
        let _is_name = name.bytes();
        self.slots[inode as usize] = Some(FileEntry { name: *name, pages });
    }

    /// Makes an inode free.
    pub fn remove(&mut self, inode: u64)
        requires { inode < 64 }
        ensures slots { self.new ≡ slice_set self.old inode None }
        ensures table { IsTable self.new }
    {
        self.slots[inode as usize] = None;
    }

    /// The words of a file's inode, but for the three at its end, which are 0.
    pub fn words(name: &Name, pages: u64) -> [u64; 5]
        requires { pages ≤ 256 }
        ensures words { result ≡ words_of (record { name = name.now; pages = pages }) }
        ensures inverse { slot_of result ≡ Some (record { name = name.now; pages = pages }) }
    {
        let [first, second, third, fourth] = words::words_of(name);
        [pages + 1, first, second, third, fourth]
    }
}
