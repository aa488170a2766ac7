// A line of storage as the model keeps it.
ghost use Rattle.std.specs.Prelude.{◌≡◌, ◌*◌, ◌<◌, ◌^◌, ◌∷◌, [], IfOk, OnOk, Some, length};
ghost use Rattle.line_device.specs.Word.{word_at};
ghost use Rattle.nvm_model.specs.Numbered.{list_from};
ghost use Rattle.nvm_model.specs.Cell.{Cell, zero_cell, put_cell, flush_cell, persist_cell, lose_cell, weaken_cell, clear_cell};
ghost use Rattle.nvm_model.specs.Cell.Cell.{Bad, Kept};
ghost use Rattle.nvm_model.specs.Page.{is_bad_cell};
ghost use Rattle.line_histories.specs.Log.{history_in};
ghost use Rattle.line_histories.specs.Held.{HasHistory};

use crate::log::{Stored, log_line, settle};
use crate::words::{covers_line, touches_line};
use line_device::word_in;
use std::alloc::{AllocError, Global};
use std::marker::Model;

/// A line with every value that each of its words had since it was last durable. Contracts see the model's cell.
#[derive(Drop)]
pub struct HeldLine {
    bad: bool,
    weak: bool,
    durable: [u64; 8],
    log: Vec<Stored>,
}

impl Model for HeldLine {
    ghost use Rattle.std.specs.Prelude.{◌≡◌, length};
    ghost use Rattle.nvm_model.specs.Cell.{Cell};
    ghost use Rattle.line_histories.specs.Held.{held};

    ghost Value = { Cell };

    ghost view = { λ h. held h.bad h.weak h.durable h.log.items };

    ghost invariant = { λ h. length h.durable ≡ 8 };
}

impl HeldLine {
    /// A line of zeros.
    pub fn zeros(alloc: Global) -> Self
        ensures { result ≡ zero_cell }
    {
        HeldLine {
            bad: false,
            weak: false,
            durable: [0; 8],
            log: Vec::new(alloc),
        }
    }

    /// A bad line.
    pub fn bad(alloc: Global) -> Self
        ensures { result ≡ Bad }
    {
        HeldLine {
            bad: true,
            weak: false,
            durable: [0; 8],
            log: Vec::new(alloc),
        }
    }

    /// A durable line of these bytes.
    pub fn of_bytes(alloc: Global, bytes: &[u8], weak: bool) -> Self
        requires { length bytes.now ≡ 64 }
        ensures { result ≡ Kept weak (list_from (λ w. word_at bytes.now w ∷ []) 0 8) }
    {
        HeldLine {
            bad: false,
            weak,
            durable: [
                word_in(bytes, 0),
                word_in(bytes, 1),
                word_in(bytes, 2),
                word_in(bytes, 3),
                word_in(bytes, 4),
                word_in(bytes, 5),
                word_in(bytes, 6),
                word_in(bytes, 7),
            ],
            log: Vec::new(alloc),
        }
    }

    /// Copy of the line.
    pub fn duplicate(&self) -> Result<Self, AllocError>
        ensures { IfOk result (λ line. line ≡ self.now) }
    {
        Ok(HeldLine {
            bad: self.bad,
            weak: self.weak,
            durable: self.durable,
            log: Vec::from_slice(*self.log.allocator(), &self.log)?,
        })
    }

    pub fn is_bad(&self) -> bool
        ensures { result ≡ is_bad_cell (Some self.now) }
    {
        self.bad
    }

    /// The durable value of word w, and the values that words got since, oldest first.
    pub fn values(&self, w: u64) -> (u64, &[Stored])
        requires { w < 8 }
        ensures { HasHistory self.now w (result.0 ∷ history_in result.1.now w) }
    {
        (self.durable[w as usize], &self.log)
    }

    /// Puts bytes at an offset of the storage, where this is line n.
    pub fn put(&mut self, n: u64, at: u64, bytes: &[u8]) -> Result<(), AllocError>
        requires { n < 2 ^ 57 }
        ensures { OnOk result (self.new ≡ put_cell at bytes.now n self.old) }
    {
        if self.bad && covers_line(at, bytes.len() as u64, n) {
            self.reset();
        }
        if !self.bad {
            log_line(&self.durable, &mut self.log, n, at, bytes)?;
        }
        Ok(())
    }

    /// Makes the line durable, which a weak one does not survive.
    pub fn flush(&mut self)
        ensures { self.new ≡ flush_cell self.old }
    {
        if self.weak {
            self.bad = true;
        } else {
            settle(&mut self.durable, &self.log);
            self.log.clear();
        }
    }

    /// Makes the line durable if the span touches it, where this is line n.
    pub fn persist(&mut self, n: u64, start: u64, len: u64)
        requires { n < 2 ^ 57 }
        ensures { self.new ≡ persist_cell start len n self.old }
    {
        if touches_line(start, len, n) {
            self.flush();
        }
    }

    /// A media error takes the line.
    pub fn lose(&mut self)
        ensures { self.new ≡ lose_cell self.old }
    {
        self.bad = true;
    }

    /// The next flush makes the line bad.
    pub fn weaken(&mut self)
        ensures { self.new ≡ weaken_cell self.old }
    {
        self.weak = true;
    }

    /// Makes a bad line zeros.
    pub fn clear(&mut self)
        ensures { self.new ≡ clear_cell self.old }
    {
        if self.bad {
            self.reset();
        }
    }

    /// Makes the line zeros, whatever it was.
    pub fn reset(&mut self)
        ensures { self.new ≡ zero_cell }
    {
        self.bad = false;
        self.weak = false;
        self.durable = [0; 8];
        self.log.clear();
    }
}
