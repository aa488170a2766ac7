// An exact number of any size.
ghost use Rattle.std.specs.Prelude.{◌≡◌, ◌+◌, ◌^◌, ◌<◌, ◌++◌, IfOk, OnErr, OnOk, decimal, nat_le};
ghost use Rattle.outcome_walk.specs.Numbers.{numeral};

use crate::digits::{at_most, print_digits, sum_of};
use nvm_base::Bytes;
use std::alloc::{AllocError, Global};
use std::marker::Model;

/// A number, as decimal digits, the least first. Contracts see the number.
#[derive(Drop)]
pub struct Tally {
    digits: Vec<u8>,
}

impl Model for Tally {
    ghost use Rattle.std.specs.Prelude.{ℕ};
    ghost use Rattle.outcome_walk.specs.Numbers.{AreDigits, value_of};

    ghost Value = { ℕ };

    ghost view = { λ t. value_of t.digits.items };

    ghost invariant = { λ t. AreDigits t.digits.items };
}

impl Tally {
    pub fn none(alloc: Global) -> Self
        ensures { result ≡ 0 }
    {
        Tally {
            digits: Vec::new(alloc),
        }
    }

    pub fn one(alloc: Global) -> Result<Self, AllocError>
        ensures { IfOk result (λ number. number ≡ 1) }
    {
        let mut digits = Vec::new(alloc);
        digits.push(1)?;
        Ok(Tally { digits })
    }

    pub fn copy(&self, alloc: Global) -> Result<Self, AllocError>
        ensures { IfOk result (λ number. number ≡ self.now) }
    {
        Ok(Tally {
            digits: Vec::from_slice(alloc, &self.digits)?,
        })
    }

    pub fn add(&mut self, other: &Tally) -> Result<(), AllocError>
        ensures sum { OnOk result (self.new ≡ self.old + other.now) }
        ensures err { OnErr result (self.new ≡ self.old) }
    {
        let alloc = *self.digits.allocator();
        self.digits = sum_of(alloc, &self.digits, &other.digits)?;
        Ok(())
    }

    pub fn is_at_most(&self, most: u32) -> bool
        ensures { result ≡ nat_le self.now most }
    {
        at_most(&self.digits, u64::from(most))
    }

    /// Appends it in decimal digits.
    pub fn print(&self, out: &mut Bytes) -> Result<(), AllocError>
        ensures text { OnOk result (out.new.items ≡ out.old.items ++ numeral self.now) }
        ensures decimal { self.now < 10 ^ 64 → OnOk result (out.new.items ≡ out.old.items ++ decimal self.now) }
    {
        print_digits(&self.digits, out)
    }
}
