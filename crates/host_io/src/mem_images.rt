// Images in memory.
ghost use Rattle.std.specs.Prelude.{◌≡◌, Some, None};

use crate::failures::Failures;
use crate::{FetchFault, ImageCounts, Images, WriteFault};
use nvm_base::{Bytes, Words, raise};
use std::alloc::{AllocError, Global};
use std::collections::BTreeMap;

/// Keeps images in memory.
#[derive(Drop)]
pub struct MemImages {
    alloc: Global,
    images: BTreeMap<String, Bytes>,
    failures: Failures,
    counts: ImageCounts,
}

impl MemImages {
    ghost use Rattle.std.specs.Prelude.{◌≡◌, ◌≢◌, ℕ, List, Some, None, OnOk, OnErr};
    ghost use Rattle.std.specs.Option.{option_copied};
    ghost use Rattle.host_io.specs.Schedule.{schedule_of};
    ghost use Rattle.host_io.specs.MemImages.{held_in, calls_of, counts_of};

    /// Holds nothing. `fails` names the calls of `fetch` and `replace` that fail, from 1.
    pub fn new(alloc: Global, fails: Words) -> Self
        ensures held { (name : List ℕ) → held_in result name ≡ None }
        ensures calls { calls_of result ≡ schedule_of fails.items }
        ensures counts { counts_of result
            ≡ record { fetch_faults = 0; replace_faults = 0; fetches = 0; replaces = 0 } }
    {
        MemImages {
            alloc,
            images: BTreeMap::new(alloc),
            failures: Failures::new(fails),
            counts: ImageCounts {
                fetch_faults: 0,
                replace_faults: 0,
                fetches: 0,
                replaces: 0,
            },
        }
    }

    /// Holds the bytes under the name. No call of this fails by the list.
    pub fn put(&mut self, name: &str, bytes: &[u8]) -> Result<(), AllocError>
        ensures ok { OnOk result (held_in self.new name.now ≡ Some bytes.now) }
        ensures err { OnErr result ((other : List ℕ) → held_in self.new other ≡ held_in self.old other) }
        ensures others { (other : List ℕ) → other ≢ name.now → held_in self.new other ≡ held_in self.old other }
        ensures calls { calls_of self.new ≡ calls_of self.old }
        ensures counts { counts_of self.new ≡ counts_of self.old }
    {
        let mut held = Bytes::new(self.alloc);
        held.extend(bytes)?;
        let name = String::from_str(self.alloc, name)?;
        self.images.insert(name, held)?;
        Ok(())
    }

    pub fn get(&self, name: &str) -> Option<&[u8]>
        ensures { option_copied result ≡ held_in self.now name.now }
    {
        match self.images.get(name) {
            Some(bytes) => Some(bytes.as_slice()),
            None => None,
        }
    }
}

impl Images for MemImages {
    ghost use Rattle.std.specs.Prelude.{◌≡◌, ◌≢◌, ◌↔◌, Some, IfSome, IfErr, OnOk, IsTrue, ⊤};
    ghost use Rattle.host_io.specs.Images.{Fetches, KeepsHeld, CountsFetch, CountsReplace};
    ghost use Rattle.host_io.specs.MemImages.{held_in, calls_of, counts_of};
    ghost use Rattle.host_io.specs.Schedule.{fails_next, schedule_after};

    ghost held = { λ m. Some (held_in m) };

    ghost count = { counts_of };

    fn fetch(&mut self, name: &str, most: u64) -> Result<Bytes, FetchFault>
        ensures answer { Fetches (Some (held_in self.old)) name.now most result }
        ensures held { KeepsHeld (λ _. ⊤) (Some (held_in self.old)) (Some (held_in self.new)) }
        ensures counts { CountsFetch (result ≡ Err FetchFault.Failed) (counts_of self.old) (counts_of self.new) }
        ensures fails { (result ≡ Err FetchFault.Failed) ↔ IsTrue (fails_next (calls_of self.old)) }
        ensures calls { calls_of self.new ≡ schedule_after (calls_of self.old) }
    {
        raise(&mut self.counts.fetches);
        if self.failures.next() {
            raise(&mut self.counts.fetch_faults);
            return Err(FetchFault::Failed);
        }
        let Some(held) = self.images.get(name) else {
            return Err(FetchFault::Missing);
        };
        if held.len() > most {
            return Err(FetchFault::TooLong);
        }
        let mut bytes = Bytes::new(self.alloc);
        match bytes.extend(held.as_slice()) {
            Ok(()) => Ok(bytes),
            Err(_) => Err(FetchFault::Memory),
        }
    }

    fn replace(&mut self, name: &str, bytes: &[u8]) -> Result<(), WriteFault>
        ensures ok { OnOk result (IfSome (Some (held_in self.new)) (λ look. look name.now ≡ Some bytes.now)) }
        ensures memory { IfErr result
            (λ e. e ≡ WriteFault.Memory → KeepsHeld (λ _. ⊤) (Some (held_in self.old)) (Some (held_in self.new))) }
        ensures others { KeepsHeld (λ other. other ≢ name.now) (Some (held_in self.old)) (Some (held_in self.new)) }
        ensures counts { CountsReplace (result ≡ Err WriteFault.Failed) (counts_of self.old) (counts_of self.new) }
        ensures fails { (result ≡ Err WriteFault.Failed) ↔ IsTrue (fails_next (calls_of self.old)) }
        ensures calls { calls_of self.new ≡ schedule_after (calls_of self.old) }
    {
        raise(&mut self.counts.replaces);
        if self.failures.next() {
            raise(&mut self.counts.replace_faults);
            return Err(WriteFault::Failed);
        }
        match self.put(name, bytes) {
            Ok(()) => Ok(()),
            Err(_) => Err(WriteFault::Memory),
        }
    }

    fn counts(&self) -> ImageCounts {
        self.counts
    }
}
