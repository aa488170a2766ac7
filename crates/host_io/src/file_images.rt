// Images in files. What a file holds is the system's, so nothing is told of it.
ghost use Rattle.std.specs.Prelude.{◌≡◌, ◌≢◌, ◌≤◌, length, None, IfOk};
ghost use Rattle.host_io.specs.Images.{Fetches};

use crate::{FetchFault, ImageCounts, Images, WriteFault};
use nvm_base::{Bytes, raise};
use std::alloc::Global;
use std::fs::OpenFile;
use std::io::{Read, Write};
use std::rt::Files;
use std::{fs, io};

/// Keeps each image in the file of its name.
#[derive(Drop)]
pub struct FileImages<'a, R> {
    rt: &'a R,
    counts: ImageCounts,
}

impl<'a, R: Files + AllocGlobal> FileImages<'a, R> {
    pub fn new(rt: &'a R) -> Self
        ensures { result.counts ≡ record { fetch_faults = 0; replace_faults = 0; fetches = 0; replaces = 0 } }
    {
        FileImages {
            rt,
            counts: ImageCounts {
                fetch_faults: 0,
                replace_faults: 0,
                fetches: 0,
                replaces: 0,
            },
        }
    }
}

impl<R: Files + AllocGlobal> Images for FileImages<'_, R> {
    ghost use Rattle.std.specs.Prelude.{None};

    ghost held = { λ _. None };

    ghost count = { λ s. s.counts };

    /// A file that can't be opened or read is a failure, whether it exists or not.
    fn fetch(&mut self, name: &str, most: u64) -> Result<Bytes, FetchFault> {
        raise(&mut self.counts.fetches);
        match read_file(self.rt, name, most) {
            Err(FetchFault::Failed) => {
                raise(&mut self.counts.fetch_faults);
                Err(FetchFault::Failed)
            }
            fetched => fetched,
        }
    }

    /// The file of the name is the old one or the new one, whole, wherever this stops.
    fn replace(&mut self, name: &str, bytes: &[u8]) -> Result<(), WriteFault> {
        raise(&mut self.counts.replaces);
        let Ok(fresh) = format!(in self.rt.alloc(); "{name}.new") else {
            return Err(WriteFault::Memory);
        };
        match write_file(self.rt, name, fresh.as_str(), bytes) {
            Ok(()) => Ok(()),
            Err(_) => {
                raise(&mut self.counts.replace_faults);
                Err(WriteFault::Failed)
            }
        }
    }

    fn counts(&self) -> ImageCounts {
        self.counts
    }
}

fn read_file<R: Files + AllocGlobal>(rt: &R, name: &str, most: u64) -> Result<Bytes, FetchFault>
    ensures { Fetches None name.now most result }
{
    match fs::open(rt, name) {
        Ok(mut file) => read_bytes(rt.alloc(), &mut file, most),
        Err(_) => Err(FetchFault::Failed),
    }
}

// Takes one byte more than `most` at the most.
fn read_bytes<T: Read>(alloc: Global, file: &mut T, most: u64) -> Result<Bytes, FetchFault>
    ensures bound { IfOk result (λ bytes. length bytes.items ≤ most) }
    ensures cause { result ≢ Err FetchFault.Missing }
{
    let mut bytes = Bytes::new(alloc);
    let mut piece = [0; 4096];
    for _ in 0..u64::MAX {
        let room = (most - bytes.len()).saturating_add(1).min(4096);
        let Ok(n) = file.read(&mut piece[..room as usize]) else {
            return Err(FetchFault::Failed);
        };
        if n == 0 {
            return Ok(bytes);
        }
        if bytes.extend(&piece[..n]).is_err() {
            return Err(FetchFault::Memory);
        }
        if bytes.len() > most {
            return Err(FetchFault::TooLong);
        }
    }
    Err(FetchFault::Failed)
}

// Writes a new file whole, and then gives it the name. A new file that gets no name is removed.
fn write_file<R: Files>(rt: &R, name: &str, fresh: &str, bytes: &[u8]) -> io::Result<()> {
    let mut file = fs::create(rt, fresh)?;
    let written = match fill(&mut file, bytes) {
        Ok(()) => fs::rename(rt, fresh, name),
        Err(error) => Err(error),
    };
    if written.is_err() {
        // Where it can't be removed either, it stays beside the old file.
        let _ = fs::remove_file(rt, fresh);
    }
    written
}

fn fill<F: Write + OpenFile>(file: &mut F, bytes: &[u8]) -> io::Result<()> {
    file.write_all(bytes)?;
    file.sync_all()
}
