// The text of how long a file is kept.
ghost use Rattle.std.specs.Prelude.{◌≡◌, ◌++◌, OnOk};
ghost use Rattle.witnesses.specs.Texts.{pages_text, size_text};

use crate::asked::print_file_head;
use crate::size_kept::SizeKept;
use nvm_base::{Bytes, Name, print_number};
use std::alloc::AllocError;

/// Appends that the file is missing, or how many pages it has, where it could be otherwise.
pub fn print_size(kept: &SizeKept, out: &mut Bytes) -> Result<(), AllocError>
    ensures { OnOk result (out.new.items ≡ out.old.items ++ size_text kept.now) }
{
    if kept.free {
        print_pages(&kept.name, kept.pages, out)?;
    }
    Ok(())
}

fn print_pages(name: &Name, pages: Option<u32>, out: &mut Bytes) -> Result<(), AllocError>
    ensures { OnOk result (out.new.items ≡ out.old.items ++ pages_text name.now pages) }
{
    print_file_head(name, out)?;
    match pages {
        None => out.extend(b"missing"),
        Some(pages) => {
            out.extend(b"pages ")?;
            print_number(u64::from(pages), out)
        }
    }
}
