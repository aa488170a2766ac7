// Where the file's bytes lie, and what happens to the lines there before a cut.
use super::Told;
use super::calls::file;
use file_pages::FilePages;
use line_device::Lines;
use nvm_base::LineNo;

// Whether the run of the file's second page has one of these numbers of pages.
pub(super) fn run_is(files: &FilePages, lens: [u64; 2]) -> Told {
    let inode = file(files);
    let len = files.journal().run(inode, 1).map_or(0, |run| run.len);
    Told::Is(u64::from(lens[0] == len || lens[1] == len))
}

// The line of a byte, if it has one.
fn line_of(files: &FilePages, offset: u64) -> Option<LineNo> {
    let inode = file(files);
    if 4096 * files.journal().pages(inode) <= offset {
        return None;
    }
    files.line_of(inode, offset)
}

// Media errors take the lines of these bytes.
pub(super) fn spoil<L: Lines>(files: &FilePages, dev: &mut L, offsets: &[u64]) {
    for &offset in offsets {
        if let Some(line) = line_of(files, offset) {
            if line.0 < dev.lines() {
                dev.poison(line);
            }
        }
    }
}

// The line of a byte is weak from now on.
pub(super) fn weaken<L: Lines>(files: &FilePages, dev: &mut L, offset: u64) -> bool {
    match line_of(files, offset) {
        Some(line) => line.0 < dev.lines() && !dev.is_bad(line) && dev.weaken(line).is_ok(),
        None => false,
    }
}
