use nvm_base::Name;
use reply_text::Why;

/// What a row shows of a read.
#[derive(Clone, Copy, Debug, PartialEq, Eq)]
pub enum Shown {
    /// The word of the volume of that number.
    Word(u64),
    /// The block of that number.
    Block(u64),
    /// The word of the file of that name, and its number.
    FileWord(Name, u64),
    /// Why it is refused, whatever is stored.
    Refuses(Why),
}
