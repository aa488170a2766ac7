// What a cut may leave of a file's length.
use nvm_base::Name;

/// How many pages the file of that name has, as it is left, None where there is no such file.
#[derive(Drop)]
pub struct SizeKept {
    pub name: Name,
    pub pages: Option<u32>,
    /// Whether the cut could have left it otherwise.
    pub free: bool,
}
