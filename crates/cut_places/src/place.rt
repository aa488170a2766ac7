/// Where in a program a cut falls.
#[derive(Clone, Copy, Debug, PartialEq, Eq)]
pub enum CutPlace {
    /// Before the line of this number, once all lines before it are done. The end is before the line after the last.
    Before(u64),
    /// Inside that line's command.
    Inside(u64),
}
