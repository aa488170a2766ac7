use nvm_base::{Kind, Name, Span};

/// What a mapping is: a stretch of a file, shown or copied.
#[derive(Clone, Copy, Debug, PartialEq, Eq)]
pub struct MapInfo {
    pub name: Name,
    pub span: Span,
    pub kind: Kind,
}
