/// Whether a flush looks at its lines once more.
#[derive(Clone, Copy, Debug, PartialEq, Eq)]
pub enum Look {
    Once,
    Again,
}
