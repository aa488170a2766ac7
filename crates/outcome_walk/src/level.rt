// The parts of a look.
use nvm_base::Bytes;

/// The numbers of the states of a place: before a command both are the same, inside it the one before and the one after.
#[derive(Clone, Copy, PartialEq, Eq, Debug)]
pub struct Rows {
    pub old: usize,
    pub new: usize,
}

/// How a part stands at a place to the part before it.
#[derive(Clone, Copy, PartialEq, Eq, Debug)]
pub enum Link {
    /// Part of a kind of storage that no interrupted command changes.
    Alone,
    /// First part of a group, which is wholly old or wholly new.
    Opens,
    /// Part of the group of the part before it.
    Joins,
}

/// One way that a part may be found: its text, and for each state whether it alone is shown there at rest.
#[derive(Drop)]
pub struct Choice {
    pub text: Bytes,
    pub fits: Vec<bool>,
}

/// A part: its link at each place, and the ways that it may be found.
#[derive(Drop)]
pub struct Level {
    pub links: Vec<Link>,
    pub choices: Vec<Choice>,
}
