/// What a device was last ordered to do by itself, with its number.
#[derive(Clone, Copy, Debug, PartialEq, Eq)]
pub enum Order {
    Cut(u64),
    Fail(u64),
    Evict(u64),
}
