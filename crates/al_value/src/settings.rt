/// How a job is run: the number of partitions, the size of a frame in bytes, and the frames that
/// an operator may use.
#[derive(Clone, Copy, Debug, PartialEq, Eq)]
pub struct Settings {
    pub partitions: u32,
    pub frame_size: u32,
    pub memory: u32,
}

/// A column, from 0, by which rows are ordered.
#[derive(Clone, Copy, Debug, PartialEq, Eq)]
pub struct SortKey {
    pub column: u32,
    pub descending: bool,
}
