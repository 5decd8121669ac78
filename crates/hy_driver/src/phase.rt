/// What the last call of a driver came to, by which its user knows what it may do next.
#[derive(Clone, Copy, Debug, PartialEq, Eq)]
pub enum Phase {
    /// It was made, was fed, gave a row or worked on something.
    Working,
    /// It asked for input.
    Hungry,
    /// It has given all its rows.
    Ended,
    GivenUp,
}
