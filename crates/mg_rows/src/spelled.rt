// What a reader of rows answers.

/// What some bytes spell, if they spell something.
#[derive(Clone, Copy, PartialEq, Eq)]
pub enum Spelled<T> {
    /// No row: the bytes are all zeros.
    Free,
    /// This row.
    Row(T),
}
