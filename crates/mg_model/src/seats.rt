// A seat of the validation cache.
use crate::rights::Right;

/// A right that was found once: this thread reaches the object with this base with this right, by a capability list of its
/// present frame. A seat is true of a state if `IsBacked` of `specs/Backed.antt` holds.
#[derive(Clone, Copy, PartialEq, Eq)]
pub struct Seat {
    /// The number of the thread.
    pub thread: u64,
    /// The base address of the object that may be accessed.
    pub base: u64,
    /// The right with which it may be accessed.
    pub right: Right,
    /// The base address of the object whose page 0 is the capability list that gives the right.
    pub via: u64,
}
