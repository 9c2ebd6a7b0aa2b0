// Why a session ended early.

use thiserror::Error;

/// Why a session ended before the end of its input.
#[derive(Clone, Copy, Debug, Drop, PartialEq, Eq, Error)]
pub enum Ended {
    /// A call of the disk failed.
    #[error("a call of the disk failed")]
    Disk,
    /// A take failed.
    #[error("a call of the source failed")]
    Source,
    /// A `put` failed.
    #[error("a call of the sink failed")]
    Sink,
    /// More bytes came than a session may take.
    #[error("more bytes came than a session may take")]
    TooLong,
}
