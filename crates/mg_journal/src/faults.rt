// Why the contents of a disk could not be read.

use thiserror::Error;

/// Why the contents of a disk could not be read: its journal, or rows that are read through it.
#[derive(Debug, Drop, Error)]
pub enum ViewFault {
    /// They are not spelled as they should be. Of a journal: an open segment has more than 160 bodies, or one that belongs to no
    /// block after the journal.
    #[error("damaged contents")]
    Damaged,
    /// A call of the disk failed.
    #[error("a call of the disk failed")]
    Disk,
    /// There was not enough memory.
    #[error("there was not enough memory")]
    Memory,
}
