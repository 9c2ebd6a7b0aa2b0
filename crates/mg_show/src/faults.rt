// What fails outside while text is written.

/// Which of the two failed while the text of what a disk holds was written.
#[derive(Clone, Copy)]
pub(crate) enum ShowFault {
    /// A call of the disk.
    Disk,
    /// A write to the sink.
    Sink,
}
