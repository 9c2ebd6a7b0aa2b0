// What a program reads from a disk, a source or a sink after a command, to report it. None of this changes them.
use mg_file::{FileDisk, FileFault, Found, OneHolder, Watch};
use mg_io::{ReaderSource, WriterSink};
use std::io::{self, Read, Write};
use std::os::unix::fs::FileExt;
use std::rt::{Clock, Files};

/// A disk that may be in a file.
pub trait InFile {
    /// What the file was when it was opened. None if it was not opened, or if it is only read and is missing.
    fn found(&self) -> Option<Found>;

    /// Why a call failed, for the first call that did. None if none did.
    fn fault(&self) -> Option<&FileFault>;
}

impl<'a, R: Files + Clock, W: Watch> InFile for FileDisk<'a, R, W>
where
    R::File: FileExt + OneHolder,
{
    fn found(&self) -> Option<Found> {
        FileDisk::found(self)
    }

    fn fault(&self) -> Option<&FileFault> {
        FileDisk::fault(self)
    }
}

/// A source or a sink that may be a stream of the system.
pub trait Stream {
    /// The first error of the stream. None if there was none.
    fn error(&self) -> Option<&io::Error>;
}

impl<R: Read> Stream for ReaderSource<R> {
    fn error(&self) -> Option<&io::Error> {
        ReaderSource::error(self)
    }
}

impl<W: Write> Stream for WriterSink<W> {
    fn error(&self) -> Option<&io::Error> {
        WriterSink::error(self)
    }
}
