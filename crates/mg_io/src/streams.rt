// Sources and sinks over std's readers and writers.
ghost use Rattle.std.specs.Prelude.{◌≡◌, false};
ghost use Rattle.mg_faults.specs.Faults.{is_last};

use super::traits::{Sink, Source};
use mg_faults::{Failed, FaultCount};
use std::io::{self, ErrorKind, Read, Write};

/// A source over a reader. It tells what the reader tells: the bytes left of a reader in memory, nothing of a file or
/// a stream.
#[derive(Drop)]
pub struct ReaderSource<R> {
    reader: R,
    faults: FaultCount,
    error: Option<io::Error>,
}

impl<R: Read> ReaderSource<R> {
    /// A source that gives what the reader gives, with a count of faults of 0.
    pub fn new(reader: R) -> ReaderSource<R>
        ensures left { ⟦<ReaderSource<R> as Source>⟧.left result ≡ R.remaining reader }
        ensures count { ⟦<ReaderSource<R> as Source>⟧.faults result ≡ 0 }
        ensures fresh { ⟦<ReaderSource<R> as Source>⟧.is_spent result ≡ false }
    {
        ReaderSource {
            reader,
            faults: FaultCount::new(),
            error: None,
        }
    }

    /// The first error of the reader; None if there was none.
    pub fn error(&self) -> Option<&io::Error> {
        self.error.as_ref()
    }
}

impl<R: Read> Source for ReaderSource<R> {
    ghost left = { λ s. R.remaining s.reader };

    ghost faults = { λ s. s.faults };

    ghost is_spent = { λ s. is_last s.faults };

    /// One read. Each error of the reader is a fault, an interrupted read too.
    fn take(&mut self, into: &mut [u8]) -> Result<usize, Failed> {
        match self.reader.read(into) {
            Ok(count) => Ok(count),
            Err(error) => {
                keep_first(&mut self.error, error);
                self.faults.raise();
                Err(Failed)
            }
        }
    }
}

/// A sink over a writer. It tells what the writer tells: the bytes that a writer in memory holds, nothing of a file or
/// a stream.
///
/// It never flushes. So the bytes of a put have gone to the system only if the writer keeps nothing back, as std's `Stdout`,
/// which writes at once and whose `flush` does nothing.
#[derive(Drop)]
pub struct WriterSink<W> {
    writer: W,
    faults: FaultCount,
    error: Option<io::Error>,
}

impl<W: Write> WriterSink<W> {
    /// A sink that writes into the writer, after what that holds already, with a count of faults of 0.
    pub fn new(writer: W) -> WriterSink<W>
        ensures taken { ⟦<WriterSink<W> as Sink>⟧.taken result ≡ W.contents writer }
        ensures count { ⟦<WriterSink<W> as Sink>⟧.faults result ≡ 0 }
        ensures fresh { ⟦<WriterSink<W> as Sink>⟧.is_spent result ≡ false }
    {
        WriterSink {
            writer,
            faults: FaultCount::new(),
            error: None,
        }
    }

    /// The first error of the writer; None if there was none. For a write that took nothing it is `WriteZero`.
    pub fn error(&self) -> Option<&io::Error> {
        self.error.as_ref()
    }
}

impl<W: Write> Sink for WriterSink<W> {
    ghost taken = { λ s. W.contents s.writer };

    ghost faults = { λ s. s.faults };

    ghost is_spent = { λ s. is_last s.faults };

    /// One write. Each error of the writer is a fault, and so is a write that takes nothing of a piece that is not
    /// empty.
    fn put(&mut self, from: &[u8]) -> Result<usize, Failed> {
        match self.writer.write(from) {
            Ok(count) if count > 0 || from.is_empty() => Ok(count),
            Ok(_) => {
                keep_first(&mut self.error, ErrorKind::WriteZero.into());
                self.faults.raise();
                Err(Failed)
            }
            Err(error) => {
                keep_first(&mut self.error, error);
                self.faults.raise();
                Err(Failed)
            }
        }
    }
}

/// Keeps the first error.
fn keep_first(first: &mut Option<io::Error>, error: io::Error) {
    if first.is_none() {
        *first = Some(error);
    }
}
