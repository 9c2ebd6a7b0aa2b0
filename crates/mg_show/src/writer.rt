// Text that waits to be written, and the first fault.
ghost use Rattle.std.specs.Prelude.{◌≡◌, ◌+◌, ◌≤◌, ◌++◌, [], None, Some, IfOk, is_some, length};
ghost use Rattle.mg_show.specs.Putting.{status_of};
ghost use Rattle.mg_show.specs.Writing.{Puts};
ghost use Rattle.mg_show.specs.declared.faults.ShowFault.TheVariants as faults;

use crate::faults::ShowFault;
use crate::lines::Line;
use mg_io::{Failed, Sink, put_all};
use mg_serve::Status;
use std::alloc::{AllocError, Global};
use std::marker::Model;

/// How many bytes wait at most.
const ROOM: usize = 65_536;

/// Bytes that wait to be written together, up to 65,536, and the first fault. After a fault nothing is written.
#[derive(Drop)]
pub(crate) struct Writer {
    bytes: Vec<u8>,
    fault: Option<ShowFault>,
}

impl Model for Writer {
    ghost use Rattle.std.specs.Prelude.{◌≤◌, vec_len, vec_capacity};
    ghost use Rattle.mg_show.specs.Writing.{Held};

    ghost Value = { Held };

    ghost view = { λ writer. record { waiting = writer.bytes.items; fault = writer.fault } };

    ghost invariant = { λ writer. (vec_len writer.bytes ≤ 65536) × (65536 ≤ vec_capacity writer.bytes) };
}

impl Writer {
    /// Nothing waits. All memory that it will need is taken here.
    pub(crate) fn new(alloc: Global) -> Result<Writer, AllocError>
        ensures { IfOk result (λ writer. writer ≡ record { waiting = []; fault = None }) }
    {
        Ok(Writer {
            bytes: Vec::with_capacity(alloc, ROOM)?,
            fault: None,
        })
    }

    /// Writes this text, of at most 256 bytes: it waits after the rest. If it has no room, the rest is written first.
    pub(crate) fn add<K: Sink>(&mut self, text: &[u8], sink: &mut K)
        requires { length text.now ≤ 256 }
        ensures { Puts K.Sink text.now sink.old sink.new self.old self.new }
    {
        if self.fault.is_some() {
            return;
        }
        self.make_room(text.len(), sink);
        self.append(text);
    }

    /// Writes a line.
    pub(crate) fn line<K: Sink>(&mut self, line: Line, sink: &mut K)
        ensures { Puts K.Sink line.items sink.old sink.new self.old self.new }
    {
        self.add(line.as_slice(), sink);
    }

    /// Whether something failed.
    pub(crate) fn has_failed(&self) -> bool
        ensures { result ≡ is_some self.now.fault }
    {
        self.fault.is_some()
    }

    /// Remembers that the disk failed. Nothing had failed before.
    pub(crate) fn fail_reading(&mut self)
        ensures { self.new ≡ record self.old { fault = Some faults.Disk } }
    {
        self.fault = Some(ShowFault::Disk);
    }

    /// Writes what waits, and returns how all of it ended.
    pub(crate) fn finish<K: Sink>(&mut self, sink: &mut K) -> Status
        ensures puts { Puts K.Sink [] sink.old sink.new self.old self.new }
        ensures empty { self.new.fault ≡ None → self.new.waiting ≡ [] }
        ensures status { result ≡ status_of self.new.fault }
    {
        self.flush(sink);
        match self.fault {
            None => Status::Done,
            Some(ShowFault::Disk) => Status::Disk,
            Some(ShowFault::Sink) => Status::Sink,
        }
    }

    // Makes room for `count` bytes.
    fn make_room<K: Sink>(&mut self, count: usize, sink: &mut K)
        requires no_fault { self.old.fault ≡ None }
        requires few { count ≤ 256 }
        ensures puts { Puts K.Sink [] sink.old sink.new self.old self.new }
        ensures has_room { length self.new.waiting + count ≤ 65536 }
    {
        if count > ROOM - self.bytes.len() {
            self.flush(sink);
        }
    }

    // Keeps bytes that have room.
    fn append(&mut self, text: &[u8])
        requires { length self.old.waiting + length text.now ≤ 65536 }
        ensures { self.new ≡ record self.old { waiting = self.old.waiting ++ text.now } }
    {
        match self.bytes.extend_from_slice(text) {
            Ok(()) => (),
            Err(_) => unreachable!(),
        }
    }

    // Writes what waits.
    fn flush<K: Sink>(&mut self, sink: &mut K)
        ensures puts { Puts K.Sink [] sink.old sink.new self.old self.new }
        ensures empty { self.old.fault ≡ None → self.new.waiting ≡ [] }
        ensures stays { self.new.fault ≡ None → self.old.fault ≡ None }
    {
        if self.fault.is_some() {
            return;
        }
        match put_all(sink, &self.bytes) {
            Ok(()) => {}
            Err(Failed) => self.fault = Some(ShowFault::Sink),
        }
        self.bytes.clear();
    }
}
