// The replies that wait to be sent.
ghost use Rattle.std.specs.Prelude.{◌≡◌, ◌+◌, ◌<◌, ◌≤◌, ◌++◌, IfOk, length, vec_capacity, vec_len};
ghost use Rattle.mg_model.specs.Print.{reply_line};
ghost use Rattle.mg_serve.specs.Waiting.{no_replies};
ghost use Rattle.mg_model.specs.FewSlots.{HasFewSlots};

use arrayvec::ArrayVec;
use mg_model::Reply;
use mg_text::{print_reply, value_line};
use std::alloc::{AllocError, Global};
use std::marker::Model;

/// How many replies may wait.
pub const BATCH_LIMIT: u64 = 64;

/// Room for 64 lines of 256 bytes.
const ROOM: usize = 64 * 256;

/// Replies that were made and are not sent yet, at most [`BATCH_LIMIT`] of them, each as its line. All memory for them is
/// taken by [`Buffers::new`].
#[derive(Drop)]
pub struct Buffers {
    bytes: Vec<u8>,
    // A line that is made of parts, kept here so that no other is cleared for the next one.
    line: ArrayVec<u8, 256>,
    count: u64,
}

impl Model for Buffers {
    ghost use Rattle.std.specs.Prelude.{◌*◌, ◌≤◌, vec_capacity, vec_len};
    ghost use Rattle.mg_serve.specs.Waiting.{Waiting};

    ghost Value = { Waiting };

    ghost view = { λ b. record { text = b.bytes.items; count = b.count } };

    ghost invariant = { λ b. (b.count ≤ 64) × (vec_len b.bytes ≤ 256 * b.count) × (16384 ≤ vec_capacity b.bytes) };
}

impl Buffers {
    /// No replies, and the room for all that may wait.
    ///
    /// # Errors
    ///
    /// `AllocError` if the memory can't be had.
    pub fn new(alloc: Global) -> Result<Buffers, AllocError>
        ensures { IfOk result (λ buffers. buffers ≡ no_replies) }
    {
        Ok(Buffers {
            bytes: Vec::with_capacity(alloc, ROOM)?,
            line: ArrayVec::new(),
            count: 0,
        })
    }

    /// One reply more waits, after the others.
    pub fn add(&mut self, reply: &Reply)
        requires fewer_than_64_waiting { self.old.count < 64 }
        requires slots { HasFewSlots reply.now }
        ensures { self.new ≡ record {
          text = self.old.text ++ reply_line reply.now;
          count = self.old.count + 1;
        } }
    {
        match reply {
            Reply::Value(w) => put(&mut self.bytes, &value_line(*w)),
            Reply::Done => put(&mut self.bytes, b"ok\n"),
            _ => {
                self.line.clear();
                print_reply(reply, &mut self.line);
                put(&mut self.bytes, self.line.as_slice());
            }
        }
        self.count += 1;
    }

    /// The lines of the replies that wait, in the order in which they were added.
    pub fn text(&self) -> &[u8]
        ensures { result.now ≡ self.now.text }
    {
        self.bytes.as_slice()
    }

    /// How many replies wait.
    pub fn count(&self) -> u64
        ensures value { result ≡ self.now.count }
        ensures at_most_64 { result ≤ 64 }
    {
        self.count
    }

    /// No reply waits any more; the room stays.
    pub fn clear(&mut self)
        ensures { self.new ≡ no_replies }
    {
        self.bytes.clear();
        self.count = 0;
    }
}

/// Adds a text after those that wait; there is room for it.
#[inline(always)]
fn put(bytes: &mut Vec<u8>, text: &[u8])
    requires { vec_len bytes.old + length text.now ≤ vec_capacity bytes.old }
    ensures text { bytes.new.items ≡ bytes.old.items ++ text.now }
    ensures room { vec_capacity bytes.old ≤ vec_capacity bytes.new }
{
    match bytes.extend_from_slice(text) {
        Ok(()) => (),
        Err(_) => unreachable!(),
    }
}
