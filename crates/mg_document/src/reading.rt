// From replies to the bytes of a document.
ghost use Rattle.std.specs.Prelude.{◌≡◌, ◌≢◌, ◌≤◌, ◌^◌, [], IfErr, IfOk, Ok, Err};
ghost use Rattle.mg_document.specs.Replies.{bytes_behind, bytes_told, ended};

use crate::faults::{ReplyFault, ReplyKind};
use crate::packing::words_for;
use crate::replies::{next_reply, word_told};
use std::alloc::Global;

/// The bytes of the document that these replies give, or the first fault. The first reply gives the number of its bytes, and each
/// further one eight of them. Replies after those are ignored. Memory comes only if an allocation failed.
pub fn read_document(alloc: Global, replies: &[u8]) -> Result<Vec<u8>, ReplyFault>
    ensures bytes { IfOk result (λ bytes. bytes_told replies.now ≡ Ok bytes.items) }
    ensures fault { IfErr result (λ fault. fault ≢ ReplyFault.Memory → bytes_told replies.now ≡ Err fault) }
{
    let (reply, rest) = match next_reply(replies) {
        Some(next) => next,
        None => return Err(fault(1, ReplyKind::Missing)),
    };
    let length = match word_told(reply) {
        Some(length) => length,
        None => return Err(fault(1, ReplyKind::NoWord)),
    };
    let mut bytes = read_words(alloc, words_for(length), rest)?;
    bytes.truncate(length as usize);
    Ok(bytes)
}

/// The bytes of `count` words, eight each, which these replies give. The first of the replies is reply 2.
fn read_words(alloc: Global, count: u64, replies: &[u8]) -> Result<Vec<u8>, ReplyFault>
    requires { count ≤ 2 ^ 61 }
    ensures bytes { IfOk result (λ bytes. bytes_behind [] 2 count (ended replies.now) ≡ Ok bytes.items) }
    ensures fault { IfErr result (λ fault. fault ≢ ReplyFault.Memory → bytes_behind [] 2 count (ended replies.now) ≡ Err fault) }
{
    let mut bytes = Vec::new(alloc);
    let mut rest = replies;
    for k in 0..count {
        let (reply, more) = match next_reply(rest) {
            Some(next) => next,
            None => return Err(fault(k + 2, ReplyKind::Missing)),
        };
        let word = match word_told(reply) {
            Some(word) => word,
            None => return Err(fault(k + 2, ReplyKind::NoWord)),
        };
        if bytes.extend_from_slice(&word.to_le_bytes()).is_err() {
            return Err(ReplyFault::Memory);
        }
        rest = more;
    }
    Ok(bytes)
}

fn fault(reply: u64, kind: ReplyKind) -> ReplyFault
    ensures { result ≡ ReplyFault.At reply kind }
{
    ReplyFault::At { reply, kind }
}
