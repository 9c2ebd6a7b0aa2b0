// Why replies give no document.
ghost use Rattle.std.specs.Prelude.{◌≡◌, ◌≤◌, length};
ghost use Rattle.mg_document.specs.FaultText.{kind_name};

use thiserror::Error;

/// What is wrong with a reply that a document needs.
#[derive(Clone, Copy, Debug, Drop, PartialEq, Eq, Error)]
pub enum ReplyKind {
    /// It is not `ok` and a word, as `no Denied`.
    #[error("NoWord")]
    NoWord,
    /// It is not there, or no newline ends it.
    #[error("Missing")]
    Missing,
}

impl ReplyKind {
    /// The word of a kind, as users see it, of at most 7 letters.
    pub fn name(self) -> &'static [u8]
        ensures text { result.now ≡ kind_name self }
        ensures short { length result.now ≤ 7 }
    {
        match self {
            ReplyKind::NoWord => b"NoWord",
            ReplyKind::Missing => b"Missing",
        }
    }
}

/// Why there are no bytes.
#[derive(Clone, Copy, Debug, Drop, PartialEq, Eq, Error)]
pub enum ReplyFault {
    /// There was not enough memory.
    #[error("there was not enough memory")]
    Memory,
    /// The first faulty reply, from 1, and its fault.
    #[error("reply {reply}: {kind}")]
    At { reply: u64, kind: ReplyKind },
}
