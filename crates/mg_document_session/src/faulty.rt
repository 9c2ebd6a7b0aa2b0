// Replies that give no document.
use mg_document::ReplyKind;

/// Replies that give no document: their bytes, the first faulty reply, from 1, and what is wrong with it.
#[derive(Drop)]
pub struct Faulty {
    pub replies: Vec<u8>,
    pub reply: u64,
    pub kind: ReplyKind,
}
