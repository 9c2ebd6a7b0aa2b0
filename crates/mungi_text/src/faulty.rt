// Which reply gives no part of a document.
use crate::NAME;
use mg_console::{line_of, quoted, report};
use mg_document::{ReplyKind, next_reply, word_told};
use mg_document_session::Faulty;
use std::io::Eprint;

/// Prints the first faulty reply, or what is missing.
pub(crate) fn report_faulty<R: Eprint>(rt: &R, faulty: &Faulty) {
    let reply = faulty.reply;
    let text = line_of(&faulty.replies, reply);
    let shown = quoted(text);
    if faulty.kind == ReplyKind::NoWord {
        let _ = eprintln!(rt; "{NAME}: reply {reply} is no word: {shown}");
    } else if !text.is_empty() {
        let _ = eprintln!(rt; "{NAME}: reply {reply} has no newline at its end: {shown}");
    } else if reply < 2 {
        report(rt, NAME, "there is no reply");
    } else {
        report_missing(rt, &faulty.replies, (reply - 2).saturating_mul(8));
    }
}

/// Prints how many bytes the document has, and how many of these the replies hold.
fn report_missing<R: Eprint>(rt: &R, replies: &[u8], held: u64) {
    if let Some((first, _)) = next_reply(replies) {
        if let Some(length) = word_told(first) {
            let _ = eprintln!(rt;
                "{NAME}: the document has {length} bytes, and the replies hold {held}; get needs BYTES of at least {length}"
            );
        }
    }
}
