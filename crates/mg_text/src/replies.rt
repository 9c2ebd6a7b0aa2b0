// From a reply to its line.
ghost use Rattle.mg_model.specs.State.{state_row};
ghost use Rattle.std.specs.Prelude.{◌≡◌, ◌+◌, ◌/◌, ◌%◌, ◌≤◌, ◌<◌, [], ◌∷◌, ◌++◌, drop, length, map};
ghost use Rattle.std.specs.Fmt.{decimal};
ghost use Rattle.arrayvec.specs.ArrayVec.{array_vec_len};
ghost use Rattle.mg_model.specs.declared.replies.Reply.TheVariants as reply;
ghost use Rattle.mg_model.specs.Print.{after_text, hex_digit, hex_digits, hex_text, reply_line, reply_text, spaced};
ghost use Rattle.mg_model.specs.Abbreviations.{refusal_text};
ghost use Rattle.mg_model.specs.FewSlots.{HasFewSlots};

use arrayvec::ArrayVec;
use mg_model::{After, Fault, Refusal, Reply, ThrState};

/// The two hexadecimal digits of each byte, one after the other.
static PAIRS: [u8; 512] = *b"\
    000102030405060708090a0b0c0d0e0f101112131415161718191a1b1c1d1e1f\
    202122232425262728292a2b2c2d2e2f303132333435363738393a3b3c3d3e3f\
    404142434445464748494a4b4c4d4e4f505152535455565758595a5b5c5d5e5f\
    606162636465666768696a6b6c6d6e6f707172737475767778797a7b7c7d7e7f\
    808182838485868788898a8b8c8d8e8f909192939495969798999a9b9c9d9e9f\
    a0a1a2a3a4a5a6a7a8a9aaabacadaeafb0b1b2b3b4b5b6b7b8b9babbbcbdbebf\
    c0c1c2c3c4c5c6c7c8c9cacbcccdcecfd0d1d2d3d4d5d6d7d8d9dadbdcdddedf\
    e0e1e2e3e4e5e6e7e8e9eaebecedeeeff0f1f2f3f4f5f6f7f8f9fafbfcfdfeff";

/// The line of a reply.
pub(crate) type Buffer = ArrayVec<u8, 256>;

/// Writes a reply as a line, with its newline, into an empty buffer. There are at most 8 slots, so every line fits: the
/// longest, that of 8 slots, has 157 bytes.
pub fn print_reply(answer: &Reply, out: &mut ArrayVec<u8, 256>)
    requires empty { out.old.items ≡ [] }
    requires slots { HasFewSlots answer.now }
    ensures { out.new.items ≡ reply_line answer.now }
{
    push_reply(answer, out);
    out.push(b'\n');
}

/// The line of a word that was read, with its newline: what `print_reply` writes of `Value`.
pub fn value_line(word: u64) -> [u8; 22]
    ensures { result ≡ reply_line (reply.Value word) }
{
    let mut line = *b"ok 0x................\n";
    line[5..21].copy_from_slice(&stored_digits(word));
    line
}

/// As [`hex_digits`]. It is not inlined, so that the digits are stored where they are copied from. A line of which all is inlined keeps each
/// of them in a register.
#[inline(never)]
fn stored_digits(word: u64) -> [u8; 16]
    ensures { result ≡ hex_digits 16 word }
{
    hex_digits(word)
}

/// Writes a reply without its newline.
fn push_reply(answer: &Reply, out: &mut Buffer)
    requires empty { out.old.items ≡ [] }
    requires slots { HasFewSlots answer.now }
    ensures text { out.new.items ≡ reply_text answer.now }
    ensures short { array_vec_len out.new < 256 }
{
    if let Reply::No(refusal) = answer {
        push_text(out, b"no ");
        push_text(out, refusal_word(*refusal));
        return;
    }
    push_text(out, b"ok");
    match answer {
        Reply::No(_) | Reply::Done => {}
        Reply::Value(w) => push_word(out, *w),
        Reply::Count(n) => push_number(out, *n),
        Reply::Made(base, password) => {
            push_word(out, *base);
            push_word(out, *password);
        }
        Reply::Opened(number, password) => {
            push_number(out, *number);
            push_word(out, *password);
        }
        Reply::About {
            base,
            pages,
            account,
            passwords,
            entries,
            ext,
        } => {
            push_word(out, *base);
            push_number(out, *pages);
            push_number(out, *account);
            push_number(out, *passwords);
            push_number(out, *entries);
            push_number(out, *ext);
        }
        Reply::Slots { count, bases } => {
            push_number(out, *count);
            push_words(out, &bases[..*count as usize]);
        }
        Reply::Turned(state) => push_after(out, *state),
        Reply::Ran(number, state) => {
            push_number(out, *number);
            push_after(out, *state);
        }
        Reply::Funds(a, b, c) | Reply::Collected(a, b, c) => {
            push_number(out, *a);
            push_number(out, *b);
            push_number(out, *c);
        }
    }
}

/// The word of a refusal, at most 10 bytes.
pub fn refusal_word(refusal: Refusal) -> &'static [u8]
    ensures text { result.now ≡ refusal_text refusal }
    ensures short { length result.now ≤ 10 }
{
    match refusal {
        Refusal::Syntax => b"Syntax",
        Refusal::NoThread => b"NoThread",
        Refusal::Align => b"Align",
        Refusal::Denied => b"Denied",
        Refusal::Size => b"Size",
        Refusal::Account => b"Account",
        Refusal::Debt => b"Debt",
        Refusal::Limit => b"Limit",
        Refusal::Full => b"Full",
        Refusal::NoPassword => b"NoPassword",
        Refusal::Range => b"Range",
        Refusal::SlotFull => b"SlotFull",
        Refusal::NoSlot => b"NoSlot",
        Refusal::NoEntry => b"NoEntry",
        Refusal::Depth => b"Depth",
        Refusal::NoFrame => b"NoFrame",
        Refusal::NotYours => b"NotYours",
        Refusal::NotReady => b"NotReady",
        Refusal::Idle => b"Idle",
        Refusal::Credit => b"Credit",
        Refusal::Calendar => b"Calendar",
        Refusal::Past => b"Past",
    }
}

/// The text of what a thread is after its turn.
fn after_words(left: After) -> &'static [u8]
    ensures text { result.now ≡ after_text left }
    ensures short { length result.now ≤ 14 }
{
    match left {
        After::Ready => state_words(ThrState::Ready),
        After::Stopped => state_words(ThrState::Stopped),
        After::Faulted(kind) => state_words(ThrState::Faulted(kind)),
        After::Ended => b"Ended",
    }
}

/// The text of a thread's state, at most 14 bytes.
pub fn state_words(state: ThrState) -> &'static [u8]
    ensures text { result.now ≡ (state_row state).1 }
    ensures short { length result.now ≤ 14 }
{
    match state {
        ThrState::Ready => b"Ready",
        ThrState::Stopped => b"Stopped",
        ThrState::Faulted(Fault::Align) => b"Faulted Align",
        ThrState::Faulted(Fault::Denied) => b"Faulted Denied",
        ThrState::Faulted(Fault::Opcode) => b"Faulted Opcode",
    }
}

/// Writes a text after what the buffer holds.
pub fn push_text(out: &mut ArrayVec<u8, 256>, text: &[u8])
    requires { array_vec_len out.old + length text.now ≤ 256 }
    ensures text { out.new.items ≡ out.old.items ++ text.now }
    ensures len { array_vec_len out.new ≡ array_vec_len out.old + length text.now }
{
    let _ = out.try_extend_from_slice(text);
}

fn push_after(out: &mut Buffer, left: After)
    requires { array_vec_len out.old ≤ 200 }
    ensures text { out.new.items ≡ out.old.items ++ spaced (after_text left ∷ []) }
    ensures short { array_vec_len out.new ≤ array_vec_len out.old + 15 }
{
    out.push(b' ');
    push_text(out, after_words(left));
}

/// Writes a space and a word in hexadecimal after what the buffer holds: `0x` and 16 digits.
pub fn push_word(out: &mut ArrayVec<u8, 256>, word: u64)
    requires { array_vec_len out.old ≤ 200 }
    ensures text { out.new.items ≡ out.old.items ++ spaced (hex_text word ∷ []) }
    ensures short { array_vec_len out.new ≤ array_vec_len out.old + 19 }
{
    push_text(out, b" 0x");
    push_text(out, &hex_digits(word));
}

/// The hexadecimal digits of a word.
fn hex_digits(word: u64) -> [u8; 16]
    ensures { result ≡ hex_digits 16 word }
{
    let mut digits = [b'0'; 16];
    let mut rest = word;
    for i in 0..8 {
        put_pair(rest % 256, &mut digits, 14 - 2 * i);
        rest /= 256;
    }
    digits
}

/// Writes the two digits of a byte at a place.
#[inline]
fn put_pair(byte: u64, digits: &mut [u8; 16], at: usize)
    requires byte { byte < 256 }
    requires room { at + 2 ≤ 16 }
    ensures size { length digits.new ≡ 16 }
    ensures pair { drop at digits.new ≡ hex_digit (byte / 16) ∷ hex_digit (byte % 16) ∷ drop (at + 2) digits.old }
{
    let from = byte as usize * 2;
    digits[at] = PAIRS[from];
    digits[at + 1] = PAIRS[from + 1];
}

fn push_words(out: &mut Buffer, ws: &[u64])
    requires at_most_8_words { length ws.now ≤ 8 }
    requires at_most_40_bytes { array_vec_len out.old ≤ 40 }
    ensures text { out.new.items ≡ out.old.items ++ spaced (map hex_text ws.now) }
    ensures short { array_vec_len out.new ≤ array_vec_len out.old + 152 }
{
    for w in ws {
        push_word(out, *w);
    }
}

/// Writes a space and a number in decimal after what the buffer holds.
pub fn push_number(out: &mut ArrayVec<u8, 256>, number: u64)
    requires { array_vec_len out.old ≤ 200 }
    ensures text { out.new.items ≡ out.old.items ++ spaced (decimal number ∷ []) }
    ensures short { array_vec_len out.new ≤ array_vec_len out.old + 21 }
{
    let mut digits = itoa::Buffer::new();
    out.push(b' ');
    push_text(out, digits.format(number).as_bytes());
}
