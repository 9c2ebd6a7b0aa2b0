// Lines of the text of a state, each printed into an empty buffer.
ghost use Rattle.std.specs.Prelude.{◌≡◌, ◌+◌, ◌*◌, ◌/◌, ◌%◌, ◌==◌, ◌≤◌, ◌<◌, [], ◌∷◌, ◌++◌, ℕ, codes, filter, length, map};
ghost use Rattle.std.specs.Fmt.{decimal};
ghost use Rattle.arrayvec.specs.ArrayVec.{array_vec_len};
ghost use Rattle.mg_model.specs.Print.{hex_digit, hex_digits, hex_text, spaced};
ghost use Rattle.mg_show.specs.StateText.{account_text, counters_text, line, made_text, object_line, password_text, rights_text, seed_text, step_text, thread_head, until_text};

use arrayvec::ArrayVec;
use mg_model::{AccRow, Globals, ObjRow, Params, Pw, Tariff, ThrRow};
use mg_text::{push_number, push_text, push_word, state_words};

/// A line as it is printed.
pub(crate) type Line = ArrayVec<u8, 256>;

/// The line of one number: its first word, of at most 16 bytes, and the number in decimal. There is room for it.
fn push_counted(out: &mut Line, head: &[u8], number: u64)
    requires short_head { length head.now ≤ 16 }
    requires has_room { array_vec_len out.old ≤ 184 }
    ensures text { out.new.items ≡ out.old.items ++ line head.now (decimal number ∷ []) }
    ensures short { array_vec_len out.new ≤ array_vec_len out.old + length head.now + 22 }
{
    push_text(out, head);
    push_number(out, number);
    push_text(out, b"\n");
}

/// The lines of the counters. They have at most 113 bytes.
pub(crate) fn print_counters(counters: &Globals) -> Line
    ensures { result.items ≡ counters_text counters.now }
{
    let mut out = Line::new();
    push_counted(&mut out, b"draws", counters.draws());
    push_counted(&mut out, b"period", counters.period());
    push_counted(&mut out, b"cursor", counters.cursor());
    push_counted(&mut out, b"births", counters.births());
    out
}

/// A line with words in hexadecimal: its first word, of at most 16 bytes, and at most eight others.
pub(crate) fn print_words(head: &[u8], words: &[u64]) -> Line
    requires short_head { length head.now ≤ 16 }
    requires few { length words.now ≤ 8 }
    ensures { result.items ≡ line head.now (map hex_text words.now) }
{
    let mut out = Line::new();
    push_text(&mut out, head);
    for word in words {
        push_word(&mut out, *word);
    }
    push_text(&mut out, b"\n");
    out
}

/// The line of an account, with the number of pages that it pays for.
pub(crate) fn print_account(number: u64, row: &AccRow, pages: u64) -> Line
    ensures { result.items ≡ account_text number row.now pages }
{
    let mut out = Line::new();
    push_text(&mut out, b"account");
    push_number(&mut out, number);
    push_word(&mut out, row.password);
    push_number(&mut out, row.balance);
    push_number(&mut out, row.owed);
    push_number(&mut out, pages);
    push_text(&mut out, b"\n");
    out
}

/// The line of an object.
pub(crate) fn print_object(row: &ObjRow) -> Line
    ensures { result.items ≡ object_line row.now }
{
    let mut out = Line::new();
    push_text(&mut out, b"object");
    push_word(&mut out, row.base());
    push_number(&mut out, row.pages());
    push_number(&mut out, row.account());
    push_text(&mut out, b"\n");
    out
}

/// The line of a password row.
pub(crate) fn print_password(pw: &Pw) -> Line
    ensures { result.items ≡ password_text pw.now }
{
    let mut out = Line::new();
    push_text(&mut out, b"password");
    push_word(&mut out, pw.password());
    push_text(&mut out, b" ");
    push_letters(&mut out, pw.rights().bits());
    push_until(&mut out, pw.until());
    push_text(&mut out, b"\n");
    out
}

/// The letters of the rights whose bits these are.
pub(crate) fn push_letters(out: &mut Line, bits: u8)
    requires { array_vec_len out.old ≤ 201 }
    ensures text { out.new.items ≡ out.old.items ++ rights_text bits }
    ensures short { array_vec_len out.new ≤ array_vec_len out.old + 6 }
{
    push_letter(out, bits, b'R', 1);
    push_letter(out, bits, b'W', 2);
    push_letter(out, bits, b'X', 4);
    push_letter(out, bits, b'D', 8);
    push_letter(out, bits, b'P', 16);
    push_letter(out, bits, b'O', 32);
}

/// The letter of a right, if the set has its bit.
fn push_letter(out: &mut Line, rights: u8, letter: u8, bit: u8)
    requires has_room { array_vec_len out.old ≤ 207 }
    requires bit { 1 ≤ bit }
    ensures text { out.new.items ≡ out.old.items ++ map (λ (l : ℕ × ℕ). l.0) (filter (λ (l : ℕ × ℕ). rights / l.1 % 2 == 1) ((letter, bit) ∷ [])) }
    ensures short { array_vec_len out.new ≤ array_vec_len out.old + 1 }
{
    if rights / bit % 2 == 1 {
        out.push(letter);
    }
}

/// A space and the first period at which a password is current no more.
fn push_until(out: &mut Line, until: u64)
    requires { array_vec_len out.old ≤ 200 }
    ensures text { out.new.items ≡ out.old.items ++ spaced (until_text until ∷ []) }
    ensures short { array_vec_len out.new ≤ array_vec_len out.old + 21 }
{
    if until == Pw::NEVER {
        push_text(out, b" never");
    } else {
        push_number(out, until);
    }
}

/// The lines of the settings before the tariff. They have at most 127 bytes.
pub(crate) fn print_settings(params: &Params) -> Line
    ensures { result.items ≡ made_text params.now }
{
    let mut out = Line::new();
    push_counted(&mut out, b"frames", params.frames());
    push_text(&mut out, b"seed ");
    push_seed(&mut out, &params.seed());
    push_text(&mut out, b"\n");
    push_counted(&mut out, b"credits", params.credits());
    out
}

/// The 64 hexadecimal digits of a seed.
fn push_seed(out: &mut Line, seed: &[u8; 32])
    requires { array_vec_len out.old ≤ 100 }
    ensures text { out.new.items ≡ out.old.items ++ seed_text seed.now }
    ensures short { array_vec_len out.new ≤ array_vec_len out.old + 64 }
{
    for byte in seed {
        push_byte(out, *byte);
    }
}

/// The two hexadecimal digits of a byte.
fn push_byte(out: &mut Line, byte: u8)
    requires { array_vec_len out.old ≤ 200 }
    ensures text { out.new.items ≡ out.old.items ++ hex_digits 2 byte }
    ensures short { array_vec_len out.new ≤ array_vec_len out.old + 2 }
{
    out.push(hex_glyph(byte / 16));
    out.push(hex_glyph(byte % 16));
}

fn hex_glyph(digit: u8) -> u8
    requires { digit < 16 }
    ensures { result ≡ hex_digit digit }
{
    if digit < 10 {
        b'0' + digit
    } else {
        b'a' + digit - 10
    }
}

/// The line of the tariff. It has at most 175 bytes.
pub(crate) fn print_tariff(tariff: Tariff) -> Line
    ensures { result.items ≡ line (codes "tariff") (map step_text tariff) }
{
    let mut out = Line::new();
    push_text(&mut out, b"tariff");
    push_steps(&mut out, &tariff.steps());
    push_text(&mut out, b"\n");
    out
}

/// The four steps of a tariff, each after a space.
fn push_steps(out: &mut Line, steps: &[(u64, u64); 4])
    requires { array_vec_len out.old ≤ 8 }
    ensures text { out.new.items ≡ out.old.items ++ spaced (map step_text steps.now) }
    ensures short { array_vec_len out.new ≤ array_vec_len out.old + 168 }
{
    for step in steps {
        push_step(out, *step);
    }
}

/// A space and a step of a tariff.
fn push_step(out: &mut Line, step: (u64, u64))
    requires { array_vec_len out.old ≤ 200 }
    ensures text { out.new.items ≡ out.old.items ++ spaced (step_text step ∷ []) }
    ensures short { array_vec_len out.new ≤ array_vec_len out.old + 42 }
{
    let (pages, rate) = step;
    push_number(out, pages);
    out.push(b':');
    push_decimal(out, rate);
}

/// A number in decimal.
pub(crate) fn push_decimal(out: &mut Line, number: u64)
    requires { array_vec_len out.old ≤ 230 }
    ensures text { out.new.items ≡ out.old.items ++ decimal number }
    ensures short { array_vec_len out.new ≤ array_vec_len out.old + 20 }
{
    let mut digits = itoa::Buffer::new();
    push_text(out, digits.format(number).as_bytes());
}

/// The line of a thread up to its registers. It has at most 103 bytes.
pub(crate) fn print_thread(number: u64, row: &ThrRow) -> Line
    ensures { result.items ≡ thread_head number row.now }
{
    let mut out = Line::new();
    push_text(&mut out, b"thread");
    push_number(&mut out, number);
    push_number(&mut out, row.birth());
    push_number(&mut out, row.creator());
    push_word(&mut out, row.pc());
    push_text(&mut out, b" ");
    push_text(&mut out, state_words(row.state()));
    out
}

/// The line of an object that a thread reaches, with the rights whose bits these are.
pub(crate) fn print_reach(thread: u64, base: u64, bits: u8) -> Line
    ensures { result.items ≡ line (codes "reach") (decimal thread ∷ hex_text base ∷ rights_text bits ∷ []) }
{
    let mut out = Line::new();
    push_text(&mut out, b"reach");
    push_number(&mut out, thread);
    push_word(&mut out, base);
    push_text(&mut out, b" ");
    push_letters(&mut out, bits);
    push_text(&mut out, b"\n");
    out
}

/// The line of an entry at which a thread may enter.
pub(crate) fn print_enter(thread: u64, address: u64) -> Line
    ensures { result.items ≡ line (codes "enter") (decimal thread ∷ hex_text address ∷ []) }
{
    let mut out = Line::new();
    push_text(&mut out, b"enter");
    push_number(&mut out, thread);
    push_word(&mut out, address);
    push_text(&mut out, b"\n");
    out
}
