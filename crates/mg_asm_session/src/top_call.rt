// All that the program does.
ghost use Rattle.std.specs.Prelude.{◌≡◌, ◌≢◌, ◌⊎◌, IfErr, IfOk, IfSome, None, Ok, Err, OnErr, OnOk};
ghost use Rattle.std.specs.Io.KnownBytes.{Appends};
ghost use Rattle.mg_asm.specs.declared.faults.AsmFault.TheVariants as fault;
ghost use Rattle.mg_asm_session.specs.Commands.{IsStored, command_of};
ghost use Rattle.mg_io.specs.Arguments.{arguments};
ghost use Rattle.mg_asm_session.specs.Headline.{IsFaulty, Keeps, became};
ghost use Rattle.mg_filter.specs.Usages.{UsageKeeps};
ghost use Rattle.mg_io.specs.Known.{AppendsPrefix};
ghost use Rattle.mg_asm.specs.FaultText.{fault_line};
ghost use Rattle.mg_faults.specs.Faults.{Rose};

use crate::faulty::Faulty;
use crate::words::{Command, read_words};
use mg_asm::{AsmFault, AsmKind, assemble, print, read_list, store_lines};
use mg_filter::{Status, Unread, put_numbered, read_whole};
use mg_io::{Failed, Sink, Source, put_all};
use std::alloc::Global;

/// The most bytes that a text may have.
pub const TEXT_LIMIT: usize = 1 << 24;

/// All that the program does. The words are those that follow its name.
///
/// - `THREAD ADDRESS` reads a script's text from the source. For each of its words, from ADDRESS on, it writes a line
///   `THREAD store ADDR WORD` into `out`.
/// - `print` reads words, a number a line, and writes their text into `out`.
///
/// Other words get the line `usage` in `err` and [`Status::Usage`]; source and `out` are then left alone.
///
/// A text is read whole, up to 2^24 bytes, before anything is written. After [`Status::Fault`] `err` took the line of its first
/// fault, `line N: KIND`, and nothing else was written; `faulty` has the text and the place of the fault. After
/// [`Status::Memory`], [`Status::Source`] and [`Status::TooLong`] nothing was written. [`Status::Sink`] comes if `out` or
/// `err` failed. That sink took a first part of its text.
pub fn top<S: Source, O: Sink, E: Sink>(
    alloc: Global,
    words: &[String],
    source: &mut S,
    out: &mut O,
    err: &mut E,
    faulty: &mut Option<Faulty>,
) -> Status
    ensures command { IfSome (command_of (arguments words.now)) (λ command. Keeps S.Source O.Sink E.Sink command result
        source.old source.new out.old out.new err.old err.new) }
    ensures faulty { result ≡ Status.Fault → IfSome (command_of (arguments words.now)) (λ command.
        IsFaulty command (S.left source.old) (S.left source.new) faulty.new) }
    ensures no_fault { result ≢ Status.Fault → faulty.new ≡ faulty.old }
    ensures usage { command_of (arguments words.now) ≡ None
        → UsageKeeps E.Sink result source.old source.new out.old out.new err.old err.new }
    ensures not_spelled { result ≡ Status.Usage → command_of (arguments words.now) ≡ None }
{
    match read_words(words) {
        Some(command) => carry_out(alloc, command, source, out, err, faulty),
        None => match put_all(err, b"usage\n") {
            Ok(()) => Status::Usage,
            Err(_) => Status::Sink,
        },
    }
}

/// Reads the text, and writes what it becomes, or its fault.
fn carry_out<S: Source, O: Sink, E: Sink>(
    alloc: Global,
    command: Command,
    source: &mut S,
    out: &mut O,
    err: &mut E,
    faulty: &mut Option<Faulty>,
) -> Status
    requires { IsStored command }
    ensures faulty { result ≡ Status.Fault → IsFaulty command (S.left source.old) (S.left source.new) faulty.new }
    ensures no_fault { result ≢ Status.Fault → faulty.new ≡ faulty.old }
    ensures keeps { Keeps S.Source O.Sink E.Sink command result source.old source.new out.old out.new err.old err.new }
{
    let text = match read_whole(alloc, TEXT_LIMIT, source) {
        Ok(text) => text,
        Err(Unread::Memory) => return Status::Memory,
        Err(Unread::Source) => return Status::Source,
        Err(Unread::TooLong) => return Status::TooLong,
    };
    match turn(alloc, command, &text) {
        Ok(lines) => match put_all(out, &lines) {
            Ok(()) => Status::Done,
            Err(_) => Status::Sink,
        },
        Err(AsmFault::Memory) => Status::Memory,
        Err(AsmFault::At { line, kind }) => match put_fault(line, kind, err) {
            Ok(()) => {
                *faulty = Some(Faulty { text, line, kind });
                Status::Fault
            }
            Err(_) => Status::Sink,
        },
    }
}

/// What a text becomes, or its first fault. Memory comes only if an allocation failed.
fn turn(alloc: Global, command: Command, text: &[u8]) -> Result<Vec<u8>, AsmFault>
    requires { IsStored command }
    ensures lines { IfOk result (λ lines. became command text.now ≡ Ok lines.items) }
    ensures fault { IfErr result (λ fault. fault ≢ AsmFault.Memory → became command text.now ≡ Err fault) }
{
    match command {
        Command::Store(thread, address) => {
            let words = assemble(alloc, text)?;
            store_lines(alloc, thread, address, &words).map_err(|_| AsmFault::Memory)
        }
        Command::Print => {
            let words = read_list(alloc, text)?;
            print(alloc, &words).map_err(|_| AsmFault::Memory)
        }
    }
}

/// Writes `line N: KIND`.
fn put_fault<E: Sink>(line: u64, kind: AsmKind, err: &mut E) -> Result<(), Failed>
    ensures ok { OnOk result (Appends (E.taken err.old) (E.taken err.new) (fault_line (fault.At line kind))) }
    ensures err { OnErr result (AppendsPrefix (E.taken err.old) (E.taken err.new) (fault_line (fault.At line kind))) }
    ensures rose { OnErr result (Rose (E.faults err.old) (E.faults err.new) (E.is_spent err.new)) }
{
    put_numbered(b"line ", line, kind.name(), err)
}
