// All that the program does.
ghost use Rattle.std.specs.Prelude.{◌≡◌, ◌≢◌, ◌⊎◌, IfSome, None, Ok, OnErr, OnOk, Some};
ghost use Rattle.std.specs.Io.KnownBytes.{Appends};
ghost use Rattle.mg_document.specs.FaultText.{fault_line};
ghost use Rattle.mg_document.specs.declared.faults.ReplyFault.TheVariants as fault;
ghost use Rattle.mg_io.specs.Known.{AppendsPrefix};
ghost use Rattle.mg_filter.specs.Usages.{UsageKeeps};
ghost use Rattle.mg_document_session.specs.Commands.{HasPlace, command_of};
ghost use Rattle.mg_io.specs.Arguments.{arguments};
ghost use Rattle.mg_document_session.specs.Headline.{BringsBack, IsFaulty, Keeps};
ghost use Rattle.mg_faults.specs.Faults.{Rose};

use crate::faulty::Faulty;
use crate::laws::documents_come_back;
use crate::turning::{take_input, turn};
use crate::words::{Command, read_words};
use mg_document::{ReplyFault, ReplyKind};
use mg_filter::{Status, Unread, put_numbered};
use mg_io::{Failed, Sink, Source, put_all};
use std::alloc::Global;

/// All that the program does. The words are those that follow its name. Each command writes into `out`.
///
/// - `put THREAD ADDRESS` reads bytes from the source, at most [`BYTE_LIMIT`](mg_document::BYTE_LIMIT). It writes the lines
///   `THREAD store ADDR WORD` that store them as a document, from ADDRESS on.
/// - `get THREAD ADDRESS BYTES` writes the lines `THREAD load ADDR` that load a document of BYTES bytes. The source is left alone.
/// - `bytes` reads replies, at most 2^24 bytes, and writes the bytes of the document that they give.
///
/// Other words get the line `usage` in `err` and [`Status::Usage`]; source and `out` are then left alone.
///
/// An input is read whole before anything is written. After [`Status::Fault`] `err` took the line of the first reply that the
/// document needs and that has no word, `reply N: KIND`, and nothing else was written; `faulty` has the replies and the
/// number of that one. After [`Status::Memory`], [`Status::Source`] and [`Status::TooLong`] nothing was written.
/// [`Status::Sink`] comes if `out` or `err` failed. That sink took a first part of its text.
pub fn top<S: Source, O: Sink, E: Sink>(
    alloc: Global,
    words: &[String],
    source: &mut S,
    out: &mut O,
    err: &mut E,
    faulty: &mut Option<Faulty>,
) -> Status
    ensures command { IfSome (command_of (arguments words.now)) (λ command. Keeps S.Source O.Sink E.Sink command result
        source.old source.new out.old out.new err.old err.new) }
    ensures back { command_of (arguments words.now) ≡ Some Command.Bytes
        → BringsBack result (S.left source.old) (O.taken out.old) (O.taken out.new) }
    ensures faulty { result ≡ Status.Fault → IfSome (command_of (arguments words.now)) (λ command.
        IsFaulty command (S.left source.old) (S.left source.new) faulty.new) }
    ensures no_fault { result ≢ Status.Fault → faulty.new ≡ faulty.old }
    ensures usage { command_of (arguments words.now) ≡ None
        → UsageKeeps E.Sink result source.old source.new out.old out.new err.old err.new }
    ensures not_spelled { result ≡ Status.Usage → command_of (arguments words.now) ≡ None }
{
    match read_words(words) {
        Some(command) => carry_out(alloc, command, source, out, err, faulty),
        None => match put_all(err, b"usage\n") {
            Ok(()) => Status::Usage,
            Err(_) => Status::Sink,
        },
    }
}

/// Takes the input, and writes what it becomes, or its fault.
fn carry_out<S: Source, O: Sink, E: Sink>(
    alloc: Global,
    command: Command,
    source: &mut S,
    out: &mut O,
    err: &mut E,
    faulty: &mut Option<Faulty>,
) -> Status
    requires { HasPlace command }
    ensures faulty { result ≡ Status.Fault → IsFaulty command (S.left source.old) (S.left source.new) faulty.new }
    ensures no_fault { result ≢ Status.Fault → faulty.new ≡ faulty.old }
    ensures keeps { Keeps S.Source O.Sink E.Sink command result source.old source.new out.old out.new err.old err.new }
{
    let input = match take_input(alloc, command, source) {
        Ok(input) => input,
        Err(Unread::Memory) => return Status::Memory,
        Err(Unread::Source) => return Status::Source,
        Err(Unread::TooLong) => return Status::TooLong,
    };
    match turn(alloc, command, &input) {
        Ok(text) => match put_all(out, &text) {
            Ok(()) => Status::Done,
            Err(_) => Status::Sink,
        },
        Err(ReplyFault::Memory) => Status::Memory,
        Err(ReplyFault::At { reply, kind }) => match put_fault(reply, kind, err) {
            Ok(()) => {
                *faulty = Some(Faulty {
                    replies: input,
                    reply,
                    kind,
                });
                Status::Fault
            }
            Err(_) => Status::Sink,
        },
    }
}

/// Writes `reply N: KIND`.
fn put_fault<E: Sink>(reply: u64, kind: ReplyKind, err: &mut E) -> Result<(), Failed>
    ensures ok { OnOk result (Appends (E.taken err.old) (E.taken err.new) (fault_line (fault.At reply kind))) }
    ensures err { OnErr result (AppendsPrefix (E.taken err.old) (E.taken err.new) (fault_line (fault.At reply kind))) }
    ensures rose { OnErr result (Rose (E.faults err.old) (E.faults err.new) (E.is_spent err.new)) }
{
    put_numbered(b"reply ", reply, kind.name(), err)
}
