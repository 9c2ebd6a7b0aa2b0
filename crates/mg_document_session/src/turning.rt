// What a command makes of its input.
ghost use Rattle.std.specs.Prelude.{◌≡◌, ◌≢◌, ◌+◌, Err, IfErr, IfOk, Ok};
ghost use Rattle.mg_document.specs.declared.faults.ReplyFault.TheVariants as fault;
ghost use Rattle.mg_io.specs.Known.{TakesAtMost};
ghost use Rattle.mg_filter.specs.Whole.{TakesMore};
ghost use Rattle.mg_document_session.specs.Commands.{HasPlace};
ghost use Rattle.mg_document_session.specs.Headline.{IsCalls, LeavesSource, OfInput, became, limit_of};
ghost use Rattle.mg_faults.specs.Faults.{Rose};

use crate::laws::documents_come_back;
use crate::words::Command;
use mg_document::{BYTE_LIMIT, ReplyFault, get_lines, put_lines, read_document};
use mg_filter::{Unread, read_whole};
use mg_io::Source;
use std::alloc::Global;

/// The most bytes that the replies may have which `bytes` reads, with those that it ignores.
pub const TEXT_LIMIT: usize = 1 << 24;

/// The input of a command: all that the source has left, or nothing if the command takes no input. Memory comes only if an
/// allocation failed.
pub(crate) fn take_input<S: Source>(
    alloc: Global,
    command: Command,
    source: &mut S,
) -> Result<Vec<u8>, Unread>
    ensures whole { IfOk result (λ text. OfInput command (S.left source.old) (S.left source.new) (λ input. text.items ≡ input)) }
    ensures within { result ≢ Err Unread.TooLong → TakesAtMost (limit_of command) (S.left source.old) (S.left source.new) }
    ensures too_long { result ≡ Err Unread.TooLong → TakesMore (limit_of command) (S.left source.old) (S.left source.new) }
    ensures bounded { TakesAtMost (limit_of command + 4096) (S.left source.old) (S.left source.new) }
    ensures source { result ≡ Err Unread.Source → Rose (S.faults source.old) (S.faults source.new) (S.is_spent source.new) }
    ensures alone { LeavesSource command source.old source.new }
{
    match command {
        Command::Put(_, _) => read_whole(alloc, BYTE_LIMIT as usize, source),
        Command::Get(_, _, _) => Ok(Vec::new(alloc)),
        Command::Bytes => read_whole(alloc, TEXT_LIMIT, source),
    }
}

/// What an input becomes, or its first fault. Memory comes only if an allocation failed.
pub(crate) fn turn(alloc: Global, command: Command, input: &[u8]) -> Result<Vec<u8>, ReplyFault>
    requires { HasPlace command }
    ensures text { IfOk result (λ text. became command input.now ≡ Ok text.items) }
    ensures calls { IfOk result (λ text. IsCalls command input.now text.items) }
    ensures fault { IfErr result (λ fault. fault ≢ ReplyFault.Memory → became command input.now ≡ Err fault) }
{
    match command {
        Command::Put(thread, address) => {
            put_lines(alloc, thread, address, input).map_err(|_| ReplyFault::Memory)
        }
        Command::Get(thread, address, bytes) => {
            documents_come_back();
            get_lines(alloc, thread, address, bytes).map_err(|_| ReplyFault::Memory)
        }
        Command::Bytes => read_document(alloc, input),
    }
}
