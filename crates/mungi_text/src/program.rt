// The program, over any source and sinks.
ghost use Rattle.mg_console.specs.Programs.{EndsAs};
ghost use Rattle.mg_filter.specs.Statuses.{code_of};
ghost use Rattle.mungi_text.specs.Program.{Did};

use crate::NAME;
use crate::faulty::report_faulty;
use crate::usage::report_usage;
use mg_console::{Stream, report, report_filter_status};
use mg_document::BYTE_LIMIT;
use mg_document_session::{Command, Faulty, Status, TEXT_LIMIT, read_words, top};
use mg_io::{Sink, Source};
use mg_model::limits::{PAGE_SIZE, ROOT_BASE};
use std::alloc::Global;
use std::io::Eprint;

/// Carries out the command that the words spell, prints on standard error why it failed, and returns the exit status.
pub(crate) fn carry_out<R: AllocGlobal + Eprint, S: Source + Stream, O: Sink + Stream, E: Sink>(
    rt: &R,
    words: &[String],
    source: &mut S,
    out: &mut O,
    err: &mut E,
) -> u8
    ensures { EndsAs code_of (λ status. Did S.Source O.Sink E.Sink words.now status source.old source.new out.old out.new err.old err.new) result }
{
    let mut faulty = None;
    let status = carried_out(rt.alloc(), words, source, out, err, &mut faulty);
    let command = read_words(words);
    if status == Status::Usage {
        report_usage(rt, words);
    }
    if status == Status::Done {
        report_place(rt, command);
    }
    if let Some(faulty) = &faulty {
        report_faulty(rt, faulty);
    }
    let limit = limit_of(command);
    report_filter_status(rt, NAME, status, limit, source.error(), out.error());
    status.code()
}

/// The top call.
fn carried_out<S: Source, O: Sink, E: Sink>(
    alloc: Global,
    words: &[String],
    source: &mut S,
    out: &mut O,
    err: &mut E,
    faulty: &mut Option<Faulty>,
) -> Status
    ensures { Did S.Source O.Sink E.Sink words.now result source.old source.new out.old out.new err.old err.new }
{
    top(alloc, words, source, out, err, faulty)
}

/// The most bytes that a command reads.
fn limit_of(command: Option<Command>) -> u64 {
    match command {
        Some(Command::Put(_, _)) => BYTE_LIMIT,
        _ => TEXT_LIMIT as u64,
    }
}

/// Prints that a document's address is in thread 1's capability list, if it is.
fn report_place<R: Eprint>(rt: &R, command: Option<Command>) {
    match command {
        Some(Command::Put(_, address)) if address / PAGE_SIZE == ROOT_BASE / PAGE_SIZE => report(
            rt,
            NAME,
            "the first page of the root holds thread 1's capability list: what is stored there may change its rights",
        ),
        _ => {}
    }
}
