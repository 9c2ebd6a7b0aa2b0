// The program, over any source and sinks.
ghost use Rattle.mg_console.specs.Programs.{EndsAs};
ghost use Rattle.mg_filter.specs.Statuses.{code_of};
ghost use Rattle.mungi_asm.specs.Program.{Did};

use crate::NAME;
use crate::faulty::report_faulty;
use crate::usage::report_usage;
use mg_asm_session::{Faulty, TEXT_LIMIT, top};
use mg_console::{Stream, report_filter_status};
use mg_filter::Status;
use mg_io::{Sink, Source};
use std::alloc::Global;
use std::io::Eprint;

/// Carries out the command that the words spell, prints on standard error why it failed, and returns the exit status.
pub(crate) fn carry_out<R: AllocGlobal + Eprint, S: Source + Stream, O: Sink + Stream, E: Sink>(
    rt: &R,
    words: &[String],
    source: &mut S,
    out: &mut O,
    err: &mut E,
) -> u8
    ensures { EndsAs code_of (λ status. Did S.Source O.Sink E.Sink words.now status source.old source.new out.old out.new err.old err.new) result }
{
    let mut faulty = None;
    let status = command(rt.alloc(), words, source, out, err, &mut faulty);
    if status == Status::Usage {
        report_usage(rt, words);
    }
    if let Some(faulty) = &faulty {
        report_faulty(rt, faulty);
    }
    let limit = TEXT_LIMIT as u64;
    report_filter_status(rt, NAME, status, limit, source.error(), out.error());
    status.code()
}

/// The top call.
fn command<S: Source, O: Sink, E: Sink>(
    alloc: Global,
    words: &[String],
    source: &mut S,
    out: &mut O,
    err: &mut E,
    faulty: &mut Option<Faulty>,
) -> Status
    ensures { Did S.Source O.Sink E.Sink words.now result source.old source.new out.old out.new err.old err.new }
{
    top(alloc, words, source, out, err, faulty)
}
