// The command `dry`: a session on a fresh volume that is kept nowhere.
ghost use Rattle.mg_serve.specs.Sessions.{use_of};
ghost use Rattle.mg_commands.specs.Headline.{DryKeeps};

use crate::running::run;
use mg_disk::ScratchDisk;
use mg_io::{Sink, Source};
use mg_layout::{Geometry, format};
use mg_model::{Params, Steps};
use mg_serve::{BATCH_LIMIT, Status};
use std::alloc::Global;
use std::sync::ledger::Ledger;

/// Makes a fresh volume in memory, and runs the source's lines on it.
pub fn dry<S: Source, K: Sink, L: Ledger>(
    alloc: Global,
    params: &Params,
    source: &mut S,
    sink: &mut K,
    steps: &mut Steps<L>,
) -> Status
    ensures { DryKeeps params.now result (use_of S.Source source.old source.new) (use_of K.Sink sink.old sink.new) steps.old steps.new }
{
    let blocks = Geometry::of(params.frames()).total;
    let mut disk = match ScratchDisk::new(alloc, blocks) {
        Ok(disk) => disk,
        Err(_) => return Status::Memory,
    };
    match format(&mut disk, params) {
        Ok(()) => run(alloc, BATCH_LIMIT, &mut disk, source, sink, steps),
        Err(_) => unreachable!(),
    }
}
