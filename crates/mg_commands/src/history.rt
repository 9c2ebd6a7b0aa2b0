// A law of runs one after another.
ghost use Rattle.mg_commands.specs.History.{RunsHold};

use mg_disk::Disk;
use mg_io::{Sink, Source};

/// Runs one after another on one disk, with kills and stops between and within them, whatever is pending: each finds, and a stop after
/// them leaves, the state after some first lines of each run, of each that ended at least those that it answered.
pub fn runs_hold_what_was_answered<D: Disk, S: Source, K: Sink>()
    ensures { RunsHold D.Disk S.Source K.Sink }
{}
