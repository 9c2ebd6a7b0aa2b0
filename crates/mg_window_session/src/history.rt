// A law of runs with devices, one after another.
ghost use Rattle.mg_window_session.specs.History.{DevicesFollow};

use mg_disk::Disk;
use mg_io::{Sink, Source};

/// A run with devices on a disk that earlier runs left is a run as `mg_commands::runs_hold_what_was_answered` speaks of it: so over kills
/// and stops each opening gives the state after some first lines of each run, of each that ended at least those that it answered.
pub fn runs_with_devices_follow<D: Disk, S: Source, K: Sink>()
    ensures { DevicesFollow D.Disk S.Source K.Sink }
{}
