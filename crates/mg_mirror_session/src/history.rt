// A law of runs over mirrors, one after another.
ghost use Rattle.mg_mirror_session.specs.History.{MirrorsFollow};

use mg_disk::Disk;
use mg_io::{Sink, Source};

/// A call over a mirror whose SIDE's disk is as earlier runs left it is a run as `mg_commands::runs_hold_what_was_answered` speaks of it, on
/// the mirror; and so a disk that was in use in it is left.
pub fn runs_over_mirrors_follow<D: Disk, E: Disk, S: Source, K: Sink>()
    ensures { MirrorsFollow D.Disk E.Disk S.Source K.Sink }
{}
