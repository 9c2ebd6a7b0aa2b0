// All that a migration does.
ghost use Rattle.std.specs.Prelude.{◌≡◌, false, true};
ghost use Rattle.mg_migrate_session.specs.Commands.{is_migrate};
ghost use Rattle.mg_migrate_session.specs.Headline.{MigrateKeeps, NoMigrateKeeps};
ghost use Rattle.mg_serve.specs.Sessions.{use_of};
ghost use Rattle.mg_io.specs.Arguments.{arguments};

use crate::fault_line::put_fault;
use crate::words::is_migrate;
use mg_commands::{put_summary, put_usage};
use mg_disk::Disk;
use mg_io::Sink;
use mg_migrate::migrate;
use mg_serve::Status;
use std::alloc::Global;

/// All that the program does to migrate a volume. The words, which are those after its name, are `VOLUME migrate OLD`.
///
/// The volume of version 1 on the old disk becomes one of this version on the new one, with passwords that never end and all else as
/// it was, each row and each frame under its number, and the line is printed that `check` prints of it. A stop at any moment leaves on the
/// new disk no volume, what the blocks after its gate spelled before, or the migrated one. The old disk is only read.
///
/// [`Status::NoVolume`] comes with the line `open not`, `open old`, `open new` or `open damaged`, exactly if the old disk holds no
/// volume, one of a version before 1, one after 1, or one that is not spelled as version 1 does; [`Status::TooSmall`] with `small
/// NEED HAVE`, exactly if it holds a volume that needs more blocks than the new disk has. No call is then made on the new
/// disk, nor at [`Status::Memory`]. [`Status::Disk`] comes only if a call of a disk failed, with nothing printed, and [`Status::Sink`] only
/// if the sink failed; these three come in place of another status. If the old disk alone failed once the copying had begun, the
/// gate of the new disk is closed, and a stop leaves it so.
///
/// Other words get the line `usage` and [`Status::Usage`]; the disks are then left alone.
pub fn top_migrate<D: Disk, E: Disk, K: Sink>(
    alloc: Global,
    words: &[String],
    new: &mut D,
    old: &mut E,
    sink: &mut K,
) -> Status
    ensures migrate { is_migrate (arguments words.now) ≡ true →
        MigrateKeeps result (use_of D.Disk new.old new.new) (use_of E.Disk old.old old.new) (use_of K.Sink sink.old sink.new) }
    ensures usage { is_migrate (arguments words.now) ≡ false →
        NoMigrateKeeps K.Sink result new.old new.new old.old old.new sink.old sink.new }
{
    if is_migrate(words) {
        migrate_and_tell(alloc, new, old, sink)
    } else {
        put_usage(sink)
    }
}

/// Migrates the volume, and prints the line of what came of it.
fn migrate_and_tell<D: Disk, E: Disk, K: Sink>(
    alloc: Global,
    new: &mut D,
    old: &mut E,
    sink: &mut K,
) -> Status
    ensures { MigrateKeeps result (use_of D.Disk new.old new.new) (use_of E.Disk old.old old.new) (use_of K.Sink sink.old sink.new) }
{
    match migrate(alloc, new, old) {
        Ok(summary) => put_summary(&summary, sink),
        Err(fault) => put_fault(fault, sink),
    }
}
