// All that is done with device windows.
ghost use Rattle.std.specs.Prelude.{◌≡◌, IsTrue, false};
ghost use Rattle.mg_serve.specs.Sessions.{use_of};
ghost use Rattle.mg_io.specs.Arguments.{arguments};
ghost use Rattle.mg_commands.specs.Headline.{session_of};
ghost use Rattle.mg_window.specs.Attached.{seen};
ghost use Rattle.mg_window_session.specs.Commands.{asks_for};
ghost use Rattle.mg_window_session.specs.Headline.{DevKeeps, NoDevKeeps};

use crate::running::run_and_tell;
use crate::words::ask_for;
use mg_commands::put_usage;
use mg_disk::Disk;
use mg_io::{Sink, Source};
use mg_model::Steps;
use mg_serve::Status;
use mg_window::{Device, Windows};
use std::alloc::Global;
use std::sync::ledger::Ledger;

/// All that the program does with device windows. The words, which are those after its name, are `VOLUME dev` and up to 16
/// words `KIND:BASE`, all bases different, and the devices that are handed in have the kinds and the bases of those words, in
/// their order.
///
/// It runs the source's lines on the volume of the disk, a reply a batch, as `VOLUME run` does, but a `load` or a `store` line
/// that is allowed and falls into an object with a device reaches the device in place of the object's words. A device whose
/// object a line deletes is dropped. Once all lines are answered a line `dev` is printed for each device that is left, in order: its
/// base in hexadecimal, the number of its kind, 1 to 3, and how many stores its tape holds. `windows` then has the devices that
/// are left.
///
/// Other words, and other devices than those that the words name, get the line `usage` and [`Status::Usage`]; the disk, the
/// source and the devices are then left alone. `steps` does not rise then, nor if the disk holds no volume.
///
/// [`Status::Usage`], [`Status::NoVolume`] and [`Status::Memory`] leave the devices as they were, and so does every status when
/// the disk holds no volume. After [`Status::Done`],
/// [`Status::Source`] and [`Status::TooLong`] they are those after the answered lines and no others, after [`Status::Disk`] and
/// [`Status::Sink`] those or those after one line more. The statuses are those of `VOLUME run`; and [`Status::Sink`] comes too
/// if the lines of the devices could not be printed.
///
/// Neither the devices nor their tapes are kept on the volume.
///
/// [`Status::Done`]: mg_serve::Status::Done
/// [`Status::Usage`]: mg_serve::Status::Usage
/// [`Status::NoVolume`]: mg_serve::Status::NoVolume
/// [`Status::Memory`]: mg_serve::Status::Memory
/// [`Status::Disk`]: mg_serve::Status::Disk
/// [`Status::Source`]: mg_serve::Status::Source
/// [`Status::Sink`]: mg_serve::Status::Sink
/// [`Status::TooLong`]: mg_serve::Status::TooLong
pub fn top_dev<D: Disk, S: Source, K: Sink, L: Ledger>(
    alloc: Global,
    words: &[String],
    disk: &mut D,
    source: &mut S,
    sink: &mut K,
    windows: &mut Windows,
    steps: &mut Steps<L>,
) -> Status
    ensures dev { IsTrue (asks_for (arguments words.now) (seen ⟦<Box<dyn Device> as Device>⟧.held windows.old)) → DevKeeps
        (seen ⟦<Box<dyn Device> as Device>⟧.held windows.old) (seen ⟦<Box<dyn Device> as Device>⟧.held windows.new)
        (session_of 1 result (use_of D.Disk disk.old disk.new)
        (use_of S.Source source.old source.new) (use_of K.Sink sink.old sink.new) steps.old steps.new) }
    ensures usage { asks_for (arguments words.now) (seen ⟦<Box<dyn Device> as Device>⟧.held windows.old) ≡ false → NoDevKeeps K.Sink result
        (seen ⟦<Box<dyn Device> as Device>⟧.held windows.old) (seen ⟦<Box<dyn Device> as Device>⟧.held windows.new)
        disk.old disk.new source.old source.new sink.old sink.new steps.old steps.new }
{
    top_dev_of(alloc, words, disk, source, sink, windows, steps)
}

/// As [`top_dev`], with devices of any one type, so that a contract can speak of them when boxed devices are made.
pub fn top_dev_of<T: Device, D: Disk, S: Source, K: Sink, L: Ledger>(
    alloc: Global,
    words: &[String],
    disk: &mut D,
    source: &mut S,
    sink: &mut K,
    windows: &mut Windows<T>,
    steps: &mut Steps<L>,
) -> Status
    ensures dev { IsTrue (asks_for (arguments words.now) (seen T.held windows.old)) → DevKeeps
        (seen T.held windows.old) (seen T.held windows.new) (session_of 1 result (use_of D.Disk disk.old disk.new)
        (use_of S.Source source.old source.new) (use_of K.Sink sink.old sink.new) steps.old steps.new) }
    ensures usage { asks_for (arguments words.now) (seen T.held windows.old) ≡ false → NoDevKeeps K.Sink result
        (seen T.held windows.old) (seen T.held windows.new) disk.old disk.new source.old source.new sink.old sink.new steps.old steps.new }
{
    if ask_for(words, windows) {
        run_and_tell(alloc, windows, disk, source, sink, steps)
    } else {
        put_usage(sink)
    }
}
