// The top call: every command of `mungi` but `migrate`.
ghost use Rattle.std.specs.Prelude.{◌≡◌, ◌≢◌, ◌⊎◌, ℕ, None, Some};
ghost use Rattle.mg_model.specs.Print.{replies_text};
ghost use Rattle.mg_model.specs.Settings.{Settings};
ghost use Rattle.mg_model.specs.Step.{after};
ghost use Rattle.mg_serve.specs.Sessions.{use_of};
ghost use Rattle.mg_commands.specs.Commands.{run_of, spelled};
ghost use Rattle.mg_commands.specs.declared.words.Command.TheVariants.{Check, Dry, Format, Gen, Run};
ghost use Rattle.mg_commands.specs.Headline.{CheckKeeps, DryKeeps, FormatKeeps, GenKeeps, LinesKeep, RunCosts, UsageKeeps, session_of};
ghost use Rattle.mg_io.specs.Arguments.{arguments};

use crate::dry::dry;
use crate::generating::count_run;
use crate::running::run;
use mg_commands::{Command, check, make_volume, put_usage, read_words};
use mg_disk::Disk;
use mg_io::{Sink, Source};
use mg_model::Steps;
use mg_serve::Status;
use std::alloc::Global;
use std::sync::ledger::Ledger;

/// Carries out a command of `mungi`: each of them except `migrate`, which is in `mg_migrate_session`. The words are those after the
/// program's name.
///
/// - `VOLUME dry FRAMES SEED CREDITS` runs the source's lines on a fresh machine that is kept nowhere, and prints the reply to
///   each; the disk is not called.
/// - `VOLUME format FRAMES SEED CREDITS`, with a tariff after it or none, makes a volume on the disk, and prints `ok` with the
///   base of its root object and its two passwords; the source is left alone.
/// - `VOLUME check` reports whether the disk is a volume, and prints `ok` with its frames, objects, pages, accounts, threads,
///   period and credits; it writes nothing, and the source is left alone.
/// - `VOLUME run` and `VOLUME run BATCH` run the source's lines on the volume of the disk, BATCH replies to a batch, 1 if
///   none is given. A batch is committed, and then its replies are printed.
/// - `VOLUME gen NUMBER LINES` runs that many lines of the run of a number on a fresh machine that is kept nowhere, and prints how
///   many replies were ok and how many were refused with each word; neither the disk nor the source is called.
///
/// Other words get the line `usage` and [`Status::Usage`]; disk and source are then left alone.
///
/// [`Status::NoVolume`] comes of `check` and `run` if the image that reads give is no volume, with the line `open not`,
/// `open old` or `open damaged`, without a write, and with the source left alone. [`Status::Memory`] comes before the first
/// byte is taken or printed, and never if a volume is made. After [`Status::Disk`], [`Status::Source`], [`Status::Sink`] and
/// [`Status::TooLong`] of `dry` and `run` what was printed is a prefix of the replies; at each moment of `run` a stop leaves the
/// volume's state after some first lines, and at its end all that are answered are among them. After [`Status::Disk`] of
/// `format` and `check` nothing was printed; after that of `format` the disk holds no volume, what its blocks spelled before, or
/// the fresh one. [`Status::TooSmall`] comes with the line `small NEED HAVE`, in blocks, and without a call of the disk. If
/// the sink failed once a volume was made, that volume stays.
///
/// `steps` counts the words that are read and written, one each. Whatever the status of `dry`, `run` and `gen`, it rises by no
/// more than the lines that were read, or the generated ones, may cost. Under all else it does not rise, nor under `run` if
/// there is no volume.
pub fn top<D: Disk, S: Source, K: Sink, L: Ledger>(
    alloc: Global,
    words: &[String],
    disk: &mut D,
    source: &mut S,
    sink: &mut K,
    steps: &mut Steps<L>,
) -> Status
    // What each command keeps. `dry` makes no call on the disk, and `gen` none on the disk and the source.
    ensures run { (batch : ℕ) → run_of (arguments words.now) ≡ Some batch → LinesKeep replies_text after
        (session_of batch result (use_of D.Disk disk.old disk.new) (use_of S.Source source.old source.new)
        (use_of K.Sink sink.old sink.new) steps.old steps.new) }
    ensures run_costs { (batch : ℕ) → run_of (arguments words.now) ≡ Some batch → RunCosts
        (session_of batch result (use_of D.Disk disk.old disk.new) (use_of S.Source source.old source.new)
        (use_of K.Sink sink.old sink.new) steps.old steps.new) }
    ensures dry { (settings : Settings) → spelled words.now ≡ Some (Dry settings) → DryKeeps settings result
        (use_of S.Source source.old source.new) (use_of K.Sink sink.old sink.new) steps.old steps.new }
    ensures disk_alone { (settings : Settings) → spelled words.now ≡ Some (Dry settings) → disk.new ≡ disk.old }
    ensures check { spelled words.now ≡ Some Check → CheckKeeps result
        (use_of D.Disk disk.old disk.new) (use_of K.Sink sink.old sink.new) }
    ensures format { (settings : Settings) → spelled words.now ≡ Some (Format settings) → FormatKeeps settings result
        (use_of D.Disk disk.old disk.new) (use_of K.Sink sink.old sink.new) }
    ensures generated { (number count : ℕ) → spelled words.now ≡ Some (Gen number count) → GenKeeps number count result
        (use_of K.Sink sink.old sink.new) steps.old steps.new }
    ensures generated_alone { (number count : ℕ) → spelled words.now ≡ Some (Gen number count) →
        (disk.new ≡ disk.old) × (source.new ≡ source.old) }
    ensures usage { spelled words.now ≡ None → UsageKeeps K.Sink result disk.old disk.new source.old source.new sink.old sink.new }

    // Which commands a status comes of, which make a call on the source, and which count.
    ensures not_spelled { result ≡ Status.Usage → spelled words.now ≡ None }
    ensures no_volume { result ≡ Status.NoVolume →
        (spelled words.now ≡ Some Check) ⊎ ((batch : ℕ) × (spelled words.now ≡ Some (Run batch))) }
    ensures too_small { result ≡ Status.TooSmall → (settings : Settings) × (spelled words.now ≡ Some (Format settings)) }
    ensures source { result ≡ Status.Source →
        ((settings : Settings) × (spelled words.now ≡ Some (Dry settings))) ⊎ ((batch : ℕ) × (spelled words.now ≡ Some (Run batch))) }
    ensures source_alone { ((settings : Settings) → spelled words.now ≢ Some (Dry settings))
        → ((batch : ℕ) → spelled words.now ≢ Some (Run batch)) → source.new ≡ source.old }
    ensures steps_alone { ((settings : Settings) → spelled words.now ≢ Some (Dry settings))
        → ((batch : ℕ) → spelled words.now ≢ Some (Run batch))
        → ((number count : ℕ) → spelled words.now ≢ Some (Gen number count)) → steps.new ≡ steps.old }
{
    let command = match read_words(words) {
        Some(command) => command,
        None => return put_usage(sink),
    };
    match &command {
        Command::Dry(params) => dry(alloc, params, source, sink, steps),
        Command::Format(params) => make_volume(params, disk, sink),
        Command::Check => check(alloc, disk, sink),
        Command::Run(batch) => run(alloc, *batch, disk, source, sink, steps),
        Command::Gen(number, count) => count_run(alloc, *number, *count, sink, steps),
    }
}
