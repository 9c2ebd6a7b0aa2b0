// Runs a session with a stop, or with a fault, at each call.
use crate::bench::Bench;
use crate::expected::{Expected, Stage, fill_expected};
use crate::faults::{fail_run, fail_streams};
use crate::running::{fresh, reopen};
use crate::stops::stop_run;
use mg_disk::MemDisk;
use test_helpers::{Streams, command};
use test_scenario_files::{Report, Session, count_runs, part_of};

/// What happens at each call.
#[derive(Clone, Copy)]
pub enum Sweep {
    /// The disk stops after it.
    Stops,
    /// It fails.
    Faults,
    /// It fails if it is a take or a put.
    Streams,
}

/// The words of the two commands of a sweep.
#[derive(Clone, Copy)]
struct Lines<'a> {
    dry: &'a str,
    run: &'a str,
}

/// Sweeps each run of a session with this batch. Returns how many images were opened again after stops, or how many calls failed. None
/// if a run differs, or if memory runs out.
pub fn sweep_all(
    report: &mut Report,
    session: &Session<'_>,
    sweep: Sweep,
    batch: &str,
) -> Option<u64> {
    match format!(in report.alloc(); "vol run {batch}") {
        Ok(run) => match session.settings.dry_line(report.alloc()) {
            Ok(dry) => {
                let lines = Lines {
                    dry: dry.as_str(),
                    run: run.as_str(),
                };
                sweep_volume(report, session, sweep, &lines)
            }
            Err(_) => None,
        },
        Err(_) => None,
    }
}

fn sweep_volume(
    report: &mut Report,
    session: &Session<'_>,
    sweep: Sweep,
    lines: &Lines<'_>,
) -> Option<u64> {
    match fresh(report.alloc(), &session.settings) {
        Ok(mut disk) => match Bench::new(report.alloc(), &disk) {
            Ok(mut bench) => sweep_runs(report, session, sweep, lines, &mut disk, &mut bench),
            Err(_) => None,
        },
        Err(_) => None,
    }
}

/// Sweeps each run, and then makes it on the volume.
fn sweep_runs(
    report: &mut Report,
    session: &Session<'_>,
    sweep: Sweep,
    lines: &Lines<'_>,
    disk: &mut MemDisk,
    bench: &mut Bench,
) -> Option<u64> {
    let mut count: u64 = 0;
    for i in 0..count_runs(session.file) {
        let stage = Stage {
            dry: lines.dry,
            line: lines.run,
            file: session.file,
            part: part_of(session.file, i),
        };
        let more = sweep_run(report, sweep, &stage, disk, bench)?;
        count = count.saturating_add(more);
        if !make_run(report, &stage, disk) {
            return None;
        }
    }
    Some(count)
}

fn sweep_run(
    report: &mut Report,
    sweep: Sweep,
    stage: &Stage<'_>,
    disk: &MemDisk,
    bench: &mut Bench,
) -> Option<u64> {
    let mut expected = Expected {
        answers: Vec::new(report.alloc()),
        states: Vec::new(report.alloc()),
    };
    sweep_calls(report, sweep, stage, disk, bench, &mut expected)
}

fn sweep_calls(
    report: &mut Report,
    sweep: Sweep,
    stage: &Stage<'_>,
    disk: &MemDisk,
    bench: &mut Bench,
    expected: &mut Expected,
) -> Option<u64> {
    if !fill_expected(report.alloc(), stage, disk, expected) {
        return None;
    }
    match sweep {
        Sweep::Stops => stop_run(report, stage, disk, expected, bench),
        Sweep::Faults => fail_run(report, stage, disk, expected, bench),
        Sweep::Streams => fail_streams(report, stage, disk, expected, bench),
    }
}

/// Makes the run on the volume, and then a stop. False if out of memory.
fn make_run(report: &Report, stage: &Stage<'_>, disk: &mut MemDisk) -> bool {
    let streams = Streams::of(stage.part.run);
    command(report.alloc(), stage.line, disk, &streams).is_ok() && reopen(report.alloc(), disk)
}
