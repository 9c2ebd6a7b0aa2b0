// What a fresh volume is, and the calls of the disk by which that is found.
use mg_check::{Summary, VolumeRows, examine, read_volume};
use mg_disk::{Counts, MemDisk};
use mg_layout::format;
use mg_model::{Params, Tariff};
use std::alloc::Global;

// Makes a volume of 64 frames, and says whether that was done.
fn is_made(disk: &mut MemDisk) -> bool {
    match Params::new(64, [0; 32], 1000, Tariff::usual(64)) {
        Some(params) => format(disk, &params).is_ok(),
        None => false,
    }
}

// What is reported of it, and how often its disk was called.
fn examined_on(alloc: Global, disk: &mut MemDisk) -> Option<(Summary, Counts)> {
    if !is_made(disk) {
        return None;
    }
    match examine(alloc, disk) {
        Ok(summary) => Some((summary, disk.counts())),
        Err(_) => None,
    }
}

fn examined(alloc: Global) -> Option<(Summary, Counts)> {
    match MemDisk::new(alloc, 2660, 2621, Vec::new(alloc)) {
        Ok(mut disk) => examined_on(alloc, &mut disk),
        Err(_) => None,
    }
}

/// How many accounts, threads, objects and frames a volume has, and the page that its first frame holds.
type Numbers = ([usize; 4], Option<u64>);

fn numbers_of(rows: &VolumeRows) -> Numbers {
    let lengths = [
        rows.accounts.len(),
        rows.threads.len(),
        rows.objects.iter().flatten().count(),
        rows.table.len(),
    ];
    (lengths, rows.table.first().copied())
}

fn counted_on(alloc: Global, disk: &mut MemDisk) -> Option<Numbers> {
    if !is_made(disk) {
        return None;
    }
    match read_volume(alloc, disk) {
        Ok((_, rows)) => Some(numbers_of(&rows)),
        Err(_) => None,
    }
}

fn counted(alloc: Global) -> Option<Numbers> {
    match MemDisk::new(alloc, 2660, 2621, Vec::new(alloc)) {
        Ok(mut disk) => counted_on(alloc, &mut disk),
        Err(_) => None,
    }
}

/// What is reported of it.
const SUMMARY: Summary = Summary {
    frames: 64,
    objects: 1,
    pages: 1,
    accounts: 1,
    threads: 1,
    period: 0,
    credits: 1000,
};

/// The calls that make it and examine it.
const COUNTS: Counts = Counts {
    reads: 1308,
    writes: 1310,
    syncs: 3,
};

fn is_examined(alloc: Global) -> bool {
    examined(alloc) == Some((SUMMARY, COUNTS))
}

fn is_counted(alloc: Global) -> bool {
    counted(alloc) == Some(([1, 1, 1, 64], Some(1 << 20)))
}

#[test]
fn a_fresh_volume(rt: HostRuntime) {
    let told = [is_examined(rt.alloc()), is_counted(rt.alloc())];
    assert_eq!(rt; told, [true; 2]);
}
