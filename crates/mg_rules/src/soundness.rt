// The rules between the rows of a volume.
ghost use Rattle.std.specs.Prelude.{◌≡◌, ◌+◌, ◌*◌, ◌^◌, ◌==◌, ◌≤◌, ◌&&◌, ℕ, All, IfOk, List, nat_le, sum_by, true};
ghost use Rattle.std.specs.List.{filter_map, list_all, list_any};
ghost use Rattle.std.specs.Option.{option_map};
ghost use Rattle.mg_rules.specs.RowsRead.{AreInRange, live_from};
ghost use Rattle.mg_rules.specs.Tables.{is_paid, pages_in};
ghost use Rattle.mg_rules.specs.Rules.{AreSpans, births_of, place_of};
ghost use Rattle.mg_rules.specs.Spans.{IsSome, apart_from, is_in};
ghost use Rattle.mg_disk.specs.Disk.{Image};
ghost use Rattle.mg_model.specs.Abbreviations.{threads_spelled};
ghost use Rattle.mg_model.specs.State.{ThreadRow};
ghost use Rattle.mg_model.specs.Tests.{all_distinct};
ghost use Rattle.mg_model.specs.Volume.{accounts_fit, begins_with_first, bound_pages, objects_fit, objects_spelled, table_fits, threads_fit};

use crate::sorted::{are_apart, are_distinct, are_distinct_within};
use mg_model::limits::{DEBT_LIMIT, PAGE_SIZE};
use mg_model::{AccRow, Globals, ObjRow, ThrRow};
use std::alloc::{AllocError, Global};

// Whether the balances sum to these credits. Each is taken off what is left of the credits, since a sum of balances may be
// no number of 64 bits.
fn sum_to(accounts: &[AccRow], credits: u64) -> bool
    ensures { result ≡ (sum_by (λ (row : AccRow). row.balance) accounts.now == credits) }
{
    let mut left = credits;
    for row in accounts {
        if row.balance > left {
            return false;
        }
        left -= row.balance;
    }
    left == 0
}

// Whether no account owes more than this.
fn owe_at_most(accounts: &[AccRow], most: u64) -> bool
    ensures { result ≡ list_all (λ (row : AccRow). nat_le row.owed most) accounts.now }
{
    accounts.iter().all(|row| row.owed <= most)
}

// What an account may owe by now.
fn most_owed(globals: &Globals) -> u64
    ensures { result ≡ globals.now.period * 2 ^ 36 }
{
    globals.period * DEBT_LIMIT
}

/// Whether there is a treasury, the balances sum to the credits, and no account owes more than it may by the period.
pub(crate) fn accounts_fit(accounts: &[AccRow], credits: u64, globals: &Globals) -> bool
    ensures { result ≡ accounts_fit credits globals.now.period accounts.now }
{
    !accounts.is_empty() && sum_to(accounts, credits) && owe_at_most(accounts, most_owed(globals))
}

// The first page of an object, and the one right after it.
fn place_of(row: &Option<ObjRow>) -> Option<(u64, u64)>
    ensures { result ≡ option_map place_of row.now }
{
    match row {
        Some(row) => {
            let first = row.base() / PAGE_SIZE;
            Some((first, first + row.pages()))
        }
        None => None,
    }
}

// The pages of all objects.
fn places_of(alloc: Global, objects: &[Option<ObjRow>]) -> Result<Vec<(u64, u64)>, AllocError>
    ensures { IfOk result (λ places. places.items ≡ filter_map (option_map place_of) objects.now) }
{
    objects
        .iter()
        .filter_map(|row| place_of(row))
        .collect(alloc)
}

/// The pages of all objects, in order.
pub(crate) fn spans(
    alloc: Global,
    objects: &[Option<ObjRow>],
) -> Result<Vec<(u64, u64)>, AllocError>
    requires ranges { AreInRange (live_from 0 objects.now) }
    ensures { IfOk result (λ spans. AreSpans spans.items (live_from 0 objects.now)) }
{
    let mut spans = places_of(alloc, objects)?;
    spans.sort_unstable();
    Ok(spans)
}

// Whether the account of an object is one of the first `accounts` accounts.
fn is_paid(row: &Option<ObjRow>, accounts: u64) -> bool
    ensures { result ≡ is_paid accounts row.now }
{
    match row {
        Some(row) => row.account() <= accounts,
        None => true,
    }
}

// Whether the account of each object is one of the first `accounts` accounts.
fn are_paid(objects: &[Option<ObjRow>], accounts: u64) -> bool
    ensures { result ≡ list_all (is_paid accounts) objects.now }
{
    objects.iter().all(|row| is_paid(row, accounts))
}

/// How many pages an object has.
pub fn pages_in(row: &Option<ObjRow>) -> u64
    ensures pages { result ≡ pages_in row.now }
    ensures at_most_1024 { result ≤ 1024 }
{
    match row {
        Some(row) => row.pages,
        None => 0,
    }
}

// Whether the objects have no more pages than there are frames.
fn are_few(objects: &[Option<ObjRow>], frames: u64) -> bool
    ensures { result ≡ nat_le (sum_by pages_in objects.now) frames }
{
    let mut left = frames;
    for row in objects {
        let pages = pages_in(row);
        if pages > left {
            return false;
        }
        left -= pages;
    }
    true
}

/// Whether no two objects share a page, each has an account, and there are frames for their pages. The spans are those of
/// the objects.
pub(crate) fn objects_fit(
    objects: &[Option<ObjRow>],
    spans: &[(u64, u64)],
    frames: u64,
    accounts: u64,
) -> bool
    requires spans { AreSpans spans.now (live_from 0 objects.now) }
    ensures fit { (replayed : Image) (table : List ℕ) → objects_fit frames accounts (objects_spelled replayed frames table (live_from 0 objects.now)) ≡ result }
    ensures apart { result ≡ true → apart_from 0 spans.now ≡ true }
{
    are_apart(spans) && are_paid(objects, accounts) && are_few(objects, frames)
}

// The birth numbers of the threads.
fn births_of(alloc: Global, threads: &[(u64, ThrRow)]) -> Result<Vec<u64>, AllocError>
    ensures { IfOk result (λ births. births.items ≡ births_of threads.now) }
{
    threads.iter().map(|t| t.1.birth()).collect(alloc)
}

// Whether this is thread 1, whose place is the first, born first and created by none.
fn is_first(place: u64, row: &ThrRow) -> bool
    ensures { result ≡ (place + 1 == 1 && row.now.birth == 1 && row.now.creator == 0) }
{
    place == 0 && row.birth() == 1 && row.creator() == 0
}

// Whether that is the first of the threads.
fn begin_with_first(threads: &[(u64, ThrRow)]) -> bool
    ensures { result ≡ begins_with_first (threads_spelled threads.now) }
{
    match threads.first() {
        Some(t) => is_first(t.0, &t.1),
        None => false,
    }
}

// Whether no thread has a birth number above this.
fn are_born(threads: &[(u64, ThrRow)], births: u64) -> bool
    ensures { result ≡ list_all (λ (t : ℕ × ThreadRow). nat_le t.1.birth births) threads.now }
{
    threads.iter().all(|t| t.1.birth() <= births)
}

/// Whether thread 1 is the first, no two have the same birth number, and none has one above this.
pub(crate) fn threads_fit(
    alloc: Global,
    threads: &[(u64, ThrRow)],
    births: u64,
) -> Result<bool, AllocError>
    ensures { IfOk result (λ fit. fit ≡ threads_fit births (threads_spelled threads.now)) }
{
    if !begin_with_first(threads) {
        return Ok(false);
    }
    let distinct = are_distinct(births_of(alloc, threads)?);
    Ok(distinct && are_born(threads, births))
}

// The pages that frames hold.
fn bound_pages(alloc: Global, table: &[u64]) -> Result<Vec<u64>, AllocError>
    ensures { IfOk result (λ pages. pages.items ≡ bound_pages table.now) }
{
    table
        .iter()
        .copied()
        .filter(|page| *page != 0)
        .collect(alloc)
}

/// Whether each page that a frame holds lies in an object, and none is held twice. The spans are those of the objects, which
/// are apart.
pub(crate) fn table_fits(
    alloc: Global,
    table: &[u64],
    spans: &[(u64, u64)],
) -> Result<bool, AllocError>
    requires apart { apart_from 0 spans.now ≡ true }
    requires no_empty_span { All IsSome spans.now }
    ensures { IfOk result (λ fit. fit ≡ (list_all (λ page. list_any (is_in page) spans.now) (bound_pages table.now) && all_distinct (bound_pages table.now))) }
{
    Ok(are_distinct_within(spans, bound_pages(alloc, table)?))
}
