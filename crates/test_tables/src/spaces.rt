// As many objects as there may be, with the pages between them, beside a plain list of pages that is searched one by one.
ghost use Rattle.std.specs.Prelude.{◌≡◌, ◌==◌, true};
ghost use Rattle.std.specs.List.{list_any};

use mg_bank::Bank;
use mg_model::ObjRow;
use mg_model::limits::{FIRST_PAGE, PAGE_SIZE};
use mg_space::Space;
use std::alloc::Global;
use std::marker::Model;

/// How many objects there may be.
const MOST: u64 = 4096;

/// The pages of the plain list, from the lowest on that an object may have. The objects here have 34,816 at one time.
const PAGES: usize = 60_000;

/// Objects, and a bank that keeps for how many pages each account pays.
#[derive(Drop)]
struct Paid {
    space: Space,
    bank: Bank,
}

impl Model for Paid {
    ghost use Rattle.std.specs.Prelude.{ℕ, List};
    ghost use Rattle.mg_model.specs.State.{ObjectRow};
    ghost use Rattle.mg_space.specs.Space.{ArePaid};

    ghost Value = { List (ℕ × ObjectRow) };

    ghost view = { λ paid. paid.space };

    ghost invariant = { λ paid. ArePaid paid.bank.pages paid.space };
}

/// Where `pages` pages, 1 to 16, have room: the lowest page of it, counted from the lowest that an object may have.
fn first(space: &Space, pages: u64) -> Option<u64> {
    if pages == 0 || pages > 16 || space.used() > 65_536 {
        return None;
    }
    Some(space.first(pages) - FIRST_PAGE)
}

/// One more object of `pages` pages, on the lowest pages with room, and its first page; None if there may be no more.
fn made(paid: &mut Paid, pages: u64) -> Option<u64> {
    let space = &mut paid.space;
    if pages == 0 || pages > 16 || space.used() > 65_520 || space.len() as u64 >= MOST {
        return None;
    }
    let page = space.first(pages);
    space.insert(ObjRow::new(PAGE_SIZE * page, pages, 1), &mut paid.bank);
    Some(page - FIRST_PAGE)
}

/// Whether an object has this base.
fn is_there(space: &Space, base: u64) -> bool
    ensures { result ≡ true → list_any (λ o. o.1.base == base) space.now ≡ true }
{
    match space.get(base) {
        Some(_) => true,
        None => false,
    }
}

/// Whether an object began at this page. It is gone then.
fn is_removed(paid: &mut Paid, page: u64) -> bool {
    let base = PAGE_SIZE.saturating_mul(FIRST_PAGE.saturating_add(page));
    if !is_there(&paid.space, base) {
        return false;
    }
    paid.space.remove(base, &mut paid.bank);
    true
}

/// The lowest page of the plain list from which on `pages` pages are free.
fn lowest(taken: &[bool], pages: u64) -> Option<u64> {
    let mut free: u64 = 0;
    for (i, is_taken) in taken.iter().enumerate() {
        free = if *is_taken { 0 } else { free.saturating_add(1) };
        if free == pages {
            return Some((i as u64).saturating_add(1).saturating_sub(pages));
        }
    }
    None
}

/// Marks `pages` pages of the plain list.
fn mark(taken: &mut [bool], page: u64, pages: u64, is_taken: bool) {
    for i in page..page.saturating_add(pages) {
        if let Some(place) = taken.get_mut(i as usize) {
            *place = is_taken;
        }
    }
}

/// How many pages the object of this number has, 1 to 16.
fn pages_of(number: u64) -> u64 {
    number.wrapping_mul(7) % 16 + 1
}

/// The number at this place of `count` numbers that are gone through in steps of this size.
fn number_at(i: u64, count: u64, step: u64) -> usize {
    let place = i.wrapping_mul(step) % count.max(1);
    (place.wrapping_mul(1237) % MOST) as usize
}

/// Makes `count` objects, and returns how many got the lowest pages that are free in the plain list.
fn make(paid: &mut Paid, taken: &mut [bool], places: &mut [u64], count: u64, step: u64) -> u64 {
    let mut right: u64 = 0;
    for i in 0..count {
        let number = number_at(i, count, step);
        let pages = pages_of(number as u64);
        let wanted = lowest(taken, pages);
        let found = made(paid, pages);
        if let (Some(page), Some(place)) = (found, places.get_mut(number)) {
            mark(taken, page, pages, true);
            *place = page;
            if found == wanted {
                right = right.saturating_add(1);
            }
        }
    }
    right
}

/// Removes `count` objects, and returns after how many of these there was room for 1 and for 16 pages if the plain list has it.
fn remove(paid: &mut Paid, taken: &mut [bool], places: &[u64], count: u64, step: u64) -> u64 {
    let mut right: u64 = 0;
    for i in 0..count {
        let number = number_at(i, count, step);
        let page = places.get(number).copied().unwrap_or(0);
        if is_removed(paid, page) {
            mark(taken, page, pages_of(number as u64), false);
            let space = &paid.space;
            if first(space, 1) == lowest(taken, 1) && first(space, 16) == lowest(taken, 16) {
                right = right.saturating_add(1);
            }
        }
    }
    right
}

/// How many objects were right as all were made, half of them removed and made again, and all removed; whether there was room for
/// one more after the two that made some; and the pages in use after each.
type Told = ([u64; 4], [bool; 2], [u64; 4]);

fn told(paid: &mut Paid, taken: &mut [bool], places: &mut [u64]) -> Told {
    let first = make(paid, taken, places, MOST, 1);
    let (one, all) = (made(paid, 1).is_some(), paid.space.used());
    let second = remove(paid, taken, places, MOST / 2, 3);
    let half = paid.space.used();
    let third = make(paid, taken, places, MOST / 2, 5);
    let (more, again) = (made(paid, 1).is_some(), paid.space.used());
    let fourth = remove(paid, taken, places, MOST, 7);
    (
        [first, second, third, fourth],
        [one, more],
        [all, half, again, paid.space.used()],
    )
}

fn told_with_places(alloc: Global, paid: &mut Paid, taken: &mut [bool]) -> Option<Told> {
    match vec![in alloc; 0; MOST as usize] {
        Ok(mut places) => Some(told(paid, taken, &mut places)),
        Err(_) => None,
    }
}

fn told_beside_list(alloc: Global, paid: &mut Paid) -> Option<Told> {
    match vec![in alloc; false; PAGES] {
        Ok(mut taken) => told_with_places(alloc, paid, &mut taken),
        Err(_) => None,
    }
}

/// A space with no object.
fn empty(alloc: Global) -> Option<Space> {
    match Vec::with_capacity(alloc, MOST as usize) {
        Ok(rows) => match Space::of(alloc, rows) {
            Ok(space) => space,
            Err(_) => None,
        },
        Err(_) => None,
    }
}

/// The same with a bank.
fn empty_paid(alloc: Global) -> Option<Paid> {
    match Bank::new(alloc) {
        Ok(mut bank) => match empty(alloc) {
            Some(space) => {
                space.bill(&mut bank);
                Some(Paid { space, bank })
            }
            None => None,
        },
        Err(_) => None,
    }
}

fn told_of_new(alloc: Global) -> Option<Told> {
    match empty_paid(alloc) {
        Some(mut paid) => told_beside_list(alloc, &mut paid),
        None => None,
    }
}

// The numbers are gone through in steps that are odd, so each comes once. The sizes 1 to 16 come equally often.
#[test]
fn as_many_objects_as_there_may_be(rt: HostRuntime) {
    let right = [MOST, MOST / 2, MOST / 2, MOST];
    let wanted = (right, [false; 2], [34_816, 17_408, 34_816, 0]);
    assert_eq!(rt; told_of_new(rt.alloc()), Some(wanted));
}
