// Objects, the free pages, and how many pages are in use.
ghost use Rattle.std.specs.Prelude.{◌≡◌, ◌≤◌, ◌<◌, ◌==◌, ◌+◌, ◌⊎◌, ℕ, All, IfOk, List, MatchOption, Some, filter, find, length, not, sum_by, true, vec_capacity};
ghost use Rattle.std.specs.List.{list_any};
ghost use Rattle.std.specs.Option.{option_copied, option_map};
ghost use Rattle.mg_bank.specs.Bank.{pages_at};
ghost use Rattle.mg_model.specs.Access.{covers};
ghost use Rattle.mg_model.specs.Limits.{first_page, object_limit, page_end};
ghost use Rattle.mg_model.specs.Objects.{lowest_free, page_behind, page_of};
ghost use Rattle.mg_model.specs.Ranges.{IsObjectRow};
ghost use Rattle.mg_model.specs.State.{Object};
ghost use Rattle.mg_objects.specs.Held.{AreApart, IsLowestFree, MeetsNone, into_place, objects_in, with_row};
ghost use Rattle.mg_ranges.specs.Gaps.{AreTaken};
ghost use Rattle.mg_space.specs.Space.{ArePaid, AreRowsOf, spans_in};

use crate::paying::{add, bill, subtract};
use mg_bank::Bank;
use mg_model::ObjRow;
use mg_model::limits::PAGE_SIZE;
use mg_objects::Objects;
use mg_ranges::Ranges;
use std::alloc::{AllocError, Global};
use std::marker::Model;

/// The objects of a volume, no two of which share a page, with the pages between them.
#[derive(Drop)]
pub struct Space {
    objects: Objects,
    free: Ranges,
    // How many pages the objects have.
    used: u64,
}

impl Model for Space {
    ghost use Rattle.std.specs.Prelude.{ℕ, List};
    ghost use Rattle.mg_model.specs.State.{ObjectRow};
    ghost use Rattle.mg_space.specs.Space.{IsSpace};

    ghost Value = { List (ℕ × ObjectRow) };

    ghost view = { λ space. space.objects };

    ghost invariant = { λ space. IsSpace space.objects space.free space.used };
}

impl Space {
    /// The objects of a table of at most 4,096 places, which has room for 4,096 and is kept as it is. There are none if
    /// two of its rows share a page. All memory that they, and the gaps between them, will need beside it is taken here.
    pub fn of(alloc: Global, table: Vec<Option<ObjRow>>) -> Result<Option<Space>, AllocError>
        requires at_most_4096_rows { length table.items ≤ object_limit }
        requires has_capacity { object_limit ≤ vec_capacity table }
        ensures { IfOk result (λ made. MatchOption made (AreApart (objects_in table.items) → ⊥) (λ space. space ≡ objects_in table.items)) }
    {
        match Objects::of(alloc, table)? {
            Some(objects) => {
                let spans = spans(alloc, &objects)?;
                let free = Ranges::of(alloc, &spans)?;
                let used = pages_of(&objects);
                Ok(Some(Space {
                    objects,
                    free,
                    used,
                }))
            }
            None => Ok(None),
        }
    }

    /// The objects.
    pub fn objects(&self) -> &Objects
        ensures { result.now ≡ self.now }
    {
        &self.objects
    }

    /// How many objects there are, 4,096 at most. No two share a page, and each has a place of its own.
    pub fn len(&self) -> usize
        ensures count { result ≡ length self.now }
        ensures at_most_4096 { result ≤ object_limit }
        ensures apart { AreApart self.now }
        ensures places { All (λ o. o.0 < object_limit) self.now }
        ensures rows { All (λ o. IsObjectRow o.1) self.now }
    {
        self.objects.len()
    }

    /// The row in a place of the table.
    pub fn at(&self, place: u64) -> Option<&ObjRow>
        ensures { option_copied result ≡ option_map (λ o. o.1) (find (λ o. o.0 == place) self.now) }
    {
        self.objects.at(place)
    }

    /// The object with this base.
    pub fn get(&self, base: u64) -> Option<&ObjRow>
        ensures { option_copied result ≡ option_map (λ o. o.1) (find (λ o. o.1.base == base) self.now) }
    {
        self.objects.get_ref(base)
    }

    /// The object that has this address. The object of rank `near` is looked at first, and `near` is then the rank of the
    /// object that is found.
    pub fn covering_near(&self, address: u64, near: &mut usize) -> Option<&ObjRow>
        ensures { option_copied result ≡ option_map (λ o. o.1) (find (λ o. covers o.1 address) self.now) }
    {
        self.objects.covering_near(address, near)
    }

    /// How many pages all objects have.
    pub fn used(&self) -> u64
        ensures { result ≡ sum_by (λ o. o.1.pages) self.now }
    {
        self.used
    }

    /// Sets in a bank, which has none, for how many pages each account pays.
    pub fn bill(&self, bank: &mut Bank)
        requires { (n : ℕ) → pages_at bank.old.pages n ≡ 0 }
        ensures paid { ArePaid bank.new.pages self.now }
        ensures accounts { bank.new.accounts ≡ bank.old.accounts }
    {
        bill(bank, &self.objects);
    }

    /// The lowest page from which on `pages` pages, 1 to 1024, meet no object. All objects have at most 65,536 pages.
    pub fn first(&self, pages: u64) -> u64
        requires at_least_1_page { 1 ≤ pages }
        requires at_most_1024_pages { pages ≤ 1024 }
        requires at_most_65536_pages { sum_by (λ o. o.1.pages) self.now ≤ 65536 }
        ensures lowest { (objects : List Object) → AreRowsOf objects self.now → result ≡ lowest_free objects pages }
        ensures free { All (λ o. (result + pages ≤ page_of o.1) ⊎ (page_behind o.1 ≤ result)) self.now }
        ensures low { first_page ≤ result }
        ensures high { result + pages ≤ page_end }
    {
        self.free.first(pages)
    }

    /// One object more, in the lowest place that is free, and gives that place. It shares no page with another. The bank keeps
    /// for how many pages each account pays.
    pub fn insert(&mut self, row: ObjRow, bank: &mut Bank) -> u64
        requires fewer_than_4096 { length self.old < object_limit }
        requires apart { MeetsNone row self.old }
        requires paid { ArePaid bank.old.pages self.old }
        ensures objects { self.new ≡ into_place (result, row) self.old }
        ensures place { IsLowestFree result self.old }
        ensures paid { ArePaid bank.new.pages self.new }
        ensures accounts { bank.new.accounts ≡ bank.old.accounts }
        ensures row { IsObjectRow row }
    {
        let (first, pages) = span_of(&row);
        let place = self.objects.put(row);
        self.objects.keep_rules();
        self.free.take(first, pages);
        self.used += pages;
        add(bank, &row);
        place
    }

    /// The object with this base goes, and its place and its pages are free. It gives that place, and the row. The bank keeps
    /// for how many pages each account pays.
    pub fn remove(&mut self, base: u64, bank: &mut Bank) -> (u64, ObjRow)
        requires there { list_any (λ o. o.1.base == base) self.old ≡ true }
        requires paid { ArePaid bank.old.pages self.old }
        ensures objects { self.new ≡ filter (λ o. not (o.1.base == base)) self.old }
        ensures gone { find (λ o. o.1.base == base) self.old ≡ Some result }
        ensures paid { ArePaid bank.new.pages self.new }
        ensures accounts { bank.new.accounts ≡ bank.old.accounts }
    {
        self.objects.keep_rules();
        let gone = self.objects.take(base);
        let (first, pages) = span_of(&gone.1);
        self.free.give(first, pages);
        self.used -= pages;
        subtract(bank, &gone.1);
        gone
    }

    /// Another row for the object with its base, which has as many pages, perhaps of another payer. It is in the same
    /// place, which is given back. The bank keeps for how many pages each account pays.
    pub fn update(&mut self, row: ObjRow, bank: &mut Bank) -> u64
        requires there { list_any (λ o. o.1.base == row.base) self.old ≡ true }
        requires pages { All (λ o. o.1.base ≡ row.base → o.1.pages ≡ row.pages) self.old }
        requires paid { ArePaid bank.old.pages self.old }
        ensures objects { self.new ≡ with_row row self.old }
        ensures place { Some result ≡ option_map (λ o. o.0) (find (λ o. o.1.base == row.base) self.old) }
        ensures paid { ArePaid bank.new.pages self.new }
        ensures accounts { bank.new.accounts ≡ bank.old.accounts }
        ensures row { IsObjectRow row }
    {
        self.objects.keep_rules();
        let old = replaced(&self.objects, &row);
        let place = self.objects.replace(row);
        self.objects.keep_rules();
        subtract(bank, &old);
        add(bank, &row);
        place
    }
}

// The row that the object with the base of this one has. It is there.
fn replaced(objects: &Objects, row: &ObjRow) -> ObjRow
    requires { list_any (λ o. o.1.base == row.now.base) objects.now ≡ true }
    ensures { option_map (λ o. o.1) (find (λ o. o.1.base == row.now.base) objects.now) ≡ Some result }
{
    let base = row.base();
    match objects.get_ref(base) {
        Some(old) => *old,
        None => unreachable!(),
    }
}

// The first page of an object, and how many it has.
fn span_of(row: &ObjRow) -> (u64, u64)
    ensures span { result ≡ (page_of row.now, row.now.pages) }
    ensures kept { IsObjectRow row.now }
{
    (row.base() / PAGE_SIZE, row.pages())
}

// The pages of the objects, in their order.
fn spans(alloc: Global, objects: &Objects) -> Result<Vec<(u64, u64)>, AllocError>
    ensures spans { IfOk result (λ spans. spans.items ≡ spans_in objects.now) }
    ensures taken { IfOk result (λ spans. AreTaken spans.items) }
{
    let mut spans = Vec::with_capacity(alloc, objects.len())?;
    for i in 0..objects.len() {
        spans.push(span_of(objects.nth_ref(i)))?;
    }
    Ok(spans)
}

// How many pages the objects have.
fn pages_of(objects: &Objects) -> u64
    ensures { result ≡ sum_by (λ o. o.1.pages) objects.now }
{
    let mut used = 0;
    for i in 0..objects.len() {
        used += objects.nth_ref(i).pages();
    }
    used
}
