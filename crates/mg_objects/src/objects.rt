// The objects of a volume, by place and by base.
ghost use Rattle.std.specs.Prelude.{◌≡◌, ◌≤◌, ◌<◌, ◌==◌, [], ℕ, All, IfOk, MatchOption, Some, filter, find, length, map, not, true, vec_capacity};
ghost use Rattle.std.specs.List.{AllWithin, HoldsAt, list_any};
ghost use Rattle.std.specs.Option.{option_copied, option_map};
ghost use Rattle.mg_index.specs.Pairs.{Ascends};
ghost use Rattle.mg_model.specs.Access.{covers};
ghost use Rattle.mg_model.specs.Limits.{object_limit};
ghost use Rattle.mg_model.specs.Ranges.{IsObjectRow};
ghost use Rattle.mg_objects.specs.Held.{AreApart, IsLowestFree, MeetsNone, into_place, key_of, objects_in, with_row};

use crate::table::{are_apart, bases_of, put_row, row_of};
use mg_index::Index;
use mg_model::ObjRow;
use mg_model::limits::OBJECT_LIMIT;
use std::alloc::{AllocError, Global};
use std::marker::Model;

/// How many objects a volume has room for.
pub(crate) const MOST_OBJECTS: u64 = OBJECT_LIMIT as u64;

/// The objects of a volume, no two of which share a page.
#[derive(Drop)]
pub struct Objects {
    // The rows by place, up to the last that ever had one, in room for 4,096.
    rows: Vec<Option<ObjRow>>,
    // The base of each row, 0 if there is none.
    bases: Index,
}

impl Model for Objects {
    ghost use Rattle.std.specs.Prelude.{ℕ, List};
    ghost use Rattle.mg_model.specs.State.{ObjectRow};
    ghost use Rattle.mg_objects.specs.Held.{AreHeld, objects_in};
    ghost use Rattle.std.specs.Vec.{vec_capacity};

    ghost Value = { List (ℕ × ObjectRow) };

    ghost view = { λ objects. objects_in objects.rows.items };

    ghost invariant = { λ objects. AreHeld objects.rows.items (vec_capacity objects.rows) objects.bases };
}

impl Objects {
    /// No objects, and room for 4,096. All memory that they will need is taken here.
    pub fn new(alloc: Global) -> Result<Objects, AllocError>
        ensures { IfOk result (λ objects. objects ≡ []) }
    {
        let rows = Vec::with_capacity(alloc, MOST_OBJECTS as usize)?;
        let bases = Index::new(alloc, MOST_OBJECTS)?;
        Ok(Objects { rows, bases })
    }

    /// The objects of a table of at most 4,096 places, which has room for 4,096 and is kept as it is. There are none if
    /// two of its rows share a page. All memory that they will need beside it is taken here.
    pub fn of(alloc: Global, table: Vec<Option<ObjRow>>) -> Result<Option<Objects>, AllocError>
        requires at_most_4096_rows { length table.items ≤ object_limit }
        requires has_capacity { object_limit ≤ vec_capacity table }
        ensures { IfOk result (λ made. MatchOption made (AreApart (objects_in table.items) → ⊥) (λ objects. objects ≡ objects_in table.items)) }
    {
        let numbers = bases_of(alloc, &table)?;
        match Index::of(alloc, numbers)? {
            Some(bases) => {
                if are_apart(&table, bases.pairs()) {
                    Ok(Some(Objects { rows: table, bases }))
                } else {
                    Ok(None)
                }
            }
            None => Ok(None),
        }
    }

    /// States that there are at most 4,096 objects, that no two share a page, and that each has a place of its own. It does
    /// nothing when it runs.
    pub fn keep_rules(&self)
        ensures at_most_4096 { length self.now ≤ object_limit }
        ensures apart { AreApart self.now }
        ensures places { All (λ o. o.0 < object_limit) self.now }
        ensures rows { All (λ o. IsObjectRow o.1) self.now }
    {
        let _rows = &self.rows;
    }

    // The base of each object with its place.
    fn keys(&self) -> &[(u64, u64)]
        ensures keys { map key_of self.now ≡ result.now }
        ensures ascending { Ascends result.now }
    {
        let _rows = &self.rows;
        self.bases.pairs()
    }

    /// How many objects there are, 4,096 at most. No two share a page, and each has a place of its own.
    pub fn len(&self) -> usize
        ensures count { result ≡ length self.now }
        ensures at_most_4096 { result ≤ object_limit }
        ensures apart { AreApart self.now }
        ensures places { All (λ o. o.0 < object_limit) self.now }
        ensures rows { All (λ o. IsObjectRow o.1) self.now }
    {
        self.keep_rules();
        self.keys().len()
    }

    /// The object of this rank in the order of the bases, 0 for the first.
    pub fn nth(&self, i: usize) -> ObjRow
        requires { i < length self.now }
        ensures { HoldsAt (λ o. result ≡ o.1) self.now i }
    {
        *self.nth_ref(i)
    }

    /// As [`Objects::nth`], but borrows the row.
    pub fn nth_ref(&self, i: usize) -> &ObjRow
        requires { i < length self.now }
        ensures { HoldsAt (λ o. result.now ≡ o.1) self.now i }
    {
        row_of(&self.rows, self.keys(), i)
    }

    /// The row in a place of the table.
    pub fn at(&self, place: u64) -> Option<&ObjRow>
        ensures { option_copied result ≡ option_map (λ o. o.1) (find (λ o. o.0 == place) self.now) }
    {
        let rows = &self.rows;
        if place >= rows.len() as u64 {
            return None;
        }
        rows[place as usize].as_ref()
    }

    /// The object with this base.
    pub fn get(&self, base: u64) -> Option<ObjRow>
        ensures { result ≡ option_map (λ o. o.1) (find (λ o. o.1.base == base) self.now) }
    {
        self.get_ref(base).copied()
    }

    /// As [`Objects::get`], but borrows the row.
    pub fn get_ref(&self, base: u64) -> Option<&ObjRow>
        ensures { option_copied result ≡ option_map (λ o. o.1) (find (λ o. o.1.base == base) self.now) }
    {
        match self.entry(base) {
            Some((_, row)) => Some(row),
            None => None,
        }
    }

    /// The object that has this address. It halves what is left at each step.
    pub fn covering(&self, address: u64) -> Option<ObjRow>
        ensures { result ≡ option_map (λ o. o.1) (find (λ o. covers o.1 address) self.now) }
    {
        self.covering_behind(address, self.count_up_to(address))
            .copied()
    }

    /// As [`Objects::covering`], but borrows the row. The object of rank `near`, if there is one, is looked at first, so that calls on one
    /// object take as long among many as alone. `near` is then the rank of the object that is found.
    pub fn covering_near(&self, address: u64, near: &mut usize) -> Option<&ObjRow>
        ensures { option_copied result ≡ option_map (λ o. o.1) (find (λ o. covers o.1 address) self.now) }
    {
        if *near < self.len() {
            let last = self.nth_ref(*near);
            if last.covers(address) {
                return Some(last);
            }
        }
        let count = self.count_up_to(address);
        if count > 0 {
            *near = count - 1;
        }
        self.covering_behind(address, count)
    }

    // The object that has this address, of which `count` objects begin at it or before it.
    fn covering_behind(&self, address: u64, count: usize) -> Option<&ObjRow>
        requires within { count ≤ length self.now }
        requires below { AllWithin (λ o. o.1.base ≤ address) self.now 0 count }
        requires above { AllWithin (λ o. address < o.1.base) self.now count (length self.now) }
        ensures { option_copied result ≡ option_map (λ o. o.1) (find (λ o. covers o.1 address) self.now) }
    {
        self.keep_rules();
        if count == 0 {
            return None;
        }
        let row = self.nth_ref(count - 1);
        if row.covers(address) { Some(row) } else { None }
    }

    /// One object more, in the lowest place that is free. It shares no page with another.
    pub fn insert(&mut self, row: ObjRow)
        requires fewer_than_4096 { length self.old < object_limit }
        requires apart { MeetsNone row self.old }
        ensures { (place : ℕ) × (IsLowestFree place self.old) × (self.new ≡ into_place (place, row) self.old) }
    {
        let _place = self.put(row);
    }

    /// As [`Objects::insert`], and returns the place.
    pub fn put(&mut self, row: ObjRow) -> u64
        requires fewer_than_4096 { length self.old < object_limit }
        requires apart { MeetsNone row self.old }
        ensures objects { self.new ≡ into_place (result, row) self.old }
        ensures place { IsLowestFree result self.old }
    {
        let base = row.base();
        let place = self.bases.add(base);
        put_row(&mut self.rows, place, row);
        place
    }

    /// The object with this base goes, and its place is free.
    pub fn remove(&mut self, base: u64)
        requires { list_any (λ o. o.1.base == base) self.old ≡ true }
        ensures { self.new ≡ filter (λ o. not (o.1.base == base)) self.old }
    {
        let _gone = self.take(base);
    }

    /// As [`Objects::remove`], and returns the place that is then free, and the row.
    pub fn take(&mut self, base: u64) -> (u64, ObjRow)
        requires { list_any (λ o. o.1.base == base) self.old ≡ true }
        ensures objects { self.new ≡ filter (λ o. not (o.1.base == base)) self.old }
        ensures gone { find (λ o. o.1.base == base) self.old ≡ Some result }
    {
        let (place, row) = self.found(base);
        let gone = (place, *row);
        self.bases.release_range(base, 1);
        self.rows[gone.0 as usize] = None;
        gone
    }

    /// Another row for the object with its base, which has as many pages. It stays in its place.
    pub fn update(&mut self, row: ObjRow)
        requires there { list_any (λ o. o.1.base == row.base) self.old ≡ true }
        requires pages { All (λ o. o.1.base ≡ row.base → o.1.pages ≡ row.pages) self.old }
        ensures { self.new ≡ with_row row self.old }
    {
        let _place = self.replace(row);
    }

    /// As [`Objects::update`], and returns the place.
    pub fn replace(&mut self, row: ObjRow) -> u64
        requires there { list_any (λ o. o.1.base == row.base) self.old ≡ true }
        requires pages { All (λ o. o.1.base ≡ row.base → o.1.pages ≡ row.pages) self.old }
        ensures objects { self.new ≡ with_row row self.old }
        ensures place { Some result ≡ option_map (λ o. o.0) (find (λ o. o.1.base == row.base) self.old) }
    {
        let (kept, _) = self.found(row.base());
        self.rows[kept as usize] = Some(row);
        kept
    }

    // The object with this base, with its place.
    fn entry(&self, base: u64) -> Option<(u64, &ObjRow)>
        ensures { option_map (λ o. (o.0, o.1.now)) result ≡ find (λ o. o.1.base == base) self.now }
    {
        let rows = &self.rows;
        if base == 0 {
            return None;
        }
        match self.bases.place_of(base) {
            Some(place) => match &rows[place as usize] {
                Some(row) => Some((place, row)),
                None => unreachable!(),
            },
            None => None,
        }
    }

    // The object with this base, which is there, with its place.
    fn found(&self, base: u64) -> (u64, &ObjRow)
        requires { list_any (λ o. o.1.base == base) self.now ≡ true }
        ensures { find (λ o. o.1.base == base) self.now ≡ Some (result.0, result.1.now) }
    {
        match self.entry(base) {
            Some(found) => found,
            None => unreachable!(),
        }
    }

    // How many objects begin at this address or before it.
    fn count_up_to(&self, address: u64) -> usize
        ensures within { result ≤ length self.now }
        ensures below { AllWithin (λ o. o.1.base ≤ address) self.now 0 result }
        ensures above { AllWithin (λ o. address < o.1.base) self.now result (length self.now) }
    {
        self.keys().partition_point(|pair| pair.0 <= address)
    }
}
