// A table of objects' rows, and the bases that its places have.
ghost use Rattle.std.specs.Prelude.{◌≡◌, ◌<◌, ◌≤◌, All, IfOk, None, Some, false, length, map, slice_index_or, true, vec_capacity};
ghost use Rattle.std.specs.List.{HoldsAt};
ghost use Rattle.std.specs.Option.{ForSome};
ghost use Rattle.mg_model.specs.Limits.{object_limit};
ghost use Rattle.mg_model.specs.Ranges.{IsObjectRow};
ghost use Rattle.mg_objects.specs.Held.{AreApart, AreBases, IsPut, base_of, key_of, objects_in};

use crate::objects::MOST_OBJECTS;
use mg_model::ObjRow;
use mg_model::limits::PAGE_SIZE;
use std::alloc::{AllocError, Global};

/// The base of the row in each of 4,096 places, 0 if there is none.
pub(crate) fn bases_of(alloc: Global, table: &[Option<ObjRow>]) -> Result<Vec<u64>, AllocError>
    requires { length table.now ≤ object_limit }
    ensures bases { IfOk result (λ bases. AreBases (λ k. slice_index_or table.now k None) bases.items) }
    ensures ranges { IfOk result (λ _. All (λ row. ForSome row IsObjectRow) table.now) }
{
    let mut bases = vec![in alloc; 0; MOST_OBJECTS as usize]?;
    for (place, row) in table.iter().enumerate() {
        bases[place] = base_of(row);
    }
    Ok(bases)
}

/// Writes a row into a place of the table, or after its last place.
pub(crate) fn put_row(table: &mut Vec<Option<ObjRow>>, place: u64, row: ObjRow)
    requires within { place ≤ length table.old.items }
    requires place { place < object_limit }
    requires at_most_4096_rows { length table.old.items ≤ object_limit }
    requires has_capacity { object_limit ≤ vec_capacity table.old }
    ensures put { IsPut table.old.items table.new.items place (Some row) }
    ensures at_most_4096_rows { length table.new.items ≤ object_limit }
    ensures has_capacity { object_limit ≤ vec_capacity table.new }
{
    if place < table.len() as u64 {
        table[place as usize] = Some(row);
    } else {
        match table.push(Some(row)) {
            Ok(()) => {}
            Err(_) => unreachable!(),
        }
    }
}

// The base of a row, 0 if there is none.
fn base_of(row: &Option<ObjRow>) -> u64
    ensures base { result ≡ base_of row.now }
    ensures kept { ForSome row.now IsObjectRow }
{
    match row {
        Some(row) => row.base(),
        None => 0,
    }
}

/// The row of this rank in the order of the bases, 0 for the first, if the pairs are those of all bases and places.
pub(crate) fn row_of<'a>(table: &'a [Option<ObjRow>], pairs: &[(u64, u64)], i: usize) -> &'a ObjRow
    requires at_most_4096_rows { length table.now ≤ object_limit }
    requires listed { map key_of (objects_in table.now) ≡ pairs.now }
    requires rank { i < length (objects_in table.now) }
    ensures { HoldsAt (λ o. result.now ≡ o.1) (objects_in table.now) i }
{
    let (_, place) = pairs[i];
    match &table[place as usize] {
        Some(row) => row,
        None => unreachable!(),
    }
}

/// Whether no two of the objects share a page, if the pairs are those of all bases and places.
pub(crate) fn are_apart(table: &[Option<ObjRow>], pairs: &[(u64, u64)]) -> bool
    requires at_most_4096_rows { length table.now ≤ object_limit }
    requires listed { map key_of (objects_in table.now) ≡ pairs.now }
    ensures apart { result ≡ true → AreApart (objects_in table.now) }
    ensures meet { result ≡ false → AreApart (objects_in table.now) → ⊥ }
{
    for i in 1..pairs.len() {
        let last = row_of(table, pairs, i - 1);
        let next = row_of(table, pairs, i);
        if next.base() / PAGE_SIZE < last.base() / PAGE_SIZE + last.pages() {
            return false;
        }
    }
    true
}
