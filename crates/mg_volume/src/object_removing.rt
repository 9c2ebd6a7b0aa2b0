// An object goes: its row, and its pages.
ghost use Rattle.std.specs.Prelude.{List, ◌≡◌, ◌≤◌, ◌<◌, ◌==◌, ℕ, Some, filter, find, not, true};
ghost use Rattle.std.specs.List.{list_any};
ghost use Rattle.mg_model.specs.Layout.{body_limit};
ghost use Rattle.mg_model.specs.Objects.{page_of};
ghost use Rattle.mg_pages.specs.Meaning.{IsSpelledBy, Releases, SameShape, StagesMore, Unbinds, staged_of, words_in};
ghost use Rattle.mg_space.specs.Space.{ArePaid};
ghost use Rattle.mg_volume.specs.StagesRows.{StagesRows};

use crate::object_block::stage_row;
use mg_bank::Bank;
use mg_model::ObjRow;
use mg_model::limits::PAGE_SIZE;
use mg_pages::Pages;
use mg_space::Space;

/// Takes the object with this base out, and stages that its row is free. It gives that row, with its place.
pub(crate) fn take_object(
    objects: &mut Space,
    bank: &mut Bank,
    pages: &mut Pages,
    base: u64,
) -> (u64, ObjRow)
    requires there { list_any (λ o. o.1.base == base) objects.old ≡ true }
    requires paid { ArePaid bank.old.pages objects.old }
    requires fewer_than_160_staged { staged_of pages.old < body_limit }
    ensures taken { find (λ o. o.1.base == base) objects.old ≡ Some result }
    ensures objects { objects.new ≡ filter (λ o. not (o.1.base == base)) objects.old }
    ensures paid { ArePaid bank.new.pages objects.new }
    ensures accounts { bank.new.accounts ≡ bank.old.accounts }
    ensures rows { StagesRows objects.new result.0 pages.old pages.new }
{
    // This says that each place is one of the table.
    objects.objects().keep_rules();
    let taken = objects.remove(base, bank);
    stage_row(pages, objects, taken.0);
    taken
}

/// Unbinds the pages of an object: they read as zeros.
pub(crate) fn release_object(pages: &mut Pages, row: &ObjRow)
    requires at_most_32_staged { staged_of pages.old ≤ 32 }
    ensures released { (image : List (List ℕ)) → Releases pages.old pages.new image (page_of row.now) row.now.pages }
    ensures unbinds { Unbinds (page_of row.now) row.now.pages pages.old pages.new }
    ensures shape { SameShape pages.old pages.new }
    ensures staged { StagesMore 128 pages.old pages.new }
    ensures words { words_in pages.new ≡ words_in pages.old }
    ensures spelled { (image : List (List ℕ)) → IsSpelledBy pages.old image → IsSpelledBy pages.new image }
{
    pages.release(row.base() / PAGE_SIZE, row.pages());
}
