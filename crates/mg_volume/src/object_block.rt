// The block of four rows of objects.
ghost use Rattle.std.specs.Prelude.{◌≡◌, ◌<◌, ◌+◌, ◌*◌, ◌/◌, ◌⊎◌, true, ℕ, None, Some};
ghost use Rattle.std.specs.Option.{option_map_or};
ghost use Rattle.mg_model.specs.Layout.{body_limit, first_object_block};
ghost use Rattle.mg_model.specs.Limits.{object_limit};
ghost use Rattle.mg_pages.specs.Meaning.{is_staged, staged_of};
ghost use Rattle.mg_rows.specs.Blocks.{object_in};
ghost use Rattle.mg_volume.specs.RowLists.{row_at};
ghost use Rattle.mg_volume.specs.StagesRows.{StagesRows};

use mg_disk::Block;
use mg_layout::FIRST_OBJECT_BLOCK;
use mg_model::ObjRow;
use mg_pages::Pages;
use mg_rows::put_object;
use mg_space::Space;

// The row at a place, if an object has it.
fn row_at(objects: &Space, place: u64) -> Option<&ObjRow>
    ensures { option_map_or (λ row. Some row.now) result None ≡ row_at place objects.now }
{
    match objects.at(place) {
        Some(row) => Some(row),
        None => None,
    }
}

// Puts the rows at four places into a block, from `4 * quad` on, for quad below 1024: of a place that no object has the row is free.
fn put_rows(objects: &Space, quad: u64, block: &mut Block)
    requires { quad < 1024 }
    ensures { (j : ℕ) → j < 4 → object_in block.new j ≡ Some (row_at (4 * quad + j) objects.now) }
{
    for j in 0..4 {
        put_object(row_at(objects, 4 * quad + j), j, block);
    }
}

/// Stages the block of the row at a place, as the objects are held.
pub(crate) fn stage_row(pages: &mut Pages, objects: &Space, place: u64)
    requires place { place < object_limit }
    requires staged_or_fewer_than_160 { (is_staged pages.old (first_object_block + place / 4) ≡ true) ⊎ (staged_of pages.old < body_limit) }
    ensures { StagesRows objects.now place pages.old pages.new }
{
    let mut block = *pages.zeros();
    put_rows(objects, place / 4, &mut block);
    pages.stage(FIRST_OBJECT_BLOCK + place / 4, &block);
}
